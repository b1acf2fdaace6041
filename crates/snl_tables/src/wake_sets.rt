//! The wake-up sets of states, by the numbers of event flags and channels.
#![tactic(auto)]

ghost use Rattle.std.specs.Prelude.{◌≡◌, ℕ, ◌+◌, ◌<◌, ◌≤◌, ◌||◌, List, [], ◌∷◌, Bool, true, false, length, replicate, IfOk};
ghost use Rattle.std.specs.List.{slice_set};
ghost use Rattle.snl_tables.specs.Marks.{is_marked, marked};
ghost use Rattle.snl_tables.specs.WakeSets.{AreCovered, AreSeen, Inserts, IsFor, channels_of, wake_channels, wake_flags};

use crate::number_set::NumberSet;
use crate::rows::{StateRow, Tables, WakeUp};
use snl_cut::OutOfMemory;
use sqlite_items::Items;
use std::alloc::Global;

/// Bits of event flags and channels, with which the wake-up sets of many states are read, one after
/// another.
#[derive(Drop)]
pub struct WakeMarks {
    pub flags: NumberSet,
    pub channels: NumberSet,
    variables: NumberSet,
}

impl WakeMarks {
    /// Takes all the memory that the wake-up sets of these tables need.
    #[tactic(auto, using(crate::proofs::WakeLemmas::marked_new))]
    pub fn new(alloc: Global, tables: &Tables) -> Result<WakeMarks, OutOfMemory>
        ensures fit { IfOk result (IsFor tables.now) }
        ensures no_flag { IfOk result (λ marks. marked marks.flags ≡ []) }
        ensures no_channel { IfOk result (λ marks. marked marks.channels ≡ []) }
    {
        Ok(WakeMarks {
            flags: NumberSet::new(alloc, tables.flags.as_slice().len() + 1)?,
            channels: NumberSet::new(alloc, tables.channels.len())?,
            variables: NumberSet::new(alloc, tables.variables.len())?,
        })
    }

    /// Sets the bits of the wake-up set of a state.
    pub fn mark(&mut self, tables: &Tables, state: &StateRow)
        requires fit { IsFor tables.now self.old }
        requires no_flag { marked self.old.flags ≡ [] }
        requires no_channel { marked self.old.channels ≡ [] }
        ensures fit { IsFor tables.now self.new }
        ensures flags { marked self.new.flags ≡ wake_flags tables.now state.now }
        ensures channels { marked self.new.channels ≡ wake_channels tables.now state.now }
    {
        mark_uses(
            &mut self.flags,
            &mut self.channels,
            &mut self.variables,
            tables.variables.as_slice(),
            state.wake.as_slice(),
        );
        self.variables.clear();
    }
}

// Sets the bits of what uses cover.
#[tactic(auto, using(crate::proofs::WakeLemmas::marked_empty))]
fn mark_uses(
    flags: &mut NumberSet,
    channels: &mut NumberSet,
    seen: &mut NumberSet,
    variables: &[Items<usize>],
    uses: &[WakeUp],
)
    requires no_flag { marked flags.old ≡ [] }
    requires no_channel { marked channels.old ≡ [] }
    requires unseen { marked seen.old ≡ [] }
    ensures covered { AreCovered variables.now uses.now flags.new channels.new }
    ensures flag_limit { length flags.new ≡ length flags.old }
    ensures channel_limit { length channels.new ≡ length channels.old }
{
    for wake_up in uses {
        match wake_up {
            WakeUp::Flag(0) => {}
            WakeUp::Flag(number) => flags.insert(*number),
            WakeUp::Channel(number) => channels.insert(*number),
            WakeUp::Variable(number) => insert_variable(channels, seen, variables, *number),
        }
    }
}

// Puts in the channels of a variable, unless it was seen.
#[tactic(auto, using(crate::proofs::WakeLemmas::none_inserted, crate::proofs::WakeLemmas::seen_inserted, crate::proofs::WakeLemmas::seen_more))]
fn insert_variable(
    channels: &mut NumberSet,
    seen: &mut NumberSet,
    variables: &[Items<usize>],
    number: usize,
)
    requires { AreSeen variables.now seen.old channels.old }
    ensures seen { AreSeen variables.now seen.new channels.new }
    ensures inserted { Inserts channels.old channels.new (channels_of variables.now number) }
{
    if seen.contains(number) {
        return;
    }
    if let Some(list) = variables.get(number) {
        insert_all(channels, list.as_slice());
        seen.insert(number);
    }
}

#[tactic(auto, using(crate::proofs::WakeLemmas::inserts_more))]
fn insert_all(set: &mut NumberSet, numbers: &[usize])
    ensures { Inserts set.old set.new numbers.now }
{
    for number in numbers {
        set.insert(*number);
    }
}

/// The event flags of a state's wake-up set, by their numbers, rising.
pub fn wake_flags(
    alloc: Global,
    tables: &Tables,
    state: &StateRow,
) -> Result<Vec<usize>, OutOfMemory>
    ensures { IfOk result (λ flags. flags.items ≡ wake_flags tables.now state.now) }
{
    let mut marks = WakeMarks::new(alloc, tables)?;
    marks.mark(tables, state);
    listed(alloc, marks.flags)
}

/// The channels of a state's wake-up set, by their numbers, rising.
pub fn wake_channels(
    alloc: Global,
    tables: &Tables,
    state: &StateRow,
) -> Result<Vec<usize>, OutOfMemory>
    ensures { IfOk result (λ channels. channels.items ≡ wake_channels tables.now state.now) }
{
    let mut marks = WakeMarks::new(alloc, tables)?;
    marks.mark(tables, state);
    listed(alloc, marks.channels)
}

// The numbers of a set, rising.
fn listed(alloc: Global, mut set: NumberSet) -> Result<Vec<usize>, OutOfMemory>
    ensures { IfOk result (λ numbers. numbers.items ≡ marked set) }
{
    let mut numbers = Vec::new(alloc);
    while let Some(number) = set.take_first() {
        numbers.push(number)?;
    }
    Ok(numbers)
}
