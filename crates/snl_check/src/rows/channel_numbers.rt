//! The numbers of channels: a variable and an element come in, the number of the channel goes out.

ghost use Rattle.std.specs.Prelude.{◌≡◌, [], IfOk, OnOk, length, map};
ghost use Rattle.std.specs.Map.{lookup};
ghost use Rattle.snl_check.specs.Collected.{assigned};
ghost use Rattle.snl_check.specs.Hashed.{key_fed, same_key_fed, which_number};
ghost use Rattle.snl_check.specs.Numbered.{Adds, AddsAll, Numbered, HoldsBelow, element_at, has_key, same_key};

use crate::rows::channels::AssignedChannel;
use snl_cut::OutOfMemory;
use snl_numbers::NumbersByKey;
use snl_tables::ChannelRow;
use sqlite_items::Items;
use std::alloc::Global;
use std::hash::{Hash, Hasher};
use std::marker::Model;

/// Which element of a variable is meant.
#[derive(Clone, Copy, PartialEq, Eq, PartialOrd, Ord)]
pub(crate) enum Which {
    Any,
    /// The element with this number.
    Element(u64),
}

/// An element of the variable that is the declaration with a number.
#[derive(Clone, Copy, PartialEq, Eq, PartialOrd, Ord)]
pub(crate) struct ElementKey {
    pub variable: usize,
    pub which: Which,
}

fn which_number(which: Which) -> u64
    ensures { result ≡ which_number which }
{
    match which {
        Which::Any => u64::MAX,
        Which::Element(number) => number,
    }
}

// Each number has a write of its own: in one write of both, an element could be chosen that gives
// all variables one hash.
impl Hash for ElementKey {
    ghost hash_input = { key_fed };

    ghost respects_eq = { same_key_fed };

    fn hash<H: Hasher>(&self, state: &mut H) {
        state.write_usize(self.variable);
        state.write_u64(which_number(self.which));
    }
}

/// For each element that has a channel the number of the channel, and for each variable of such
/// elements the number of the first. Contracts see the list of these pairs.
#[derive(Drop)]
pub(crate) struct ChannelNumbers {
    held: NumbersByKey<ElementKey>,
}

impl Model for ChannelNumbers {
    ghost use Rattle.std.specs.Prelude.{ℕ, List};
    ghost use Rattle.snl_check.specs.declared.rows.channel_numbers.ElementKey.{ElementKey};

    ghost Value = { List (ElementKey × ℕ) };

    ghost view = { λ a. a.held };
}

impl ChannelNumbers {
    /// The numbers of no channel.
    pub(crate) fn new(alloc: Global) -> ChannelNumbers
        ensures { result ≡ [] }
    {
        ChannelNumbers {
            held: NumbersByKey::new(alloc),
        }
    }

    // The same, with room for so many keys.
    fn with_room(alloc: Global, room: usize) -> Result<ChannelNumbers, OutOfMemory>
        ensures { IfOk result (λ numbers. numbers ≡ []) }
    {
        Ok(ChannelNumbers {
            held: NumbersByKey::with_capacity(alloc, room)?,
        })
    }

    /// The number of the first channel with the key.
    pub(crate) fn number(&self, key: ElementKey) -> Option<usize>
        ensures { result ≡ lookup (same_key key) self.now }
    {
        self.held.get(&key)
    }

    // Adds a key of the channel with a number. One that had it before stays the first.
    fn add(&mut self, key: ElementKey, number: usize) -> Result<(), OutOfMemory>
        ensures { OnOk result (Adds self.old self.new (same_key key) number) }
    {
        self.held.add_first(key, number)?;
        Ok(())
    }

    // The same for a key that nearly always had one before: so it is sought before it is put.
    fn add_known(&mut self, key: ElementKey, number: usize) -> Result<(), OutOfMemory>
        ensures { OnOk result (Adds self.old self.new (same_key key) number) }
    {
        if self.held.get(&key).is_none() {
            self.add(key, number)?;
        }
        Ok(())
    }

    // Adds the keys of the channel with a number: it is one of the variable, of this element, if it
    // is that of one.
    fn add_channel(
        &mut self,
        variable: usize,
        element: Option<u64>,
        number: usize,
    ) -> Result<(), OutOfMemory>
        ensures { OnOk result (Adds self.old self.new (has_key variable element) number) }
    {
        let Some(element) = element else {
            return Ok(());
        };
        let any = ElementKey {
            variable,
            which: Which::Any,
        };
        let one = ElementKey {
            variable,
            which: Which::Element(element),
        };
        self.add_known(any, number)?;
        self.add(one, number)
    }

    // Adds the channels of a variable, by their rows.
    fn add_rows(
        &mut self,
        variable: usize,
        rows: &[ChannelRow],
        numbers: &[usize],
    ) -> Result<(), OutOfMemory>
        ensures { OnOk result (AddsAll self.old self.new variable rows.now numbers.now) }
    {
        for number in numbers {
            self.add_channel(variable, element_at(rows, *number), *number)?;
        }
        Ok(())
    }
}

// The element of the channel with a number.
fn element_at(rows: &[ChannelRow], number: usize) -> Option<u64>
    ensures { result ≡ element_at rows.now number }
{
    rows.get(number)?.element
}

// How many of these channels are those of elements. Each adds two keys at most.
fn element_count(channels: &[AssignedChannel]) -> usize {
    channels
        .iter()
        .filter(|channel| channel.element.is_some())
        .count()
}

/// The numbers of these channels.
pub(crate) fn numbers_of(
    alloc: Global,
    channels: &[AssignedChannel],
) -> Result<ChannelNumbers, OutOfMemory>
    ensures { IfOk result (λ numbers. Numbered numbers (map assigned channels.now)) }
{
    let room = element_count(channels).saturating_mul(2);
    let mut numbers = ChannelNumbers::with_room(alloc, room)?;
    for (number, channel) in channels.iter().enumerate() {
        numbers.add_channel(channel.variable, channel.element, number)?;
    }
    Ok(numbers)
}

/// The numbers of the channels of rows, by the lists of the channels of each variable.
pub(crate) fn numbers_by_rows(
    alloc: Global,
    rows: &[ChannelRow],
    lists: &[Items<usize>],
) -> Result<ChannelNumbers, OutOfMemory>
    ensures { IfOk result (λ numbers. HoldsBelow numbers rows.now lists.now (length lists.now)) }
{
    let mut numbers = ChannelNumbers::new(alloc);
    for (variable, list) in lists.iter().enumerate() {
        numbers.add_rows(variable, rows, list.as_slice())?;
    }
    Ok(numbers)
}
