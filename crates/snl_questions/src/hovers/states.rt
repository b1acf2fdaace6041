//! The state that a name declares.
//! In: a text, its tables, and the span of the name. Out: the lines of the state's mark and of what
//! it wakes on, after those that are there.

ghost use Rattle.std.specs.Prelude.{◌≡◌, ◌++◌, ◌∷◌, [], IfOk, OnOk, codes, find, flat_map, map};
ghost use Rattle.std.specs.Prelude.{option_copied, take};
ghost use Rattle.snl_listing.specs.Listing.{mark_text};
ghost use Rattle.snl_questions.specs.declared.hovers.states.Waker.TheVariants.{Channel, Flag};
ghost use Rattle.snl_questions.specs.Hover.{after_comma, channel_name, further, is_state, more};
ghost use Rattle.snl_questions.specs.Hover.{row_lines, state_declared, state_lines, wake_lines};
ghost use Rattle.snl_questions.specs.Hover.{waker_name, wakers};

use crate::hovers::channels::put_index;
use crate::hovers::first::{are_more, first_of};
use crate::hovers::flags::{flag_name, is_span};
use crate::meanings::items::span_bytes;
use snl_cut::OutOfMemory;
use snl_tables::{
    ChannelRow, SetRow, Span, StateMark, StateRow, Tables, wake_channels, wake_flags,
};
use std::alloc::{AllocError, Global};

/// What a state wakes on: an event flag, counted from 1, or a channel, counted from 0.
#[derive(Clone, Copy)]
pub enum Waker {
    Flag(usize),
    Channel(usize),
}

fn is_state(declared: Span, row: &StateRow) -> bool
    ensures { result ≡ is_state declared row.now }
{
    is_span(declared, row.name)
}

// The state that is declared, if it is one of these.
fn state_among(states: &[StateRow], declared: Span) -> Option<&StateRow>
    ensures { option_copied result ≡ find (is_state declared) states.now }
{
    states.iter().find(|row| is_state(declared, row))
}

// The same among the states of all sets.
#[tactic(auto, using(crate::proofs::DeclaredStates::found_here, crate::proofs::DeclaredStates::found_later))]
fn state_declared(sets: &[SetRow], declared: Span) -> Option<&StateRow>
    ensures { option_copied result ≡ state_declared declared sets.now }
{
    for set in sets {
        if let Some(state) = state_among(set.states.as_slice(), declared) {
            return Some(state);
        }
    }
    None
}

fn mark_text(mark: StateMark) -> &'static [u8]
    ensures { result.now ≡ mark_text mark }
{
    match mark {
        StateMark::Faulty => b"faulty",
        StateMark::Repeated => b"repeated",
        StateMark::Unknown => b"unknown",
        StateMark::Reached => b"reached",
        StateMark::Unreached => b"unreached",
    }
}

// Event flags and channels by their numbers, the flags first.
fn all_wakers(alloc: Global, flags: &[usize], channels: &[usize]) -> Result<Vec<Waker>, OutOfMemory>
    ensures { IfOk result (λ all. all.items ≡ map Flag flags.now ++ map Channel channels.now) }
{
    let mut all = Vec::new(alloc);
    for flag in flags {
        all.push(Waker::Flag(*flag))?;
    }
    for channel in channels {
        all.push(Waker::Channel(*channel))?;
    }
    Ok(all)
}

// What a state wakes on.
fn wakers(alloc: Global, tables: &Tables, state: &StateRow) -> Result<Vec<Waker>, OutOfMemory>
    ensures { IfOk result (λ all. all.items ≡ wakers tables.now state.now) }
{
    let flags = wake_flags(alloc, tables, state)?;
    let channels = wake_channels(alloc, tables, state)?;
    all_wakers(alloc, &flags, &channels)
}

fn put_channel_name(
    out: &mut Vec<u8>,
    text: &[u8],
    channels: &[ChannelRow],
    number: usize,
) -> Result<(), AllocError>
    ensures { OnOk result (out.new.items ≡ out.old.items
        ++ channel_name text.now channels.now number) }
{
    let Some(row) = channels.get(number) else {
        return Ok(());
    };
    out.extend_from_slice(span_bytes(text, row.variable))?;
    put_index(out, row.element)
}

fn put_waker(
    out: &mut Vec<u8>,
    text: &[u8],
    tables: &Tables,
    waker: Waker,
) -> Result<(), AllocError>
    ensures { OnOk result (out.new.items ≡ out.old.items ++ waker_name text.now tables.now waker) }
{
    match waker {
        Waker::Flag(number) => {
            out.extend_from_slice(flag_name(text, tables.flags.as_slice(), number))
        }
        Waker::Channel(number) => put_channel_name(out, text, tables.channels.as_slice(), number),
    }
}

// Names after another one, each after a comma.
fn put_others(
    out: &mut Vec<u8>,
    text: &[u8],
    tables: &Tables,
    others: &[Waker],
) -> Result<(), AllocError>
    ensures { OnOk result (out.new.items ≡ out.old.items
        ++ flat_map (λ waker. after_comma (waker_name text.now tables.now waker)) others.now) }
{
    for waker in others {
        out.extend_from_slice(b", ")?;
        put_waker(out, text, tables, *waker)?;
    }
    Ok(())
}

// `..` after the names, where there are more.
fn put_more_names(out: &mut Vec<u8>, all: &[Waker]) -> Result<(), AllocError>
    ensures { OnOk result (out.new.items ≡ out.old.items ++ flat_map after_comma (more all.now)) }
{
    if are_more(all) {
        out.extend_from_slice(b", ..")?;
    }
    Ok(())
}

// The line of what a state wakes on.
fn put_wakers(
    out: &mut Vec<u8>,
    text: &[u8],
    tables: &Tables,
    all: &[Waker],
) -> Result<(), AllocError>
    ensures { OnOk result (out.new.items ≡ out.old.items
        ++ further (wake_lines text.now tables.now all.now)) }
{
    let Some((first, others)) = first_of(all).split_first() else {
        return Ok(());
    };
    out.extend_from_slice(b"\nwakes on ")?;
    put_waker(out, text, tables, *first)?;
    put_others(out, text, tables, others)?;
    put_more_names(out, all)
}

// The lines of a state.
fn put_row(
    alloc: Global,
    out: &mut Vec<u8>,
    text: &[u8],
    tables: &Tables,
    state: &StateRow,
) -> Result<(), OutOfMemory>
    ensures { OnOk result (out.new.items ≡ out.old.items
        ++ further (row_lines text.now tables.now state.now)) }
{
    let all = wakers(alloc, tables, state)?;
    out.extend_from_slice(b"\n")?;
    out.extend_from_slice(mark_text(state.mark))?;
    put_wakers(out, text, tables, &all)?;
    Ok(())
}

/// The lines of the state that a name declares, if it does.
#[tactic(auto, unfolding(crate::specs::Hover::state_lines))]
pub fn put_state(
    alloc: Global,
    out: &mut Vec<u8>,
    text: &[u8],
    tables: &Tables,
    declared: Span,
) -> Result<(), OutOfMemory>
    ensures { OnOk result (out.new.items ≡ out.old.items
        ++ further (state_lines text.now tables.now declared)) }
{
    match state_declared(tables.sets.as_slice(), declared) {
        Some(state) => put_row(alloc, out, text, tables, state),
        None => Ok(()),
    }
}
