//! What is in a state set: the items of a text and their links come in; the states of a set and the
//! targets of each go out, and whether an item is faulty or the first state of its name.

ghost use Rattle.std.specs.Prelude.{◌≡◌, ◌<◌, ◌≤◌, ◌&&◌, ℕ, OnOk, false, length, nat_eq, nat_lt, option_copied, position, take, None};
ghost use Rattle.std.specs.List.Sorted.{IsStrictlyIncreasing};
ghost use Rattle.std.specs.Option.{option_map_or};
ghost use Rattle.snl_scope.specs.Linked.{is_first_state, name_of_state, state_of};
ghost use Rattle.snl_scope.specs.Order.{is_state_word, state_name};
ghost use Rattle.snl_scope.specs.Places.{stands_in};
ghost use Rattle.snl_summary.specs.Summaries.{opening_by_word, outline_in};
ghost use Rattle.snl_walk.specs.Tokens.{IsSource};
ghost use Rattle.snl_check.specs.Collected.{IsLinked, IsStateSource, items_in, over};
ghost use Rattle.snl_check.specs.ItemTokens.{own_tokens};
ghost use Rattle.snl_check.specs.Members.{has_faulty, is_faulty_item, number_among, states_in, target_numbers, targets_among};
ghost use Rattle.snl_check.specs.Reach.{target_lists};

use crate::rows::item_source::ItemSource;
use crate::rows::row_source::RowSource;
use crate::rows::state_source::StateSource;
use snl_cut::OutOfMemory;
use snl_lex::{Class, token_text};
use snl_scope::{Links, sets_open_in_turn};
use std::alloc::Global;

/// What is in a state set: its states, by the numbers of their items, and whether an item is
/// faulty.
#[derive(Drop)]
pub(crate) struct Members {
    pub states: Vec<usize>,
    pub has_faulty: bool,
}

impl Members {
    /// What is in a set that has no items.
    pub(crate) fn new(alloc: Global) -> Members {
        Members {
            states: Vec::new(alloc),
            has_faulty: false,
        }
    }
}

fn is_state_word(word: &[u8]) -> bool
    ensures { result ≡ is_state_word (opening_by_word word.now) }
{
    word == b"state".as_slice()
}

// The name of a state that has these tokens, faulty or not.
fn name_in<'a>(source: &ItemSource<'a>) -> Option<&'a [u8]>
    requires { IsSource source.now.text.now (own_tokens source.now) }
    ensures { option_copied result ≡ state_name (outline_in source.now.text.now (own_tokens source.now) None) }
{
    match (source.token(0), source.token(1)) {
        (Some(first), Some(second)) => {
            let is_state = first.kind == Class::Word
                && is_state_word(token_text(source.text, first))
                && second.kind == Class::Name;
            if is_state {
                Some(token_text(source.text, second))
            } else {
                None
            }
        }
        _ => None,
    }
}

// The name of an item that is a state.
fn name_of_state<'a>(row_source: &RowSource<'a>, item: usize) -> Option<&'a [u8]>
    requires { IsLinked row_source.now }
    ensures { option_copied result ≡ name_of_state row_source.now.links.now.outlines item }
{
    name_in(&row_source.program.source(item))
}

/// Whether an item is faulty.
pub(crate) fn is_faulty(row_source: &RowSource, item: usize) -> bool
    requires linked { IsLinked row_source.now }
    requires item { item < length row_source.now.program.trees.now }
    ensures { result ≡ is_faulty_item (items_in row_source.now.program) item }
{
    row_source.program.tree(item).is_none()
}

// Whether an item is in the state set that another begins.
fn stands_in(links: &Links, set: usize, item: usize) -> bool
    ensures { result ≡ stands_in links.now.outlines set item }
{
    match links.enclosing_set(item) {
        Some(enclosing) => set == enclosing,
        None => false,
    }
}

// The number of the item after those of a state set: they follow the item that begins it.
fn end_of(links: &Links, set: usize, count: usize) -> usize
    requires count { count ≡ length links.now.outlines }
    requires set { set < count }
    ensures within { result ≤ count }
    ensures some { set < result }
    ensures items { (j : ℕ) → j < count
        → stands_in links.now.outlines set j ≡ (nat_lt set j && nat_lt j result) }
{
    sets_open_in_turn();
    for item in set + 1..count {
        if !stands_in(links, set, item) {
            return item;
        }
    }
    count
}

/// Puts what is in the state set that an item begins in the place of what was in another.
pub(crate) fn members_of(
    row_source: &RowSource,
    set: usize,
    members: &mut Members,
) -> Result<(), OutOfMemory>
    requires linked { IsLinked row_source.now }
    requires set { set < length row_source.now.program.trees.now }
    ensures states { OnOk result (members.new.states.items
        ≡ states_in row_source.now.links.now.outlines set) }
    ensures faulty { OnOk result (members.new.has_faulty
        ≡ has_faulty (items_in row_source.now.program) row_source.now.links.now.outlines set) }
{
    let end = end_of(row_source.links, set, row_source.program.trees.len());
    members.states.clear();
    members.has_faulty = false;
    for item in set + 1..end {
        if is_faulty(row_source, item) {
            members.has_faulty = true;
        }
        if row_source.links.is_named_state(item) {
            members.states.push(item)?;
        }
    }
    Ok(())
}

// The number of an item among states.
fn number_among(states: &[usize], item: usize) -> Option<usize>
    requires { IsStrictlyIncreasing states.now }
    ensures { result ≡ position (nat_eq item) states.now }
{
    match states.binary_search(&item) {
        Ok(number) => Some(number),
        Err(_) => None,
    }
}

/// What a target of a state means, by its number among the states of the set.
pub(crate) fn target_number(
    links: &Links,
    states: &[usize],
    state: usize,
    name: &[u8],
) -> Option<usize>
    requires { IsStrictlyIncreasing states.now }
    ensures { result ≡ number_among states.now (state_of links.now.outlines state name.now) }
{
    number_among(states, links.state(state, name)?)
}

// Puts the targets of a state, by their numbers among the states of its set, in the place of those
// that are there.
fn target_numbers(
    state_source: &StateSource,
    states: &[usize],
    state: usize,
    numbers: &mut Vec<usize>,
) -> Result<(), OutOfMemory>
    requires state_source { IsStateSource state_source.now }
    requires rising { IsStrictlyIncreasing states.now }
    ensures { OnOk result (numbers.new.items
        ≡ over state_source.now.row_source target_numbers states.now state) }
{
    let source = state_source.row_source.program.source(state);
    let targets = state_source.target_uses(state);
    numbers.clear();
    for target in targets {
        let name = source.bytes(target.token);
        if let Some(number) = target_number(state_source.row_source.links, states, state, name) {
            numbers.push(number)?;
        }
    }
    Ok(())
}

// Puts empty lists after those that are there, until there are so many.
fn make_lists(alloc: Global, lists: &mut Vec<Vec<usize>>, count: usize) -> Result<(), OutOfMemory>
    ensures { OnOk result (count ≤ length lists.new.items) }
{
    if lists.len() < count {
        lists.resize_with(count, || Vec::new(alloc))?;
    }
    Ok(())
}

/// Puts the targets of each state of a set in the place of the first lists. Those after them stay,
/// so that a larger set finds them.
pub(crate) fn targets_among(
    state_source: &StateSource,
    states: &[usize],
    targets: &mut Vec<Vec<usize>>,
) -> Result<(), OutOfMemory>
    requires state_source { IsStateSource state_source.now }
    requires rising { IsStrictlyIncreasing states.now }
    ensures each { OnOk result (length states.now ≤ length targets.new.items) }
    ensures lists { OnOk result (target_lists (take (length states.now) targets.new.items)
        ≡ over state_source.now.row_source targets_among states.now) }
{
    make_lists(state_source.row_source.program.alloc, targets, states.len())?;
    for (number, state) in states.iter().enumerate() {
        target_numbers(state_source, states, *state, &mut targets[number])?;
    }
    Ok(())
}

/// Whether a state is the first of a name in its set.
pub(crate) fn is_first_of(links: &Links, state: usize, name: &[u8]) -> bool
    ensures { result ≡ option_map_or (nat_eq state)
        (state_of links.now.outlines state name.now) false }
{
    match links.state(state, name) {
        Some(first) => state == first,
        None => false,
    }
}

/// Whether a state is the first of its name in its set.
pub(crate) fn is_first_state(row_source: &RowSource, state: usize) -> bool
    requires { IsLinked row_source.now }
    ensures { result ≡ is_first_state row_source.now.links.now.outlines state }
{
    match name_of_state(row_source, state) {
        Some(name) => is_first_of(row_source.links, state, name),
        None => false,
    }
}
