//! What is known of the states of a set: its items come in, by what is kept of each; the mark of
//! each state goes out. It knows no tokens.

ghost use Rattle.std.specs.Prelude.{◌≡◌, ◌<◌, ℕ, IfOk, List, false, filter, length, map, not, slice_index_or};
ghost use Rattle.std.specs.List.{enumerate_from, filter_map, list_any};
ghost use Rattle.std.specs.List.Sorted.{IsStrictlyIncreasing};
ghost use Rattle.snl_scope.specs.Below.{all_below};
ghost use Rattle.snl_scope.specs.Places.{stands_in};
ghost use Rattle.snl_item_check.specs.Items.{ProgramItem};
ghost use Rattle.snl_check.specs.Members.{AreSetMembers, has_name, is_first_by_member, numbers_by_member, target_number};
ghost use Rattle.snl_check.specs.Reach.{is_reached, target_lists};
ghost use Rattle.snl_check.specs.States.{first_mark, mark_by_member, marks_of};

use crate::reachability::members::{is_first_of, target_number};
use crate::reachability::reaching::reach;
use crate::rows::room::with_room;
use snl_cut::OutOfMemory;
use snl_scope::{Links, NameRef};
use snl_tables::StateMark;
use std::alloc::Global;

/// An item of a state set, by what is kept of it: its number, whether the grammar has no such item,
/// its name, where it is a state that has one, and the targets of its summary.
#[derive(Clone, Copy)]
pub struct SetMember<'a> {
    pub item: usize,
    pub is_faulty: bool,
    pub name: Option<&'a [u8]>,
    pub targets: &'a [NameRef],
}

// The items that are states with a name.
fn named_among<'a>(
    alloc: Global,
    members: &[SetMember<'a>],
) -> Result<Vec<SetMember<'a>>, OutOfMemory>
    ensures { IfOk result (λ named. named.items ≡ filter has_name members.now) }
{
    let mut named = Vec::new(alloc);
    for member in members {
        if member.name.is_some() {
            named.push(*member)?;
        }
    }
    Ok(named)
}

fn some_faulty(members: &[SetMember]) -> bool
    ensures { result ≡ list_any (λ m. m.is_faulty) members.now }
{
    members.iter().any(|member| member.is_faulty)
}

fn items_of(alloc: Global, named: &[SetMember]) -> Result<Vec<usize>, OutOfMemory>
    ensures { IfOk result (λ items. items.items ≡ map (λ m. m.item) named.now) }
{
    let mut items = with_room(alloc, named.len())?;
    for member in named {
        items.push(member.item)?;
    }
    Ok(items)
}

// The targets of a state, by their numbers among the states of its set.
fn target_numbers(
    alloc: Global,
    links: &Links,
    states: &[usize],
    state: usize,
    targets: &[NameRef],
) -> Result<Vec<usize>, OutOfMemory>
    requires { IsStrictlyIncreasing states.now }
    ensures { IfOk result (λ numbers. numbers.items
        ≡ filter_map (target_number links.now.outlines states.now state) targets.now) }
{
    let mut numbers = with_room(alloc, targets.len())?;
    for target in targets {
        if let Some(number) = target_number(links, states, state, target.name.bytes()) {
            numbers.push(number)?;
        }
    }
    Ok(numbers)
}

// The targets of each state.
fn targets_of(
    alloc: Global,
    links: &Links,
    states: &[usize],
    named: &[SetMember],
) -> Result<Vec<Vec<usize>>, OutOfMemory>
    requires { IsStrictlyIncreasing states.now }
    ensures { IfOk result (λ targets. target_lists targets.items
        ≡ map (numbers_by_member links.now.outlines states.now) named.now) }
{
    let mut targets = with_room(alloc, named.len())?;
    for member in named {
        targets.push(target_numbers(alloc, links, states, member.item, member.targets)?)?;
    }
    Ok(targets)
}

// Of each state whether it is reached. Where an item of the set is faulty, nothing is said.
fn reached_among(
    alloc: Global,
    links: &Links,
    has_faulty: bool,
    named: &[SetMember],
) -> Result<Vec<bool>, OutOfMemory>
    requires { IsStrictlyIncreasing (map (λ m. m.item) named.now) }
    ensures { IfOk result (λ reached. has_faulty ≡ false → (number : ℕ) → number < length named.now
        → slice_index_or reached.items number false
        ≡ is_reached (map (numbers_by_member links.now.outlines
        (map (λ m. m.item) named.now)) named.now) number) }
{
    if has_faulty {
        return Ok(Vec::new(alloc));
    }
    let states = items_of(alloc, named)?;
    let targets = targets_of(alloc, links, &states, named)?;
    Ok(reach(alloc, &targets)?)
}

// Whether a state is the first of its name in its set.
fn is_first(links: &Links, member: &SetMember) -> bool
    ensures { result ≡ is_first_by_member links.now.outlines member.now }
{
    match member.name {
        Some(name) => is_first_of(links, member.item, name),
        None => false,
    }
}

/// What is known of a state, which has this number among the states of its set: the first that
/// holds. `has_faulty` is that an item of the set is faulty; `reached` is asked only where none is.
pub(crate) fn first_mark(
    is_faulty: bool,
    is_first: bool,
    has_faulty: bool,
    reached: &[bool],
    number: usize,
) -> StateMark
    ensures { result ≡ first_mark is_faulty (not is_first) has_faulty
        (slice_index_or reached.now number false) }
{
    if is_faulty {
        return StateMark::Faulty;
    }
    if !is_first {
        return StateMark::Repeated;
    }
    if has_faulty {
        return StateMark::Unknown;
    }
    match reached.get(number) {
        Some(true) => StateMark::Reached,
        _ => StateMark::Unreached,
    }
}

fn mark_of(
    links: &Links,
    has_faulty: bool,
    reached: &[bool],
    number: usize,
    member: &SetMember,
) -> StateMark
    ensures { result ≡ mark_by_member links.now.outlines has_faulty reached.now number member.now }
{
    let is_first = is_first(links, member);
    first_mark(member.is_faulty, is_first, has_faulty, reached, number)
}

fn marks_of(
    alloc: Global,
    links: &Links,
    has_faulty: bool,
    reached: &[bool],
    named: &[SetMember],
) -> Result<Vec<StateMark>, OutOfMemory>
    ensures { IfOk result (λ marks. marks.items
        ≡ map (λ p. mark_by_member links.now.outlines has_faulty reached.now p.0 p.1)
        (enumerate_from 0 named.now)) }
{
    let mut marks = with_room(alloc, named.len())?;
    for (number, member) in named.iter().enumerate() {
        marks.push(mark_of(links, has_faulty, reached, number, member))?;
    }
    Ok(marks)
}

/// What is known of each state of the set that an item begins, in the order of the text, by all
/// items of the set.
pub fn state_marks(
    alloc: Global,
    links: &Links,
    set: usize,
    members: &[SetMember],
) -> Result<Vec<StateMark>, OutOfMemory>
    requires items { map (λ m. m.item) members.now
        ≡ all_below (stands_in links.now.outlines set) (length links.now.outlines) }
    ensures marks { (text : List ℕ) (xs : List ProgramItem)
        → AreSetMembers text xs links.now.outlines set members.now
        → IfOk result (λ marks. marks.items ≡ marks_of text xs links.now.outlines set) }
{
    let named = named_among(alloc, members)?;
    let has_faulty = some_faulty(members);
    let reached = reached_among(alloc, links, has_faulty, &named)?;
    let marks = marks_of(alloc, links, has_faulty, &reached, &named)?;
    Ok(marks)
}
