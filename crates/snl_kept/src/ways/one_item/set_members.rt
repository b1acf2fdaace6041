//! The items of a state set after an edit inside one of them: what is kept of the old items and of
//! the one that is made comes in, what the marks of the states go by goes out.
#![tactic(auto)]

ghost use Rattle.std.specs.Prelude.{◌≡◌, ◌+◌, ◌<◌, IfOk, OnOk, Some, length, option_copied, slice_get, slice_set};
ghost use Rattle.snl_scope.specs.Order.{state_name};
ghost use Rattle.snl_scope.specs.Places.{stands_in};
ghost use Rattle.snl_check.specs.Members.{AreSetMembers, IsSetMember};
ghost use Rattle.snl_kept.specs.Checks.{outlines_in};
ghost use Rattle.snl_kept.specs.Entries.{entries_of};
ghost use Rattle.snl_kept.specs.Program.{items_of};
ghost use Rattle.snl_kept.specs.SetMembers.{AreMembersBelow};

use crate::entries::Entry;
use crate::shared::Shared;
use snl_check::SetMember;
use snl_cut::OutOfMemory;
use snl_grammar::{outcome_told, same_spelling_same_tree};
use snl_lists::Ordered;
use snl_scope::{Links, Opening, Outline, same_spelling_same_summary};
use std::alloc::Global;

// What is kept of the item with a number after an edit that makes this one in the place of another.
fn entry_after<'a>(
    entries: &'a Ordered<Shared<Entry>>,
    item: usize,
    made: &'a Entry,
    number: usize,
) -> Option<&'a Entry>
    requires { item < length entries.now.values }
    ensures { option_copied result ≡ slice_get (slice_set entries.now.values item made.now) number }
{
    if number == item {
        return Some(made);
    }
    match entries.get(number) {
        Some(entry) => Some(entry.get()),
        None => None,
    }
}

// The name of an item that begins as a state does.
fn name_of(outline: &Outline) -> Option<&[u8]>
    ensures { option_copied result ≡ state_name outline.now }
{
    if !matches!(outline.opening, Opening::State) {
        return None;
    }
    match &outline.second {
        Some(name) => Some(name.bytes()),
        None => None,
    }
}

// What the marks of the states go by, of an item of the set.
fn member_of<'a>(text: &[u8], item: usize, entry: &'a Entry) -> SetMember<'a>
    requires { slice_get (entries_of text.now) item ≡ Some entry.now }
    ensures item { result.item ≡ item }
    ensures member { IsSetMember text.now (items_of text.now) (outlines_in text.now) result }
{
    outcome_told();
    same_spelling_same_tree();
    same_spelling_same_summary();
    SetMember {
        item,
        is_faulty: entry.parsed.tree().is_none(),
        name: name_of(&entry.summary.outline),
        targets: entry.summary.targets.as_slice(),
    }
}

// Whether an item is in the state set that another begins.
fn stands_in(links: &Links, set: usize, item: usize) -> bool
    ensures { result ≡ stands_in links.now.outlines set item }
{
    links.enclosing_set(item) == Some(set)
}

// Adds the item with a number, if it is in the set.
fn add_member<'a>(
    text: &[u8],
    links: &Links,
    entries: &'a Ordered<Shared<Entry>>,
    set: usize,
    item: usize,
    made: &'a Entry,
    number: usize,
    members: &mut Vec<SetMember<'a>>,
) -> Result<(), OutOfMemory>
    requires item { item < length entries.now.values }
    requires entries { entries_of text.now ≡ slice_set entries.now.values item made.now }
    requires outlines { links.now.outlines ≡ outlines_in text.now }
    requires number { number < length entries.now.values }
    requires members { AreMembersBelow text.now links.now.outlines set number members.old.items }
    ensures { OnOk result (AreMembersBelow text.now links.now.outlines set (number + 1) members.new.items) }
{
    if stands_in(links, set, number) {
        if let Some(entry) = entry_after(entries, item, made, number) {
            members.push(member_of(text, number, entry))?;
        }
    }
    Ok(())
}

/// The items of a set of a text after an edit that makes this item in the place of another, by what
/// was kept of the items.
pub fn set_members<'a>(
    alloc: Global,
    text: &[u8],
    links: &Links,
    entries: &'a Ordered<Shared<Entry>>,
    set: usize,
    item: usize,
    made: &'a Entry,
) -> Result<Vec<SetMember<'a>>, OutOfMemory>
    requires item { item < length entries.now.values }
    requires entries { entries_of text.now ≡ slice_set entries.now.values item made.now }
    requires outlines { links.now.outlines ≡ outlines_in text.now }
    ensures { IfOk result (λ v. AreSetMembers text.now (items_of text.now) links.now.outlines set v.items) }
{
    outcome_told();
    same_spelling_same_tree();
    same_spelling_same_summary();
    let mut members = Vec::new(alloc);
    for number in 0..entries.len() {
        add_member(text, links, entries, set, item, made, number, &mut members)?;
    }
    Ok(members)
}
