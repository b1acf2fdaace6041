//! The rows that an edit leaves as they are: those of channels, and those of the state sets that
//! begin before it, but for the last. In: the edit under way and what is kept of the items that it
//! makes. Out: the rows, if no item from the edit on says anything that they are made from, in the
//! old text or in the new one. Programs are written so: what channels are made from comes before the
//! state sets.
#![tactic(auto)]

ghost use Rattle.std.specs.Prelude.{◌≡◌, ◌≤◌, IfSome, drop, length};
ghost use Rattle.snl_scope.specs.Below.{all_below};
ghost use Rattle.snl_scope.specs.Places.{is_set_begin};
ghost use Rattle.snl_check.specs.KnownRows.{AreKnown};
ghost use Rattle.snl_moved.specs.Quiet.{after_quiet, are_quiet, quiet_along};
ghost use Rattle.snl_kept.specs.Checks.{outlines_in};
ghost use Rattle.snl_kept.specs.Editing.{AreEntriesIn, IsUnderWay, items_in, old_in, text_in};
ghost use Rattle.snl_kept.specs.ItemPlan.{outlines_kept};
ghost use Rattle.snl_kept.specs.Tables.{tables_in};

use crate::editing::Editing;
use crate::entries::Entry;
use crate::shared::Shared;
use snl_check::KnownRows;
use snl_cut::ends_in_order;
use snl_grammar::{Tokens, outcome_told, same_spelling_same_tree};
use snl_items::tokens_around_stay;
use snl_lex::text_in_pieces;
use snl_lists::Ordered;
use snl_moved::{after_quiet, channels_stay, sets_stay};
use snl_scope::{Links, same_spelling_same_summary};

fn after_entry(in_later_set: bool, entry: &Shared<Entry>) -> Option<bool>
    ensures { result ≡ after_quiet in_later_set entry.now.summary.outline }
{
    after_quiet(in_later_set, &entry.get().summary.outline)
}

// What items that are made leave for the next one, if all of them are quiet.
fn after_made(in_later_set: bool, made: &[Shared<Entry>]) -> Option<bool>
    ensures { result ≡ quiet_along in_later_set (outlines_kept made.now) }
{
    let mut next = in_later_set;
    for entry in made {
        next = after_entry(next, entry)?;
    }
    Some(next)
}

// The same of the items from one number on.
fn after_kept(in_later_set: bool, entries: &Ordered<Shared<Entry>>, from: usize) -> Option<bool>
    requires { from ≤ length entries.now.values }
    ensures { result ≡ quiet_along in_later_set (outlines_kept (drop from entries.now.values)) }
{
    let mut next = in_later_set;
    for number in from..entries.len() {
        if let Some(entry) = entries.get(number) {
            next = after_entry(next, entry)?;
        }
    }
    Some(next)
}

// Whether all items of the old text are quiet, from the edit on.
fn were_quiet(editing: &Editing) -> bool
    requires { IsUnderWay editing.now }
    ensures { result ≡ are_quiet (drop (items_in editing.now).kept_front (outlines_in (old_in editing.now))) }
{
    outcome_told();
    same_spelling_same_tree();
    same_spelling_same_summary();
    after_kept(
        false,
        &editing.lists.entries,
        editing.changes.items.kept_front,
    )
    .is_some()
}

// Whether all items of the new text are quiet, from the edit on.
fn are_quiet_now(editing: &Editing, made: &[Shared<Entry>]) -> bool
    requires editing { IsUnderWay editing.now }
    requires made { AreEntriesIn editing.now made.now }
    ensures { result ≡ are_quiet (drop (items_in editing.now).kept_front (outlines_in (text_in editing.now))) }
{
    outcome_told();
    same_spelling_same_tree();
    same_spelling_same_summary();
    let entries = &editing.lists.entries;
    let back = entries.len() - editing.changes.items.kept_back;
    match after_made(false, made) {
        Some(next) => after_kept(next, entries, back).is_some(),
        None => false,
    }
}

// How many state sets begin among so many first items.
fn sets_begun(links: &Links, count: usize) -> usize
    ensures { result ≡ length (all_below (is_set_begin links.now.outlines) count) }
{
    let mut sets = 0;
    for item in 0..count {
        if links.begins_set(item) {
            sets += 1;
        }
    }
    sets
}

/// The rows of channels and of the state sets before the edit, if the edit leaves them as they are.
/// The last of these sets may go on after it. Where it makes no item, whatever is after it may have
/// moved.
pub fn kept_rows<'a>(editing: &Editing<'a, '_>, made: &[Shared<Entry>]) -> Option<KnownRows<'a>>
    requires editing { IsUnderWay editing.now }
    requires made { AreEntriesIn editing.now made.now }
    ensures { IfSome result (λ known. AreKnown known (tables_in (text_in editing.now))) }
{
    text_in_pieces();
    tokens_around_stay();
    ends_in_order::<Tokens>();
    outcome_told();
    same_spelling_same_tree();
    same_spelling_same_summary();
    channels_stay();
    sets_stay();
    if made.is_empty() || !are_quiet_now(editing, made) || !were_quiet(editing) {
        return None;
    }
    let begun = sets_begun(&editing.lists.links, editing.changes.items.kept_front);
    let sets = editing.tables.sets.as_slice();
    Some(KnownRows {
        channels: editing.tables.channels.as_slice(),
        sets: &sets[..begun.saturating_sub(1)],
    })
}
