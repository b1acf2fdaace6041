//! The names that the items of an edit speak of to the others: the entries that it replaces and
//! those that it makes come in, the names of both go out, if they are few. An item that uses none
//! of them sees after the edit what it saw.
#![tactic(auto)]

ghost use Rattle.std.specs.Prelude.{◌≡◌, ◌-◌, ◌≤◌, IfOk, IfSome, drop, length, map, take};
ghost use Rattle.snl_scope.specs.Spoken.{AreEditedNames, KeepsViews};
ghost use Rattle.snl_kept.specs.Checks.{outlines_in};
ghost use Rattle.snl_kept.specs.Editing.{AreEntriesIn, IsUnderWay, old_in, text_in};
ghost use Rattle.snl_kept.specs.ItemPlan.{outlines_kept};

use crate::editing::Editing;
use crate::entries::Entry;
use crate::shared::Shared;
use crate::values::{add_kept, add_made};
use snl_cut::OutOfMemory;
use snl_grammar::{outcome_told, same_spelling_same_tree};
use snl_lists::Ordered;
use snl_scope::{EditedNames, Outline, same_spelling_same_summary, unspoken_names};
use std::alloc::Global;

/// The names of more items than these are many.
const MANY: usize = 8;

// What these items say to the others.
fn outlines_of<'a>(
    alloc: Global,
    entries: &[&'a Shared<Entry>],
) -> Result<Vec<&'a Outline>, OutOfMemory>
    ensures { IfOk result (λ outlines. map (λ s. s.now) outlines.items ≡ outlines_kept (map (λ e. e.now) entries.now)) }
{
    let mut outlines = Vec::with_capacity(alloc, entries.len())?;
    for entry in entries {
        outlines.push(&entry.get().summary.outline)?;
    }
    Ok(outlines)
}

// The names that the items from one number up to another speak of, and those that are made in their
// place.
fn edited_between<'a>(
    alloc: Global,
    entries: &'a Ordered<Shared<Entry>>,
    front: usize,
    made: &'a [Shared<Entry>],
    back: usize,
) -> Result<Option<EditedNames<'a>>, OutOfMemory>
    requires order { front ≤ back }
    requires inside { back ≤ length entries.now.values }
    ensures { IfOk result (λ edited. IfSome edited (AreEditedNames (outlines_kept (take (back - front) (drop front entries.now.values))) (outlines_kept made.now))) }
{
    if made.len() > MANY || made.len() != back - front {
        return Ok(None);
    }
    let mut old = Vec::with_capacity(alloc, made.len())?;
    add_kept(entries, front, back, &mut old)?;
    let mut new = Vec::with_capacity(alloc, made.len())?;
    add_made(made, &mut new)?;
    let old_outlines = outlines_of(alloc, &old)?;
    let new_outlines = outlines_of(alloc, &new)?;
    EditedNames::of(alloc, &old_outlines, &new_outlines)
}

/// The names that the items of an edit speak of, those that it replaces and those that it makes, if
/// they are few. `entries` has what is kept of the old items.
pub fn edited_names<'a>(
    alloc: Global,
    editing: &Editing,
    entries: &'a Ordered<Shared<Entry>>,
    made: &'a [Shared<Entry>],
) -> Result<Option<EditedNames<'a>>, OutOfMemory>
    requires editing { IsUnderWay editing.now }
    requires entries { entries.now ≡ editing.now.lists.now.entries }
    requires made { AreEntriesIn editing.now made.now }
    ensures { IfOk result (λ edited. IfSome edited (KeepsViews (outlines_in (old_in editing.now)) (outlines_in (text_in editing.now)))) }
{
    outcome_told();
    same_spelling_same_tree();
    same_spelling_same_summary();
    unspoken_names();
    let items = &editing.changes.items;
    let back = entries.len() - items.kept_back;
    edited_between(alloc, entries, items.kept_front, made, back)
}
