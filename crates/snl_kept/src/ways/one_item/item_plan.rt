//! The plan of an edit inside one item, after which the others see what they saw: its findings, its
//! row, if it is a state, the marks of the states of its set, and what is kept of it are made anew,
//! all else stays or is shifted. The edit under way comes in, the plan goes out.
#![tactic(auto)]

ghost use Rattle.std.specs.Prelude.{◌≡◌, [], ◌∷◌, IfOk, IfSome, IsTrue, length};
ghost use Rattle.snl_cut.specs.Cut.{after_ticks};
ghost use Rattle.snl_lex.specs.PieceList.{spelled};
ghost use Rattle.snl_kept.specs.OneItem.{IsOneItemEdit, edit_by, head_of, item_of, old_of, text_of};
ghost use Rattle.snl_kept.specs.Checks.{outlines_in};
ghost use Rattle.snl_kept.specs.Cost.{IsCost};
ghost use Rattle.snl_kept.specs.Editing.{AreEntriesIn, IsUnderWay, MakesOneItem, edit_in, items_in, old_in};
ghost use Rattle.snl_kept.specs.Entries.{entry_by};
ghost use Rattle.snl_kept.specs.ItemPlan.{FitsRows, IsOwnPlan, IsWas, SaysWhatItSaid, checks_made};
ghost use Rattle.snl_kept.specs.Kept.{IsListed};
ghost use Rattle.snl_kept.specs.OwnLinks.{AreOwnLinks};
ghost use Rattle.snl_kept.specs.Planned.{IsItemPlan};
ghost use Rattle.snl_kept.specs.ReplacedItem.{SeesAlike, own_head};

use crate::editing::Editing;
use crate::entries::Entry;
use crate::laws::inside_laws::{
    edit_around_a_state, edit_around_an_item, edit_in_a_set, edit_inside_a_state,
    edit_outside_the_sets,
};
use crate::lists::Lists;
use crate::plan::{ItemPlan, ItemsPlan, LinksAndChecks, NewLinks};
use crate::shared::Shared;
use crate::ways::one_item::alike::{found_little, spares_inside, takes_place};
use crate::ways::one_item::own_links::own_links;
use crate::ways::one_item::own_parts::{OwnParts, own_check, own_parts, replaces_inside};
use crate::ways::one_item::own_rows::own_change;
use crate::ways::one_item::renamed::renamed_parts;
use crate::ways::one_item::replaced::{OldItem, OneItem};
use crate::ways::one_item::touched_rows::{TouchedRows, touched_by, touches_little};
use crate::work::Work;
use snl_cut::{Count, OutOfMemory};
use snl_grammar::{outcome_told, same_spelling_same_tree};
use snl_lex::text_in_pieces;
use snl_scope::{same_outline, same_spelling_same_summary};
use std::alloc::Global;

/// What an edit makes of an item, and what becomes of the links.
#[derive(Drop)]
pub struct OwnPlan {
    pub parts: OwnParts,
    pub links: NewLinks,
}

// All items say to each other what they said. This does nothing: its contract is the law of such an
// edit.
fn says_the_same_to_all(one: &OneItem, was: OldItem, made: &Entry)
    requires one { IsOneItemEdit one.now }
    requires was { IsWas (old_of one.now) (item_of one.now) was }
    requires alone { AreEntriesIn one.now.editing (made.now ∷ []) }
    requires says { SaysWhatItSaid (old_of one.now) (head_of one.now) (item_of one.now) was made.now }
    ensures outlines { outlines_in (text_of one.now) ≡ outlines_in (old_of one.now) }
    ensures seen { SeesAlike (old_of one.now) (text_of one.now) (item_of one.now) }
{
    outcome_told();
    same_spelling_same_tree();
    same_spelling_same_summary();
}

// What an edit makes of an item that says to the others what the one before it said, by the rows
// that it changes and what becomes of the links.
fn parts_of_same(
    alloc: Global,
    one: &OneItem,
    was: OldItem,
    made: &Entry,
    touched: TouchedRows,
    links: &NewLinks,
    work: &mut Count,
) -> Result<OwnParts, OutOfMemory>
    requires one { IsOneItemEdit one.now }
    requires was { IsWas (old_of one.now) (item_of one.now) was }
    requires made { made.now ≡ entry_by (spelled (text_of one.now) one.now.own.now.is.items) }
    requires alone { AreEntriesIn one.now.editing (made.now ∷ []) }
    requires says { SaysWhatItSaid (old_of one.now) (head_of one.now) (item_of one.now) was made.now }
    requires row { FitsRows (old_of one.now) (text_of one.now) (item_of one.now) one.now.own.now was made.now touched }
    requires links { AreOwnLinks one.now.editing.lists.now.links (item_of one.now) made.now.summary.kind links.now }
    ensures inside { IfOk result (IsOwnPlan (edit_by one.now) one.now.editing.changes.now links.now) }
    ensures ticks { IfOk result (λ i. work.new ≡ after_ticks work.old (length i.checks.made.items)) }
{
    edit_inside_a_state();
    edit_around_a_state();
    edit_in_a_set();
    edit_around_an_item();
    edit_outside_the_sets();
    text_in_pieces();
    outcome_told();
    same_spelling_same_tree();
    same_spelling_same_summary();
    let Editing {
        lists,
        edit,
        changes,
        ..
    } = one.editing;
    let item = changes.items.kept_front;
    says_the_same_to_all(one, was, made);
    replaces_inside(one, was, made);
    let own = &one.own.is;
    let check = own_check(alloc, edit.text, own, made, &lists.links, item, work)?;
    let change = own_change(alloc, one, made, touched, &check)?;
    let parts = own_parts(alloc, one, was, made, check, change)?;
    Ok(parts)
}

// What is kept of an item of a text.
fn item_that_was<'a>(lists: &'a Lists, text: &[u8], item: usize) -> Option<OldItem<'a>>
    requires lists { IsListed text.now lists.now }
    ensures { IfSome result (IsWas text.now item) }
{
    Some(OldItem {
        entry: lists.entries.get(item)?.get(),
        check: lists.checks.get(item)?.get(),
    })
}

// How many tokens of the item in the place of which an edit makes another are before those that it
// replaces.
fn own_head(editing: &Editing) -> usize
    requires editing { IsUnderWay editing.now }
    requires one { MakesOneItem editing.now }
    ensures { result ≡ own_head (old_in editing.now) editing.now.changes.now }
{
    let changes = editing.changes;
    let first = editing.lists.items.start_of(changes.items.kept_front);
    changes.tokens.edit.start.saturating_sub(first)
}

// Whether rows tell of an item, which says to the others what the one before it said, where they
// told of that one, of which so many tokens are before the edit, and little was found at that one.
fn says_what_it_said(
    lists: &Lists,
    text: &[u8],
    item: usize,
    head: usize,
    was: OldItem,
    made: &Entry,
) -> bool
    requires lists { IsListed text.now lists.now }
    requires outline { made.now.summary.outline ≡ was.entry.now.summary.outline }
    ensures { IsTrue result → SaysWhatItSaid text.now head item was.entry made.now }
{
    takes_place(was.entry, made, head)
        && spares_inside(&lists.links, item, head)
        && found_little(was.check)
}

// The rows that an item changes, if it says to the others what the one before it said, and little
// comes and goes.
fn rows_of_same(
    alloc: Global,
    one: &OneItem,
    was: OldItem,
    made: &Entry,
    head: usize,
) -> Result<Option<TouchedRows>, OutOfMemory>
    requires one { IsOneItemEdit one.now }
    requires outline { made.now.summary.outline ≡ was.entry.now.summary.outline }
    ensures says { IfOk result (λ o. IfSome o (λ r. SaysWhatItSaid (old_of one.now) head (item_of one.now) was.entry made.now)) }
    ensures row { IfOk result (λ o. IfSome o (FitsRows (old_of one.now) (text_of one.now) (item_of one.now) one.now.own.now was.entry made.now)) }
{
    let Editing {
        lists,
        tables,
        edit,
        changes,
        ..
    } = one.editing;
    let item = changes.items.kept_front;
    if !says_what_it_said(lists, edit.old, item, head, was, made) {
        return Ok(None);
    }
    let touched = touched_by(alloc, one, was, made)?;
    if !touches_little(&lists.links, tables, touched) {
        return Ok(None);
    }
    Ok(Some(touched))
}

// What an edit makes of the item in the place of which it makes this one, if it says to the others
// what that one said, the links find what they found, and little comes and goes.
fn plan_of_same(
    alloc: Global,
    one: &OneItem,
    was: OldItem,
    made: &Entry,
    head: usize,
    work: &mut Count,
) -> Result<Option<OwnPlan>, OutOfMemory>
    requires one { IsOneItemEdit one.now }
    requires was { IsWas (old_of one.now) (item_of one.now) was }
    requires made { made.now ≡ entry_by (spelled (text_of one.now) one.now.own.now.is.items) }
    requires alone { AreEntriesIn one.now.editing (made.now ∷ []) }
    requires outline { made.now.summary.outline ≡ was.entry.now.summary.outline }
    requires head { head ≡ head_of one.now }
    ensures inside { IfOk result (λ o. IfSome o (λ p. IsOwnPlan (edit_by one.now) one.now.editing.changes.now p.links p.parts)) }
    ensures ticks { IfOk result (λ o. work.new ≡ after_ticks work.old (checks_made o)) }
{
    let Editing {
        lists,
        edit,
        changes,
        ..
    } = one.editing;
    let item = changes.items.kept_front;
    let Some(touched) = rows_of_same(alloc, one, was, made, head)? else {
        return Ok(None);
    };
    let Some(links) = own_links(alloc, lists, edit.old, item, was, made)? else {
        return Ok(None);
    };
    let parts = parts_of_same(alloc, one, was, made, touched, &links, work)?;
    Ok(Some(OwnPlan { parts, links }))
}

/// What an edit makes of the item in the place of which it makes this one, alone in a list, if it
/// says to the others what that one said, or declares other names that no item uses; if the links
/// find what they found, and little comes and goes.
pub fn own_plan(
    alloc: Global,
    one: &OneItem,
    made: &[Shared<Entry>],
    entry: &Entry,
    work: &mut Count,
) -> Result<Option<OwnPlan>, OutOfMemory>
    requires one { IsOneItemEdit one.now }
    requires made { entry.now ≡ entry_by (spelled (text_of one.now) one.now.own.now.is.items) }
    requires entry { made.now ≡ entry.now ∷ [] }
    requires alone { AreEntriesIn one.now.editing made.now }
    ensures inside { IfOk result (λ o. IfSome o (λ p. IsOwnPlan (edit_by one.now) one.now.editing.changes.now p.links p.parts)) }
    ensures ticks { IfOk result (λ o. work.new ≡ after_ticks work.old (checks_made o)) }
{
    let Editing {
        lists,
        edit,
        changes,
        ..
    } = one.editing;
    let Some(was) = item_that_was(lists, edit.old, changes.items.kept_front) else {
        return Ok(None);
    };
    let head = own_head(&one.editing);
    if same_outline(&entry.summary.outline, &was.entry.summary.outline) {
        return plan_of_same(alloc, one, was, entry, head, work);
    }
    let Some(renamed) = renamed_parts(alloc, one, was, made, entry, head, work)? else {
        return Ok(None);
    };
    let (parts, links) = renamed;
    Ok(Some(OwnPlan { parts, links }))
}

/// The plan of an edit inside one item, by what it makes of that, and what it cost.
pub fn item_plan(editing: &Editing, made: Vec<Shared<Entry>>, plan: OwnPlan, work: Work) -> ItemPlan
    requires editing { IsUnderWay editing.now }
    requires made { AreEntriesIn editing.now made.items }
    requires inside { IsOwnPlan (edit_in editing.now) editing.now.changes.now plan.links plan.parts }
    requires cost { IsCost (edit_in editing.now) work }
    ensures { IsItemPlan (edit_in editing.now) (items_in editing.now) result }
{
    let OwnPlan { parts, links } = plan;
    ItemPlan {
        items: ItemsPlan {
            made,
            kept: LinksAndChecks {
                links,
                checks: parts.checks,
            },
            warns: editing.lists.warns,
        },
        diagnostics: parts.diagnostics,
        shift: parts.shift,
        change: parts.change,
        work,
    }
}
