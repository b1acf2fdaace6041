//! An edit inside one item that declares other names than it did, or is a state with another name,
//! where no item uses one of these names: no row tells of them but that of the state, and the
//! others see what they saw. The edit under way and what is made of the item come in, its plan goes
//! out.
#![tactic(auto)]

ghost use Rattle.std.specs.Prelude.{◌≡◌, [], ◌∷◌, IfOk, IfSome, IsTrue, length};
ghost use Rattle.std.specs.Option.{option_map_or};
ghost use Rattle.snl_cut.specs.Cut.{after_ticks};
ghost use Rattle.snl_lex.specs.PieceList.{spelled};
ghost use Rattle.snl_scope.specs.Linked.{faults_of};
ghost use Rattle.snl_kept.specs.Checks.{links_in};
ghost use Rattle.snl_kept.specs.Editing.{AreEntriesIn};
ghost use Rattle.snl_kept.specs.Entries.{entry_by};
ghost use Rattle.snl_kept.specs.ItemPlan.{AreOwnParts, FitsRows, IsOwnPlan, IsWas};
ghost use Rattle.snl_kept.specs.Kept.{IsListed};
ghost use Rattle.snl_kept.specs.MadeRows.{IsOwnState};
ghost use Rattle.snl_kept.specs.NewLinks.{links_now};
ghost use Rattle.snl_kept.specs.OneItem.{IsOneItemEdit, edit_by, head_of, item_of, old_of, outlines_by, text_of};
ghost use Rattle.snl_kept.specs.OwnRows.{change_told};
ghost use Rattle.snl_kept.specs.Program.{items_of, program_item};
ghost use Rattle.snl_kept.specs.RenamedItem.{as_touched};
ghost use Rattle.snl_kept.specs.ReplacedItem.{SeesAlike, SparesInside, TakesPlace};

use crate::editing::Editing;
use crate::entries::Entry;
use crate::laws::inside_laws::{
    edit_around_a_state, edit_around_an_item, edit_in_a_set, edit_inside_a_state,
    edit_outside_the_sets,
};
use crate::lists::Lists;
use crate::plan::{NewLinks, RowChange};
use crate::shared::Shared;
use crate::ways::one_item::alike::{found_little, spares_inside, takes_place};
use crate::ways::one_item::own_parts::{OwnParts, own_check, own_parts, replaces_inside};
use crate::ways::one_item::own_rows::body_change;
use crate::ways::one_item::renamed_links::links_if_unused;
use crate::ways::one_item::replaced::{OldItem, OneItem};
use crate::ways::one_item::touched_rows::{TouchedRows, touched_by};
use snl_cut::{Count, OutOfMemory};
use snl_grammar::{outcome_told, same_spelling_same_tree};
use snl_item_check::Checked;
use snl_lex::text_in_pieces;
use snl_scope::{renaming_of, same_spelling_same_summary};
use std::alloc::Global;

/// The rows that such an item changes.
#[derive(Clone, Copy)]
pub enum RenamedRows {
    Nothing,
    /// The row of a state of the set that this item begins. It keeps its mark and what wakes it.
    Body(usize),
}

// The rows that an item changes, if they are such.
fn renamed_rows(touched: TouchedRows) -> Option<RenamedRows>
    ensures { IfSome result (λ rows. as_touched rows ≡ touched) }
{
    match touched {
        TouchedRows::Nothing => Some(RenamedRows::Nothing),
        TouchedRows::Body(set) => Some(RenamedRows::Body(set)),
        _ => None,
    }
}

// Whether an item can take the place of one, of which so many tokens are before the edit, and
// little was found at that one.
fn is_replaced(
    lists: &Lists,
    text: &[u8],
    item: usize,
    head: usize,
    was: OldItem,
    made: &Entry,
) -> bool
    requires lists { IsListed text.now lists.now }
    ensures place { IsTrue result → TakesPlace head was.entry.entry.now made.now }
    ensures spared { IsTrue result → SparesInside head item (faults_of (links_in text.now)) }
{
    takes_place(was.entry, made, head)
        && spares_inside(&lists.links, item, head)
        && found_little(was.check)
}

// What a renamed item changes in the rows.
fn renamed_change(
    alloc: Global,
    one: &OneItem,
    made: &Entry,
    rows: RenamedRows,
    check: &Option<Checked>,
) -> Result<RowChange, OutOfMemory>
    requires one { IsOneItemEdit one.now }
    requires made { IsOwnState one.now made.now check.now }
    ensures { IfOk result (λ r. r ≡ change_told (text_of one.now) (items_of (text_of one.now)) (outlines_by one.now) (item_of one.now) (program_item (text_of one.now) one.now.own.now.is.items) (as_touched rows)) }
{
    match rows {
        RenamedRows::Nothing => Ok(RowChange::Nothing),
        RenamedRows::Body(set) => body_change(alloc, one, made, set, check),
    }
}

// What an edit makes of a renamed item, by the rows that it changes and what becomes of the links.
fn parts_of_renamed(
    alloc: Global,
    one: &OneItem,
    was: OldItem,
    made: &Entry,
    rows: RenamedRows,
    links: &NewLinks,
    work: &mut Count,
) -> Result<OwnParts, OutOfMemory>
    requires one { IsOneItemEdit one.now }
    requires was { IsWas (old_of one.now) (item_of one.now) was }
    requires made { made.now ≡ entry_by (spelled (text_of one.now) one.now.own.now.is.items) }
    requires alone { AreEntriesIn one.now.editing (made.now ∷ []) }
    requires place { TakesPlace (head_of one.now) was.entry.now made.now }
    requires spared { SparesInside (head_of one.now) (item_of one.now) (faults_of (links_in (old_of one.now))) }
    requires row { FitsRows (old_of one.now) (text_of one.now) (item_of one.now) one.now.own.now was made.now (as_touched rows) }
    requires seen { SeesAlike (old_of one.now) (text_of one.now) (item_of one.now) }
    requires links { links_now one.now.editing.lists.now.links links.now ≡ links_in (text_of one.now) }
    requires faults { faults_of (links_in (text_of one.now)) ≡ faults_of (links_in (old_of one.now)) }
    ensures inside { IfOk result (AreOwnParts (edit_by one.now) one.now.editing.changes.now) }
    ensures ticks { IfOk result (λ i. work.new ≡ after_ticks work.old (length i.checks.made.items)) }
{
    edit_inside_a_state();
    edit_around_a_state();
    edit_in_a_set();
    edit_around_an_item();
    edit_outside_the_sets();
    text_in_pieces();
    outcome_told();
    same_spelling_same_tree();
    same_spelling_same_summary();
    let lists = one.editing.lists;
    let item = one.editing.changes.items.kept_front;
    replaces_inside(one, was, made);
    let own = &one.own.is;
    let links = links.after(&lists.links);
    let text = one.editing.edit.text;
    let check = own_check(alloc, text, own, made, links, item, work)?;
    let change = renamed_change(alloc, one, made, rows, &check)?;
    let parts = own_parts(alloc, one, was, made, check, change)?;
    Ok(parts)
}

/// What an edit makes of the item in the place of which it makes this one, and of the links, if
/// this one says by other names what that one said, no item uses one of these, and little comes and
/// goes. `head` is how many tokens of the item are before the edit.
pub fn renamed_parts(
    alloc: Global,
    one: &OneItem,
    was: OldItem,
    made: &[Shared<Entry>],
    entry: &Entry,
    head: usize,
    work: &mut Count,
) -> Result<Option<(OwnParts, NewLinks)>, OutOfMemory>
    requires one { IsOneItemEdit one.now }
    requires was { IsWas (old_of one.now) (item_of one.now) was }
    requires made { entry.now ≡ entry_by (spelled (text_of one.now) one.now.own.now.is.items) }
    requires entry { made.now ≡ entry.now ∷ [] }
    requires alone { AreEntriesIn one.now.editing made.now }
    requires head { head ≡ head_of one.now }
    ensures inside { IfOk result (λ o. IfSome o (λ p. IsOwnPlan (edit_by one.now) one.now.editing.changes.now p.1 p.0)) }
    ensures ticks { IfOk result (λ o. work.new ≡ after_ticks work.old (option_map_or (λ p. length p.0.checks.made.items) o 0)) }
{
    let Editing {
        lists,
        edit,
        changes,
        ..
    } = one.editing;
    let item = changes.items.kept_front;
    let Some(renaming) = renaming_of(&was.entry.summary.outline, &entry.summary.outline) else {
        return Ok(None);
    };
    if !is_replaced(lists, edit.old, item, head, was, entry) {
        return Ok(None);
    }
    let touched = touched_by(alloc, one, was, entry)?;
    let Some(rows) = renamed_rows(touched) else {
        return Ok(None);
    };
    let Some(links) = links_if_unused(alloc, one, was, entry, renaming)? else {
        return Ok(None);
    };
    let links = NewLinks::Other(links);
    let parts = parts_of_renamed(alloc, one, was, entry, rows, &links, work)?;
    Ok(Some((parts, links)))
}
