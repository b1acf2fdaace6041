//! What an edit makes of one item that takes the place of one, where the others see what they saw:
//! the edit under way, the check of the item and what changes in the rows come in, all that is made
//! of it goes out.
#![tactic(auto)]

ghost use Rattle.std.specs.Prelude.{◌≡◌, [], ◌∷◌, All, IfOk, length};
ghost use Rattle.snl_cut.specs.Cut.{after_ticks};
ghost use Rattle.snl_lex.specs.PieceList.{spelled};
ghost use Rattle.snl_lex.specs.Pieces.{LiesIn};
ghost use Rattle.snl_kept.specs.Checks.{check_by};
ghost use Rattle.snl_kept.specs.Editing.{AreEntriesIn};
ghost use Rattle.snl_kept.specs.Entries.{entry_by};
ghost use Rattle.snl_kept.specs.ItemPlan.{AreOwnParts, IsAfterInside, IsWas};
ghost use Rattle.snl_kept.specs.NewChecks.{made_at, nones};
ghost use Rattle.snl_kept.specs.OneItem.{IsOneItemEdit, edit_by, head_of, item_of, old_of, text_of};
ghost use Rattle.snl_kept.specs.ReplacedItem.{IsInside, IsOneReplaced, SeesAlike, TakesPlace, own_check};

use crate::entries::Entry;
use crate::found::findings::Diagnostic;
use crate::found::program::items_end_in_order;
use crate::kept_checks::{add_made, clean_check, vacant_for};
use crate::laws::item_laws::one_item_replaced;
use crate::plan::{Changes, NewChecks, RowChange};
use crate::ways::one_item::own_diagnostics::own_diagnostics;
use crate::ways::one_item::replaced::{OldItem, OneItem};
use snl_cut::{Count, OutOfMemory};
use snl_item_check::{Checked, check_item};
use snl_lex::{LineShift, Piece, text_in_pieces};
use snl_scope::{Links, same_spelling_same_summary};
use std::alloc::Global;

/// What an edit makes of an item, besides what is kept of it and the links: a place for its check
/// and the check, if it is sound, the diagnostics of the new text, how the rows are shifted, and
/// what changes in them.
#[derive(Drop)]
pub struct OwnParts {
    pub checks: NewChecks,
    pub diagnostics: Vec<Diagnostic>,
    pub shift: LineShift,
    pub change: RowChange,
}

/// The check of the item that is made, if it is sound. It is one tick then.
pub fn own_check(
    alloc: Global,
    text: &[u8],
    own: &[Piece],
    entry: &Entry,
    links: &Links,
    item: usize,
    work: &mut Count,
) -> Result<Option<Checked>, OutOfMemory>
    requires within { All (LiesIn text.now) own.now }
    requires entry { entry.now ≡ entry_by (spelled text.now own.now) }
    ensures check { IfOk result (λ c. c ≡ check_by links.now.outlines item (spelled text.now own.now)) }
    ensures ticks { IfOk result (λ c. work.new ≡ after_ticks work.old (length (made_at item c))) }
{
    same_spelling_same_summary();
    match entry.parsed.tree() {
        Some(tree) => {
            let checked = check_item(alloc, text, own, tree, links, item, work)?;
            Ok(Some(checked))
        }
        None => Ok(None),
    }
}

// The check of the item with this number as it is kept.
fn own_checks(
    alloc: Global,
    changes: &Changes,
    item: usize,
    check: Option<Checked>,
) -> Result<NewChecks, OutOfMemory>
    ensures vacant { IfOk result (λ c. c.vacant.items ≡ nones changes.now.items.made.items) }
    ensures made { IfOk result (λ c. c.made.items ≡ made_at item check) }
{
    let vacant = vacant_for(alloc, &changes.items.made)?;
    let clean = clean_check(alloc)?;
    let mut made = Vec::new(alloc);
    add_made(alloc, item, check, &clean, &mut made)?;
    Ok(NewChecks { vacant, made })
}

/// The edit is inside the item. This does nothing: its contract is the law of such an edit.
pub fn replaces_inside(one: &OneItem, was: OldItem, made: &Entry)
    requires one { IsOneItemEdit one.now }
    requires was { IsWas (old_of one.now) (item_of one.now) was }
    requires alone { AreEntriesIn one.now.editing (made.now ∷ []) }
    requires place { TakesPlace (head_of one.now) was.entry.now made.now }
    requires seen { SeesAlike (old_of one.now) (text_of one.now) (item_of one.now) }
    ensures inside { IsInside (edit_by one.now) one.now.editing.changes.now one.now.shift was.entry.entry.now made.now }
    ensures replaced { IsOneReplaced (edit_by one.now) one.now.editing.changes.now one.now.shift was.entry.entry.now made.now }
{
    one_item_replaced();
}

/// What an edit makes of an item, by its check and by what changes in the rows.
pub fn own_parts(
    alloc: Global,
    one: &OneItem,
    was: OldItem,
    made: &Entry,
    check: Option<Checked>,
    change: RowChange,
) -> Result<OwnParts, OutOfMemory>
    requires one { IsOneItemEdit one.now }
    requires was { IsWas (old_of one.now) (item_of one.now) was }
    requires made { made.now ≡ entry_by (spelled (text_of one.now) one.now.own.now.is.items) }
    requires check { check ≡ own_check (text_of one.now) (item_of one.now) }
    requires replaced { IsOneReplaced (edit_by one.now) one.now.editing.changes.now one.now.shift was.entry.now made.now }
    requires after { IsAfterInside (old_of one.now) (text_of one.now) one.now.shift (item_of one.now) change }
    ensures { IfOk result (AreOwnParts (edit_by one.now) one.now.editing.changes.now) }
{
    text_in_pieces();
    items_end_in_order();
    let changes = one.editing.changes;
    let diagnostics = own_diagnostics(alloc, one, was, made, &check, &change)?;
    let checks = own_checks(alloc, changes, changes.items.kept_front, check)?;
    Ok(OwnParts {
        checks,
        diagnostics,
        shift: one.shift,
        change,
    })
}
