//! An edit that makes one item in the place of one: the edit under way comes in, the item and its
//! tokens go out.
#![tactic(auto)]

ghost use Rattle.std.specs.Prelude.{◌≡◌, ◌+◌, ◌<◌, ◌≤◌, [], ◌∷◌, IfOk, IfSome, IsTrue, length, take};
ghost use Rattle.snl_cut.specs.Cut.{last_end, ticked};
ghost use Rattle.snl_lex.specs.PieceList.{spelled};
ghost use Rattle.snl_kept.specs.OneItem.{IsOneItemEdit, text_of};
ghost use Rattle.snl_kept.specs.Editing.{AreEntriesIn, IsShiftIn, IsUnderWay, MakesOneItem, ShiftsLinesIn, items_in, old_in, text_in};
ghost use Rattle.snl_kept.specs.Entries.{entry_by};
ghost use Rattle.snl_kept.specs.ItemPlan.{AreOwnTokens};

use crate::editing::Editing;
use crate::entries::{Entry, entry_of};
use crate::found::program::items_end_in_order;
use crate::lists::Lists;
use crate::plan::Changes;
use crate::shared::Shared;
use crate::ways::shift::lines_of;
use snl_cut::{Count, OutOfMemory};
use snl_item_check::Checked;
use snl_items::{own_tokens_after, own_tokens_before};
use snl_lex::{LineShift, Piece, Shift, text_in_pieces};
use std::alloc::Global;

/// The tokens of an item before and after an edit.
pub struct OwnTokens {
    pub was: Vec<Piece>,
    pub is: Vec<Piece>,
}

// By hand, so that whoever holds them need not know what is in them to let them go.
impl Drop for OwnTokens {
    fn drop(self) {
        let OwnTokens { was: _, is: _ } = self;
    }
}

/// An edit that makes one item in the place of one: how it shifts lines, and the tokens of the item
/// before the edit and after it. What is known of these is `IsOneItemEdit`.
#[derive(Clone, Copy)]
pub struct OneItem<'a, 't, 'o> {
    pub editing: Editing<'a, 't>,
    pub shift: LineShift,
    pub own: &'o OwnTokens,
}

/// The item that an edit replaces: what is kept of it, and its check, if it is sound.
#[derive(Clone, Copy)]
pub struct OldItem<'a> {
    pub entry: &'a Entry,
    pub check: &'a Option<Checked>,
}

// Whether an edit makes one item in the place of one, which begins where that one did.
fn makes_one(lists: &Lists, changes: &Changes) -> bool
    ensures made { IsTrue result → length changes.now.items.made.items ≡ 1 }
    ensures gone { IsTrue result → changes.now.items.kept_front + 1 + changes.now.items.kept_back ≡ length lists.now.items.ends.items }
    ensures head { IsTrue result → last_end 0 (take changes.now.items.kept_front lists.now.items.ends.items) ≤ changes.now.tokens.edit.start }
{
    let items = &changes.items;
    let item = items.kept_front;
    let count = lists.items.ends.len();
    item < count
        && items.kept_back == count - item - 1
        && items.made.len() == 1
        && lists.items.start_of(item) <= changes.tokens.edit.start
}

/// How an edit shifts lines that makes one item in the place of one, if it leaves the line markers.
pub fn replaces_one(editing: &Editing) -> Option<LineShift>
    requires editing { IsUnderWay editing.now }
    ensures by { IfSome result (λ t. IsShiftIn editing.now t.by) }
    ensures lines { IfSome result (ShiftsLinesIn editing.now) }
    ensures one { IfSome result (λ t. MakesOneItem editing.now) }
{
    if !makes_one(editing.lists, editing.changes) {
        return None;
    }
    lines_of(Shift::of(editing.edit), editing)
}

/// The tokens of the item in the place of which an edit makes one, before and after it.
pub fn own_tokens(alloc: Global, editing: &Editing) -> Result<OwnTokens, OutOfMemory>
    requires editing { IsUnderWay editing.now }
    requires one { MakesOneItem editing.now }
    ensures { IfOk result (AreOwnTokens (old_in editing.now) (text_in editing.now) (items_in editing.now).kept_front) }
{
    items_end_in_order();
    let Editing {
        lists,
        edit,
        changes,
        ..
    } = *editing;
    let item = changes.items.kept_front;
    let first = lists.items.start_of(item);
    let stop = lists.items.start_of(item + 1);
    let was = own_tokens_before(
        alloc,
        &lists.pieces,
        edit,
        &changes.pieces,
        &changes.tokens,
        first,
        stop,
    )?;
    let is = own_tokens_after(
        alloc,
        edit,
        &changes.pieces,
        &changes.tokens,
        &was,
        first,
        stop,
    )?;
    Ok(OwnTokens { was, is })
}

// An entry alone in a list.
fn alone(alloc: Global, entry: Entry) -> Result<Vec<Shared<Entry>>, OutOfMemory>
    ensures { IfOk result (λ v. v.items ≡ entry ∷ []) }
{
    let mut entries = Vec::new(alloc);
    entries.push(Shared::new(alloc, entry)?)?;
    Ok(entries)
}

/// What is kept of the item that an edit makes, alone in a list. It is parsed once.
pub fn made_alone(
    alloc: Global,
    one: &OneItem,
    work: &mut Count,
) -> Result<Vec<Shared<Entry>>, OutOfMemory>
    requires one { IsOneItemEdit one.now }
    ensures one { IfOk result (λ es. es.items ≡ entry_by (spelled (text_of one.now) one.now.own.now.is.items) ∷ []) }
    ensures made { IfOk result (λ es. AreEntriesIn one.now.editing es.items) }
    ensures ticks { IfOk result (λ es. work.new ≡ ticked work.old) }
{
    items_end_in_order();
    text_in_pieces();
    let entry = entry_of(alloc, one.editing.edit.text, &one.own.is, work)?;
    let made = alone(alloc, entry)?;
    Ok(made)
}
