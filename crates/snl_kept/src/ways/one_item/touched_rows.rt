//! Which rows an edit inside one item changes: the edit under way and what is kept of the item
//! before it and after it come in, the rows go out.
#![tactic(auto)]

ghost use Rattle.std.specs.Prelude.{IfOk};
ghost use Rattle.snl_kept.specs.OneItem.{IsOneItemEdit, item_of, old_of, text_of};
ghost use Rattle.snl_kept.specs.ItemPlan.{FitsRows};

use crate::entries::Entry;
use crate::ways::one_item::alike::{is_same_kind, says_alike};
use crate::ways::one_item::numbers::{is_named_state, set_number};
use crate::ways::one_item::replaced::{OldItem, OneItem};
use crate::ways::one_item::set_findings::few_unreached;
use snl_check::Tables;
use snl_cut::OutOfMemory;
use snl_lex::text_in_pieces;
use snl_scope::Links;
use std::alloc::Global;

/// Which rows an edit inside an item changes, by the number of the item that begins its state set.
#[derive(Clone, Copy)]
pub enum TouchedRows {
    Nothing,
    /// The body of a state that leads where it led and says the same in its conditions.
    Body(usize),
    /// The row of a state, and the marks of the states of its set.
    State(usize),
    /// The marks of the states of a set, of which an item that is no state turned faulty or sound.
    Marks(usize),
}

/// Which rows the item changes: a state with a name its own, and the marks of its set, unless it
/// says what the one before it said; another item of a set the marks alone, if it is of another
/// kind.
pub fn touched_by(
    alloc: Global,
    one: &OneItem,
    was: OldItem,
    made: &Entry,
) -> Result<TouchedRows, OutOfMemory>
    requires one { IsOneItemEdit one.now }
    ensures { IfOk result (FitsRows (old_of one.now) (text_of one.now) (item_of one.now) one.now.own.now was.entry made.now) }
{
    text_in_pieces();
    let editing = one.editing;
    let item = editing.changes.items.kept_front;
    let Some(set) = editing.lists.links.enclosing_set(item) else {
        return Ok(TouchedRows::Nothing);
    };
    if !is_named_state(&was.entry.summary.outline) {
        if is_same_kind(made.summary.kind, was.entry.summary.kind) {
            return Ok(TouchedRows::Nothing);
        }
        return Ok(TouchedRows::Marks(set));
    }
    if says_alike(alloc, editing.edit, one.own, was.entry, was.check, made)? {
        Ok(TouchedRows::Body(set))
    } else {
        Ok(TouchedRows::State(set))
    }
}

/// Whether little was found in the states that get other marks.
pub fn touches_little(links: &Links, tables: &Tables, touched: TouchedRows) -> bool {
    match touched {
        TouchedRows::Nothing | TouchedRows::Body(_) => true,
        TouchedRows::State(set) | TouchedRows::Marks(set) => {
            few_unreached(tables, set_number(links, set))
        }
    }
}
