//! What an edit inside one item changes in the rows: what is kept of the items and of the one that
//! is made comes in, the change goes out.
#![tactic(auto)]

ghost use Rattle.std.specs.Prelude.{◌≡◌, All, IfOk, slice_get};
ghost use Rattle.snl_lex.specs.LineList.{IsLineList};
ghost use Rattle.snl_lex.specs.Lines.{line_at};
ghost use Rattle.snl_lex.specs.PieceList.{spelled};
ghost use Rattle.snl_lex.specs.Pieces.{LiesIn};
ghost use Rattle.snl_check.specs.ItemSpans.{span_of};
ghost use Rattle.snl_check.specs.States.{marks_of, state_body, wake_of};
ghost use Rattle.snl_item_check.specs.Told.{told_kept};
ghost use Rattle.snl_kept.specs.OneItem.{IsOneItemEdit, item_of, outlines_by, text_of};
ghost use Rattle.snl_kept.specs.declared.ways.one_item.touched_rows.TouchedRows.TheVariants as rows;
ghost use Rattle.snl_kept.specs.Checks.{check_by, outlines_in};
ghost use Rattle.snl_kept.specs.Entries.{entry_by};
ghost use Rattle.snl_kept.specs.MadeRows.{AreItemsAfter, IsInPlace, IsOwnMade, IsOwnState};
ghost use Rattle.snl_kept.specs.OwnFindings.{IsOwnCheck};
ghost use Rattle.snl_kept.specs.OwnRows.{change_told};
ghost use Rattle.snl_kept.specs.Program.{items_of, program_item};
ghost use Rattle.snl_kept.specs.Tables.{tables_in};

use crate::editing::Editing;
use crate::entries::Entry;
use crate::lists::Lists;
use crate::plan::RowChange;
use crate::ways::one_item::numbers::{row_of, set_number};
use crate::ways::one_item::replaced::OneItem;
use crate::ways::one_item::set_members::set_members;
use crate::ways::one_item::touched_rows::TouchedRows;
use snl_check::{
    StateBody, StateMark, Tables, TargetUse, WakeUp, WakeUse, state_body, state_marks,
};
use snl_cut::OutOfMemory;
use snl_grammar::{outcome_told, same_spelling_same_tree};
use snl_item_check::Checked;
use snl_lex::{Line, LineList, Piece, TextEdit};
use snl_moved::wake_inside;
use snl_scope::{Links, Source, same_spelling_same_summary};
use sqlite_items::Items;
use std::alloc::Global;

// The names of the states that an item leads to, as its check told them.
fn target_uses(check: &Option<Checked>) -> &[TargetUse]
    ensures { result.now ≡ (told_kept check.now).target_uses }
{
    match check {
        Some(checked) => checked.target_uses.as_slice(),
        None => &[],
    }
}

// The line of the first of these tokens.
fn line_of(source: &Source, lines: &LineList) -> Line
    requires { IsLineList source.now.text.now lines.now }
    ensures { result ≡ line_at source.now.text.now (span_of (slice_get source.now.tokens.now 0)).start }
{
    let start = match source.tokens.get(0) {
        Some(token) => token.start,
        None => 0,
    };
    lines.line_by(source.text, start)
}

// The body of the row of the state that is made, by what its check told.
fn own_body(
    source: &Source,
    lines: &LineList,
    entry: &Entry,
    links: &Links,
    item: usize,
    check: &Option<Checked>,
) -> Result<StateBody, OutOfMemory>
    requires within { All (LiesIn source.now.text.now) source.now.tokens.now }
    requires lines { IsLineList source.now.text.now lines.now }
    requires entry { entry.now ≡ entry_by (spelled source.now.text.now source.now.tokens.now) }
    requires check { IsOwnCheck source.now.text.now source.now.tokens.now check.now }
    ensures { IfOk result (λ b. b ≡ state_body source.now.text.now links.now.outlines item (program_item source.now.text.now source.now.tokens.now)) }
{
    outcome_told();
    same_spelling_same_tree();
    same_spelling_same_summary();
    let tree = entry.parsed.tree();
    let targets = target_uses(check);
    let line = line_of(source, lines);
    state_body(source, tree, links, item, targets, line)
}

/// What an edit changes in the rows that makes this state of a set, where its row keeps its mark
/// and what wakes it.
pub fn body_change(
    alloc: Global,
    one: &OneItem,
    entry: &Entry,
    set: usize,
    check: &Option<Checked>,
) -> Result<RowChange, OutOfMemory>
    requires one { IsOneItemEdit one.now }
    requires made { IsOwnState one.now entry.now check.now }
    ensures { IfOk result (λ r. r ≡ change_told (text_of one.now) (items_of (text_of one.now)) (outlines_by one.now) (item_of one.now) (program_item (text_of one.now) one.now.own.now.is.items) (rows.Body set)) }
{
    let Editing {
        lists,
        edit,
        changes,
        lines,
        ..
    } = one.editing;
    let item = changes.items.kept_front;
    let source = Source {
        text: edit.text,
        tokens: one.own.is.as_slice(),
        alloc,
    };
    let body = own_body(&source, lines, entry, &lists.links, item, check)?;
    let place = row_of(&lists.links, set, item);
    Ok(RowChange::Body { place, body })
}

// The uses of names in the conditions of an item, as its check told them.
fn wake_uses(check: &Option<Checked>) -> &[WakeUse]
    ensures { result.now ≡ (told_kept check.now).wake_uses }
{
    match check {
        Some(checked) => checked.wake_uses.as_slice(),
        None => &[],
    }
}

// What wakes the state that is made, by what its check told and by the rows before the edit.
fn own_wake(
    alloc: Global,
    tables: &Tables,
    edit: &TextEdit,
    own: &[Piece],
    links: &Links,
    item: usize,
    check: &Option<Checked>,
) -> Result<Items<WakeUp>, OutOfMemory>
    requires within { All (LiesIn edit.now.text.now) own.now }
    requires tables { tables.now ≡ tables_in edit.now.old.now }
    requires outlines { links.now.outlines ≡ outlines_in edit.now.old.now }
    requires place { IsInPlace edit.now.old.now edit.now.text.now item own.now }
    requires check { check.now ≡ check_by links.now.outlines item (spelled edit.now.text.now own.now) }
    ensures { IfOk result (λ w. w ≡ wake_of edit.now.text.now (items_of edit.now.text.now) links.now.outlines item) }
{
    outcome_told();
    same_spelling_same_tree();
    same_spelling_same_summary();
    let uses = wake_uses(check);
    let wake = wake_inside(alloc, edit.text, own, links, item, uses, tables)?;
    Ok(Items::from_vec(wake))
}

// What is known of each state of a set after the edit that makes this item.
fn own_marks(
    alloc: Global,
    lists: &Lists,
    edit: &TextEdit,
    set: usize,
    item: usize,
    entry: &Entry,
) -> Result<Items<StateMark>, OutOfMemory>
    requires { AreItemsAfter edit.now.old.now edit.now.text.now lists.now item entry.now }
    ensures { IfOk result (λ m. m ≡ marks_of edit.now.text.now (items_of edit.now.text.now) lists.now.links.outlines set) }
{
    let (links, entries) = (&lists.links, &lists.entries);
    let members = set_members(alloc, edit.text, links, entries, set, item, entry)?;
    let marks = state_marks(alloc, links, set, &members)?;
    Ok(Items::from_vec(marks))
}

// What an edit changes in the rows that makes this state of a set: its own row, and the marks of
// the set.
fn state_change(
    alloc: Global,
    one: &OneItem,
    entry: &Entry,
    set: usize,
    check: &Option<Checked>,
) -> Result<RowChange, OutOfMemory>
    requires one { IsOneItemEdit one.now }
    requires made { IsOwnMade one.now entry.now check.now }
    ensures { IfOk result (λ r. r ≡ change_told (text_of one.now) (items_of (text_of one.now)) (outlines_by one.now) (item_of one.now) (program_item (text_of one.now) one.now.own.now.is.items) (rows.State set)) }
{
    let Editing {
        lists,
        tables,
        edit,
        changes,
        lines,
        ..
    } = one.editing;
    let item = changes.items.kept_front;
    let links = &lists.links;
    let own = one.own.is.as_slice();
    let source = Source {
        text: edit.text,
        tokens: own,
        alloc,
    };
    let body = own_body(&source, lines, entry, links, item, check)?;
    let wake = own_wake(alloc, tables, edit, own, links, item, check)?;
    let marks = own_marks(alloc, lists, edit, set, item, entry)?;
    let place = row_of(links, set, item);
    Ok(RowChange::State {
        place,
        body,
        wake,
        marks,
    })
}

/// What an edit changes in the rows that makes this item.
pub fn own_change(
    alloc: Global,
    one: &OneItem,
    entry: &Entry,
    touched: TouchedRows,
    check: &Option<Checked>,
) -> Result<RowChange, OutOfMemory>
    requires one { IsOneItemEdit one.now }
    requires made { IsOwnMade one.now entry.now check.now }
    ensures { IfOk result (λ r. r ≡ change_told (text_of one.now) (items_of (text_of one.now)) (outlines_by one.now) (item_of one.now) (program_item (text_of one.now) one.now.own.now.is.items) touched) }
{
    let Editing {
        lists,
        edit,
        changes,
        ..
    } = one.editing;
    let item = changes.items.kept_front;
    let links = &lists.links;
    match touched {
        TouchedRows::Nothing => Ok(RowChange::Nothing),
        TouchedRows::Body(set) => body_change(alloc, one, entry, set, check),
        TouchedRows::State(set) => state_change(alloc, one, entry, set, check),
        TouchedRows::Marks(set) => {
            let marks = own_marks(alloc, lists, edit, set, item, entry)?;
            let set = set_number(links, set);
            Ok(RowChange::Marks { set, marks })
        }
    }
}
