//! Edits that shift all that a text says: the tokens are where they were or shifted, and so is what
//! is found, with its lines. The edit under way comes in, whether it is such an edit goes out.
#![tactic(auto)]

ghost use Rattle.std.specs.Prelude.{◌≡◌, ◌<◌, ◌≤◌, All, IfSome, IsTrue, drop, map, nat_eq, take};
ghost use Rattle.std.specs.List.{list_any};
ghost use Rattle.snl_lex.specs.Pieces.{tokens_of};
ghost use Rattle.snl_lex.specs.Shift.{IsOutside};
ghost use Rattle.snl_kept.specs.Editing.{IsShiftIn, IsUnderWay, ShiftsLinesIn, edit_in};
ghost use Rattle.snl_kept.specs.Kept.{IsListed};
ghost use Rattle.snl_kept.specs.Shifted.{AreOnOneSide, PartsNoItem, ShiftsAll, shifted_diagnostic};

use crate::editing::Editing;
use crate::found::findings::Diagnostic;
use crate::lists::Lists;
use snl_cut::ends_in_order;
use snl_grammar::Tokens;
use snl_items::tokens_in_front;
use snl_lex::{Line, LineShift, Shift, text_in_pieces};

// Whether no item has its first token alone among so many.
fn parts_no_item(before: usize, ends: &[u32]) -> bool
    ensures { IsTrue result → PartsNoItem before ends.now }
{
    before != 1 && ends.iter().all(|end| before != *end as usize + 1)
}

// Whether an edit leaves an offset of the old text.
fn leaves(shift: Shift, old: &[u8], offset: usize) -> bool
    ensures { IsTrue result → IsOutside old.now shift offset }
{
    offset < shift.start || (shift.old_stop <= offset && offset <= old.len())
}

// Whether it leaves where all diagnostics are.
fn leaves_all(shift: Shift, old: &[u8], found: &[Diagnostic]) -> bool
    ensures { IsTrue result → All (λ d. IsOutside old.now shift d.offset) found.now }
{
    found.iter().all(|d| leaves(shift, old, d.offset))
}

// Whether an item ends after so many tokens.
fn is_end(before: usize, ends: &[u32]) -> bool
    ensures { result ≡ list_any (λ e. nat_eq e before) ends.now }
{
    ends.iter().any(|end| *end as usize == before)
}

// Whether no item has its first token alone before a place, before which so many tokens begin.
fn parts_none(lists: &Lists, text: &[u8], place: usize, before: usize) -> bool
    requires lists { IsListed text.now lists.now }
    requires front { All (λ p. p.start < place) (take before (tokens_of text.now)) }
    requires back { All (λ p. place ≤ p.start) (drop before (tokens_of text.now)) }
    ensures { IsTrue result → AreOnOneSide place text.now }
{
    ends_in_order::<Tokens>();
    parts_no_item(before, &lists.items.ends) || is_end(before, &lists.items.ends)
}

// Whether the line that begins at a place, where a line marker numbers it, is not between the two
// first tokens of an item. A place after the text is none.
fn numbers_whole_items(lists: &Lists, text: &[u8], place: usize) -> bool
    requires lists { IsListed text.now lists.now }
    requires some { 0 < place }
    ensures { IsTrue result → AreOnOneSide place text.now }
{
    text_in_pieces();
    if place > text.len() {
        return true;
    }
    let before = tokens_in_front(&lists.pieces, place);
    parts_none(lists, text, place, before)
}

/// How an edit that is this shift shifts lines, if it leaves the line markers, and the line that
/// the next one numbers is not between the two first tokens of an item.
pub fn lines_of(by: Shift, editing: &Editing) -> Option<LineShift>
    requires editing { IsUnderWay editing.now }
    requires by { IsShiftIn editing.now by }
    ensures by { IfSome result (λ t. t.by ≡ by) }
    ensures lines { IfSome result (ShiftsLinesIn editing.now) }
{
    let lists = editing.lists;
    let edit = editing.edit;
    let shift = LineShift::along(by, edit, &lists.lines, editing.lines)?;
    if numbers_whole_items(lists, edit.old, shift.until) {
        Some(shift)
    } else {
        None
    }
}

/// An edit as a shift, if it shifts all that the text says.
pub fn shift_of(editing: &Editing) -> Option<LineShift>
    requires editing { IsUnderWay editing.now }
    ensures { IfSome result (ShiftsAll (edit_in editing.now)) }
{
    text_in_pieces();
    let shifted = editing.changes.tokens.shifted?;
    let by = shifted.by;
    // An edit at the front shifts no lines, which is told before items and diagnostics are gone
    // through.
    if by.start == 0 {
        return None;
    }
    let old = editing.edit.old;
    let found = editing.found;
    if parts_none(editing.lists, old, by.start, shifted.before) && leaves_all(by, old, found) {
        lines_of(by, editing)
    } else {
        None
    }
}

// A diagnostic after the edit.
fn shifted_diagnostic(shift: LineShift, diagnostic: Diagnostic) -> Diagnostic
    ensures { result ≡ shifted_diagnostic shift diagnostic }
{
    let line = Line {
        number: diagnostic.line,
        file: diagnostic.file,
    };
    let line = shift.line(diagnostic.offset, line);
    Diagnostic {
        offset: shift.offset(diagnostic.offset),
        line: line.number,
        file: line.file,
        ..diagnostic
    }
}

/// Shifts diagnostics.
pub fn shift_diagnostics(found: &mut [Diagnostic], shift: LineShift)
    ensures { found.new ≡ map (shifted_diagnostic shift) found.old }
{
    for diagnostic in found.iter_mut() {
        *diagnostic = shifted_diagnostic(shift, *diagnostic);
    }
}
