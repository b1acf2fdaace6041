//! How an edit before line markers shifts lines.
//! In: an edit of a text, and the lines of both texts. Out: whether the markers stay, and the new
//! line of what the edit leaves.

ghost use Rattle.snl_lex.specs.LineList.{IsLineList};
ghost use Rattle.snl_lex.specs.LineShift.{CountsAfter, IsLineShift, NumbersFrom, moved_line, shifted_file, shifted_marker};
ghost use Rattle.snl_lex.specs.Lines.{line_at, lines_between};
ghost use Rattle.snl_lex.specs.declared.line_shift.LineShift.{LineShift};
ghost use Rattle.snl_lex.specs.Shift.{IsOutside, shifted_offset};
ghost use Rattle.std.specs.List.Sorted.{IsNonDecreasingBy};
ghost use Rattle.std.specs.Prelude.{◌≡◌, ◌^◌, ◌<◌, ◌≤◌, ℕ, All, IfSome, IsTrue, List, length, option_map, slice_get};

use crate::edit::TextEdit;
use crate::line_list::LineList;
use crate::lines::Line;
use crate::marker_list::{Marker, markers_before};
use crate::shift::Shift;

/// An edit of a text, and where the first line begins after it that a line marker numbers: lines
/// before that one are shifted. It is greater than the text's length where there is no such line.
#[derive(Clone, Copy, Debug, PartialEq, Eq)]
pub struct LineShift {
    pub by: Shift,
    pub until: usize,
}

fn shifted_file(shift: Shift, file: Option<(usize, usize)>) -> Option<(usize, usize)>
    ensures { result ≡ shifted_file shift file }
{
    match file {
        Some((start, len)) => Some((shift.offset(start), len)),
        None => None,
    }
}

fn shifted_marker(shift: Shift, marker: Marker) -> Marker
    ensures { result ≡ shifted_marker shift marker }
{
    Marker {
        end: shift.offset(marker.end),
        number: marker.number,
        file: shifted_file(shift, marker.file),
    }
}

// Whether a marker of the new text is that of the old one, shifted, or both are none.
fn is_shifted(shift: Shift, old: Option<Marker>, new: Option<Marker>) -> bool
    ensures { IsTrue result → new ≡ option_map (shifted_marker shift) old }
{
    match (old, new) {
        (Some(old), Some(new)) => new == shifted_marker(shift, old),
        (None, None) => true,
        _ => false,
    }
}

// Whether a marker ends at a line's end before a place.
#[tactic(auto, using(crate::proofs::CountedLines::line_here))]
fn counts_after(text: &[u8], place: usize, marker: Marker) -> bool
    requires { place ≤ length text.now }
    ensures { IsTrue result → CountsAfter text.now place marker }
{
    if marker.end < place {
        text[marker.end] == b'\n'
    } else {
        false
    }
}

// Whether all of these markers do. They rise, so the last one tells.
#[tactic(auto, using(crate::proofs::KeptMarkers::all_after))]
fn count_after(text: &[u8], place: usize, markers: &[Marker]) -> bool
    requires place { place ≤ length text.now }
    requires rising { IsNonDecreasingBy (λ (m : Marker). m.end) markers.now }
    ensures { IsTrue result → All (CountsAfter text.now place) markers.now }
{
    match markers.last() {
        Some(last) => counts_after(text, place, *last),
        None => true,
    }
}

fn marker_at(markers: &[Marker], number: usize) -> Option<Marker>
    ensures { result ≡ slice_get markers.now number }
{
    markers.get(number).copied()
}

// Where the line begins that a marker numbers, or that no line does where there is none.
fn numbered_from(old: &[u8], marker: Option<Marker>) -> Option<usize>
    requires { length old.now < 2 ^ 32 }
    ensures { IfSome result (λ place. NumbersFrom old.now place marker) }
{
    let Some(marker) = marker else {
        return Some(old.len() + 1);
    };
    if marker.end > old.len() || (marker.end < old.len() && old[marker.end] != b'\n') {
        return None;
    }
    Some(marker.end + 1)
}

impl LineShift {
    /// Of an edit that is this shift, by the lines of both texts, if it is not at the beginning of
    /// the text and leaves the line markers as they are, at their places or shifted. It looks at
    /// few of them.
    pub fn along(
        by: Shift,
        edit: &TextEdit,
        before: &LineList,
        after: &LineList,
    ) -> Option<LineShift>
        requires start { by.start ≡ edit.now.start }
        requires old_stop { by.old_stop ≡ edit.now.old_stop }
        requires new_stop { by.new_stop ≡ edit.now.new_stop }
        requires old_lines { by.old_lines ≡ lines_between edit.now.old.now edit.now.start edit.now.old_stop }
        requires new_lines { by.new_lines ≡ lines_between edit.now.text.now edit.now.start edit.now.new_stop }
        requires before { IsLineList edit.now.old.now before.now }
        requires after { IsLineList edit.now.text.now after.now }
        ensures by { IfSome result (λ t. t.by ≡ by) }
        ensures shift { IfSome result (IsLineShift edit.now.old.now edit.now.text.now) }
    {
        if by.start == 0 {
            return None;
        }
        let (markers, new_markers) = (before.markers.as_slice(), after.markers.as_slice());
        let early = markers_before(markers, by.start);
        let next = marker_at(markers, early);
        let until = numbered_from(edit.old, next)?;
        // From the end of a marker that both texts have on, they are cut alike: so the next one
        // tells of all after it.
        if by.old_stop < until
            && count_after(edit.old, by.start, &markers[..early])
            && is_shifted(by, next, marker_at(new_markers, early))
        {
            Some(LineShift { by, until })
        } else {
            None
        }
    }

    /// Where an offset is after the edit.
    pub fn offset(self, offset: usize) -> usize
        ensures { result ≡ shifted_offset self.by offset }
    {
        self.by.offset(offset)
    }

    /// The line of an offset after the edit, by the offset and its line before it.
    pub fn line(self, offset: usize, line: Line) -> Line
        ensures { result ≡ moved_line self offset line }
    {
        let number = if offset < self.by.start || self.until <= offset {
            line.number
        } else {
            line.number
                .saturating_add(self.by.new_lines)
                .saturating_sub(self.by.old_lines)
        };
        Line {
            number,
            file: shifted_file(self.by, line.file),
        }
    }
}

/// Where an edit leaves the line markers, the lines before the next marker are shifted by the line
/// ends that it takes out and puts in, and the others keep their numbers.
pub fn lines_move()
    ensures { (old text : List ℕ) (t : LineShift) (offset : ℕ) → IsLineShift old text t → IsOutside old t.by offset
        → line_at text (shifted_offset t.by offset) ≡ moved_line t offset (line_at old offset) }
{}
