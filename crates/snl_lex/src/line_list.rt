//! The lines of a text as lists, which an edit changes in place: its line ends, and the markers
//! that set a line.
//! In: a text and its pieces; after an edit both texts. Out: the lists, and by them the line of an
//! offset.

ghost use Rattle.snl_lex.specs.Edit.{IsChange, edit_of, made_pieces};
ghost use Rattle.snl_lex.specs.LineList.{IsLineList, IsLinePart, last_before, line_begin, line_ends, line_ends_in, number_after};
ghost use Rattle.snl_lex.specs.Lines.{line_at};
ghost use Rattle.snl_lex.specs.Pieces.{pieces_of};
ghost use Rattle.snl_lists.specs.Moves.{moved, replaced_and_moved};
ghost use Rattle.std.specs.List.Sorted.{IsNonDecreasing};
ghost use Rattle.std.specs.Prelude.{◌≡◌, ℕ, ◌+◌, ◌-◌, ◌^◌, ◌<◌, ◌≤◌, ◌++◌, IfOk, OnOk, None, Some, count_by, drop, length, take, nat_lt, slice_index, vec_capacity, vec_len};

use crate::edit::TextEdit;
use crate::lines::Line;
use crate::marker_list::{Marker, last_before, list_made, list_marker, replace_markers};
use crate::piece::Piece;
use crate::piece_list::PieceChange;
use memchr::memchr_iter;
use snl_cut::OutOfMemory;
use snl_lists::replace;
use std::alloc::Global;

/// The offsets of the line ends of a text or of a part of it, the line markers among its pieces
/// that set a line, and those of them that name a file.
#[derive(Drop)]
pub struct LineList {
    pub ends: Vec<usize>,
    pub markers: Vec<Marker>,
    pub naming: Vec<Marker>,
}

// How many places are before a place.
fn places_before(places: &[usize], place: usize) -> usize
    requires { IsNonDecreasing places.now }
    ensures count { result ≡ count_by (λ e. nat_lt e place) places.now }
    ensures inside { result ≤ length places.now }
{
    places.partition_point(|end| *end < place)
}

// Where the line begins before which so many lines end.
fn line_begin(ends: &[usize], count: usize) -> usize
    requires count { count ≤ length ends.now }
    requires below { (i : ℕ) → i < length ends.now → slice_index ends.now i + 1 < 2 ^ 64 }
    ensures { result ≡ line_begin ends.now count }
{
    if count == 0 { 0 } else { ends[count - 1] + 1 }
}

// The number of an offset's line by the last marker that counts, and so many line ends before it.
fn number_after(ends: &[usize], count: usize, last: Option<Marker>) -> usize
    requires order { IsNonDecreasing ends.now }
    requires count { count ≤ length ends.now }
    ensures { result ≡ number_after ends.now count last }
{
    match last {
        Some(marker) => {
            let lines = count.saturating_sub(places_before(ends, marker.end));
            (marker.number as usize + lines).saturating_sub(1)
        }
        None => 1 + count,
    }
}

// The line ends from one offset up to another.
fn line_ends_in(
    alloc: Global,
    text: &[u8],
    from: usize,
    to: usize,
) -> Result<Vec<usize>, OutOfMemory>
    requires order { from ≤ to }
    requires inside { to ≤ length text.now }
    ensures { IfOk result (λ ends. ends.items ≡ line_ends_in text.now from to) }
{
    let mut ends = Vec::new(alloc);
    for place in memchr_iter(b'\n', &text[from..to]) {
        ends.push(from + place)?;
    }
    Ok(ends)
}

// Moves places, as the bytes from `old_stop` on are moved to `new_stop`.
fn move_places(places: &mut [usize], old_stop: usize, new_stop: usize)
    requires after { (i : ℕ) → i < length places.old → old_stop ≤ slice_index places.old i }
    requires fits { (i : ℕ) → i < length places.old → (slice_index places.old i - old_stop) + new_stop < 2 ^ 32 }
    ensures { places.new ≡ moved old_stop new_stop places.old }
{
    for place in places {
        *place = *place - old_stop + new_stop;
    }
}

// Moves the places from one number on.
fn move_places_from(places: &mut Vec<usize>, from: usize, old_stop: usize, new_stop: usize)
    requires from { from ≤ vec_len places.old }
    requires after { (i : ℕ) → i < length (drop from places.old.items) → old_stop ≤ slice_index (drop from places.old.items) i }
    requires fits { (i : ℕ) → i < length (drop from places.old.items) → (slice_index (drop from places.old.items) i - old_stop) + new_stop < 2 ^ 32 }
    ensures { places.new.items ≡ take from places.old.items ++ moved old_stop new_stop (drop from places.old.items) }
{
    move_places(&mut places[from..], old_stop, new_stop);
}

// Puts other places in the place of those from `start` up to `stop`, and moves those after them.
// There is room for them.
fn replace_places(
    places: &mut Vec<usize>,
    start: usize,
    stop: usize,
    made: &[usize],
    old_stop: usize,
    new_stop: usize,
)
    requires range { start ≤ stop }
    requires within { stop ≤ vec_len places.old }
    requires room { vec_len places.old + length made.now ≤ vec_capacity places.old }
    requires after { (i : ℕ) → i < length (drop stop places.old.items) → old_stop ≤ slice_index (drop stop places.old.items) i }
    requires fits { (i : ℕ) → i < length (drop stop places.old.items) → (slice_index (drop stop places.old.items) i - old_stop) + new_stop < 2 ^ 32 }
    ensures { places.new.items ≡ replaced_and_moved places.old.items start stop made.now old_stop new_stop }
{
    replace(places, start, stop, made);
    move_places_from(places, start + made.len(), old_stop, new_stop);
}

// Makes the old text's line ends those of the new one. There is room for them.
fn replace_ends(ends: &mut Vec<usize>, edit: &TextEdit, made: &[usize])
    requires ends { ends.old.items ≡ line_ends edit.now.old.now }
    requires made { made.now ≡ line_ends_in edit.now.text.now edit.now.start edit.now.new_stop }
    requires room { vec_len ends.old + length made.now ≤ vec_capacity ends.old }
    ensures { ends.new.items ≡ line_ends edit.now.text.now }
{
    let front = places_before(ends, edit.start);
    let back = places_before(ends, edit.old_stop);
    let (old_stop, new_stop) = (edit.old_stop, edit.new_stop);
    replace_places(ends, front, back, made, old_stop, new_stop);
}

impl LineList {
    /// The lines of a text.
    pub fn of(alloc: Global, text: &[u8], pieces: &[Piece]) -> Result<LineList, OutOfMemory>
        requires pieces { pieces.now ≡ pieces_of text.now }
        ensures { IfOk result (λ l. IsLineList text.now l) }
    {
        let ends = line_ends_in(alloc, text, 0, text.len())?;
        let mut markers = Vec::new(alloc);
        let mut naming = Vec::new(alloc);
        for piece in pieces {
            if piece.kind.is_marker() {
                list_marker(text, *piece, &mut markers, &mut naming)?;
            }
        }
        Ok(LineList {
            ends,
            markers,
            naming,
        })
    }

    /// What an edit makes of the lines: the line ends among the new bytes, and the markers among
    /// the made pieces.
    pub fn made(
        alloc: Global,
        edit: &TextEdit,
        change: &PieceChange,
    ) -> Result<LineList, OutOfMemory>
        requires { IsChange (edit_of edit.now) change.now }
        ensures { IfOk result (λ l. IsLinePart edit.now.text.now edit.now.start edit.now.new_stop (made_pieces change.now) l) }
    {
        let ends = line_ends_in(alloc, edit.text, edit.start, edit.new_stop)?;
        let mut markers = Vec::new(alloc);
        let mut naming = Vec::new(alloc);
        list_made(edit.text, change, &mut markers, &mut naming)?;
        Ok(LineList {
            ends,
            markers,
            naming,
        })
    }

    /// The line of an offset, which may be any number; one after the text counts as its end. It
    /// takes no memory, and looks at few places of the lists.
    pub fn line_by(&self, text: &[u8], offset: usize) -> Line
        requires { IsLineList text.now self.now }
        ensures { result ≡ line_at text.now offset }
    {
        let count = places_before(&self.ends, offset);
        let begin = line_begin(&self.ends, count);
        Line {
            number: number_after(&self.ends, count, last_before(&self.markers, begin)),
            file: match last_before(&self.naming, begin) {
                Some(marker) => marker.file,
                None => None,
            },
        }
    }

    // The same lists once more.
    fn copied(&self, alloc: Global) -> Result<LineList, OutOfMemory>
        ensures ends { IfOk result (λ l. l.ends.items ≡ self.now.ends.items) }
        ensures markers { IfOk result (λ l. l.markers.items ≡ self.now.markers.items) }
        ensures naming { IfOk result (λ l. l.naming.items ≡ self.now.naming.items) }
    {
        let mut ends = Vec::new(alloc);
        ends.extend_from_slice(&self.ends)?;
        let mut markers = Vec::new(alloc);
        markers.extend_from_slice(&self.markers)?;
        let mut naming = Vec::new(alloc);
        naming.extend_from_slice(&self.naming)?;
        Ok(LineList {
            ends,
            markers,
            naming,
        })
    }

    /// The lines of the new text of an edit, where these are the old one's. The only error is want
    /// of memory.
    pub fn after(
        &self,
        alloc: Global,
        edit: &TextEdit,
        change: &PieceChange,
    ) -> Result<LineList, OutOfMemory>
        requires lines { IsLineList edit.now.old.now self.now }
        requires change { IsChange (edit_of edit.now) change.now }
        ensures { IfOk result (λ l. IsLineList edit.now.text.now l) }
    {
        let made = LineList::made(alloc, edit, change)?;
        let mut lines = self.copied(alloc)?;
        lines.reserve(&made)?;
        lines.commit(edit, change, &made);
        Ok(lines)
    }

    /// Makes room for so many line ends and markers more. An error leaves the lists as they were.
    pub fn reserve(&mut self, made: &LineList) -> Result<(), OutOfMemory>
        ensures ends { self.new.ends.items ≡ self.old.ends.items }
        ensures markers { self.new.markers.items ≡ self.old.markers.items }
        ensures naming { self.new.naming.items ≡ self.old.naming.items }
        ensures ends_room { OnOk result (vec_len self.new.ends + vec_len made.now.ends ≤ vec_capacity self.new.ends) }
        ensures markers_room { OnOk result (vec_len self.new.markers + vec_len made.now.markers ≤ vec_capacity self.new.markers) }
        ensures naming_room { OnOk result (vec_len self.new.naming + vec_len made.now.naming ≤ vec_capacity self.new.naming) }
    {
        self.ends.reserve(made.ends.len())?;
        self.markers.reserve(made.markers.len())?;
        self.naming.reserve(made.naming.len())?;
        Ok(())
    }

    /// Makes the list of the old text's lines that of the new one's. There is room for what was
    /// made, so it can't fail.
    pub fn commit(&mut self, edit: &TextEdit, change: &PieceChange, made: &LineList)
        requires lines { IsLineList edit.now.old.now self.old }
        requires change { IsChange (edit_of edit.now) change.now }
        requires made { IsLinePart edit.now.text.now edit.now.start edit.now.new_stop (made_pieces change.now) made.now }
        requires ends_room { vec_len self.old.ends + vec_len made.now.ends ≤ vec_capacity self.old.ends }
        requires markers_room { vec_len self.old.markers + vec_len made.now.markers ≤ vec_capacity self.old.markers }
        requires naming_room { vec_len self.old.naming + vec_len made.now.naming ≤ vec_capacity self.old.naming }
        ensures { IsLineList edit.now.text.now self.new }
    {
        replace_ends(&mut self.ends, edit, &made.ends);
        let (start, from) = (edit.start, change.kept_from);
        let (old_stop, new_stop) = (edit.old_stop, edit.new_stop);
        replace_markers(
            &mut self.markers,
            start,
            from,
            &made.markers,
            old_stop,
            new_stop,
        );
        replace_markers(
            &mut self.naming,
            start,
            from,
            &made.naming,
            old_stop,
            new_stop,
        );
    }
}
