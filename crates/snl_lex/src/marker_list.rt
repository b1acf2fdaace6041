//! The line markers of a text that set a line, as lists, which an edit changes in place.
//! In: a text and its pieces. Out: the markers; after an edit those of the new text.

ghost use Rattle.snl_lex.specs.Edit.{made_pieces};
ghost use Rattle.snl_lex.specs.LineList.{IsShort, last_before, marked, marker_of, moved_marker, names, numbers, replaced_markers};
ghost use Rattle.snl_lex.specs.Lines.{marker_number};
ghost use Rattle.snl_lex.specs.Pieces.{LiesIn, bytes_at};
ghost use Rattle.snl_lists.specs.Moves.{moved};
ghost use Rattle.std.specs.List.Sorted.{IsNonDecreasingBy};
ghost use Rattle.std.specs.Prelude.{◌≡◌, ◌+◌, ◌-◌, ◌^◌, ◌<◌, ◌≤◌, ◌++◌, [], ◌∷◌, All, IfSome, OnOk, None, Some, count_by, drop, if◌then◌else◌, is_some, length, map, take, nat_lt, vec_capacity, vec_len};

use crate::lines::{marker_file, marker_number};
use crate::piece::{Class, Piece};
use crate::piece_list::PieceChange;
use snl_cut::OutOfMemory;
use snl_lists::replace;

/// A line marker: where it ends, the number of the line after it, and first byte and length of the
/// name of its file, if it has one.
#[derive(Clone, Copy, Debug, PartialEq, Eq, Drop)]
pub struct Marker {
    pub end: usize,
    pub number: u32,
    pub file: Option<(usize, usize)>,
}

/// How many markers end before a place. They rise, so few of them are looked at.
pub fn markers_before(markers: &[Marker], place: usize) -> usize
    requires { IsNonDecreasingBy (λ (m : Marker). m.end) markers.now }
    ensures count { result ≡ count_by (λ m. nat_lt m.end place) markers.now }
    ensures inside { result ≤ length markers.now }
{
    markers.partition_point(|marker| marker.end < place)
}

// The last marker that ends before a place.
pub(crate) fn last_before(markers: &[Marker], place: usize) -> Option<Marker>
    requires { IsNonDecreasingBy (λ (m : Marker). m.end) markers.now }
    ensures { result ≡ last_before place markers.now }
{
    let count = markers_before(markers, place);
    if count == 0 {
        None
    } else {
        Some(markers[count - 1])
    }
}

// The number that a piece sets, if it is a marker that sets one.
fn number_in(text: &[u8], piece: Piece) -> Option<usize>
    requires { LiesIn text.now piece }
    ensures some { is_some result ≡ numbers text.now piece }
    ensures number { IfSome result (λ n. marker_number (bytes_at text.now piece) ≡ Some n) }
    ensures small { IfSome result (λ n. n ≤ 2147483647) }
{
    if piece.kind != Class::Marker {
        return None;
    }
    match marker_number(&text[piece.start..piece.start + piece.len]) {
        Some(number) => Some(number as usize),
        None => None,
    }
}

// A piece as a marker, if it is one that sets a line.
fn marker_in(text: &[u8], piece: Piece) -> Option<Marker>
    requires { LiesIn text.now piece }
    ensures { result ≡ (if numbers text.now piece then Some (marker_of text.now piece) else None) }
{
    let end = piece.start + piece.len;
    match number_in(text, piece) {
        None => None,
        Some(number) => {
            let file = match marker_file(&text[piece.start..end]) {
                Some((start, len)) => Some((piece.start + start, len)),
                None => None,
            };
            Some(Marker {
                end,
                number: number as u32,
                file,
            })
        }
    }
}

// A marker, moved as the bytes from `old_stop` on are moved to `new_stop`.
fn moved(marker: Marker, old_stop: usize, new_stop: usize) -> Marker
    requires short { IsShort marker }
    requires stop { new_stop < 2 ^ 32 }
    ensures { result ≡ moved_marker old_stop new_stop marker }
{
    Marker {
        end: marker.end.saturating_sub(old_stop) + new_stop,
        number: marker.number,
        file: match marker.file {
            Some((start, len)) => Some((start.saturating_sub(old_stop) + new_stop, len)),
            None => None,
        },
    }
}

// Moves markers, as the bytes from `old_stop` on are moved to `new_stop`.
fn move_all(markers: &mut [Marker], old_stop: usize, new_stop: usize)
    requires short { All IsShort markers.old }
    requires stop { new_stop < 2 ^ 32 }
    ensures { markers.new ≡ map (moved_marker old_stop new_stop) markers.old }
{
    for marker in markers {
        *marker = moved(*marker, old_stop, new_stop);
    }
}

// Moves the markers from one number on.
fn move_from(markers: &mut Vec<Marker>, from: usize, old_stop: usize, new_stop: usize)
    requires from { from ≤ vec_len markers.old }
    requires short { All IsShort (drop from markers.old.items) }
    requires stop { new_stop < 2 ^ 32 }
    ensures { markers.new.items ≡ take from markers.old.items ++ map (moved_marker old_stop new_stop) (drop from markers.old.items) }
{
    move_all(&mut markers[from..], old_stop, new_stop);
}

// Puts other markers in the place of those that end from `start` up to `kept_from`, and moves those
// after. There is room for them.
pub(crate) fn replace_markers(
    markers: &mut Vec<Marker>,
    start: usize,
    kept_from: usize,
    made: &[Marker],
    old_stop: usize,
    new_stop: usize,
)
    requires rising { IsNonDecreasingBy (λ (m : Marker). m.end) markers.old.items }
    requires order { start ≤ kept_from }
    requires near { kept_from < 2 ^ 32 }
    requires short { All IsShort markers.old.items }
    requires stop { new_stop < 2 ^ 32 }
    requires room { vec_len markers.old + length made.now ≤ vec_capacity markers.old }
    ensures { markers.new.items ≡ replaced_markers start kept_from made.now old_stop new_stop markers.old.items }
{
    let front = markers_before(markers, start);
    let back = markers_before(markers, kept_from + 1);
    replace(markers, front, back, made);
    move_from(markers, front + made.len(), old_stop, new_stop);
}

// Lists a piece that is a marker, and once more where it names a file.
pub(crate) fn list_marker(
    text: &[u8],
    piece: Piece,
    markers: &mut Vec<Marker>,
    naming: &mut Vec<Marker>,
) -> Result<(), OutOfMemory>
    requires { LiesIn text.now piece }
    ensures markers { OnOk result (markers.new.items ≡ markers.old.items ++ marked (numbers text.now) text.now (piece ∷ [])) }
    ensures naming { OnOk result (naming.new.items ≡ naming.old.items ++ marked (names text.now) text.now (piece ∷ [])) }
{
    if let Some(marker) = marker_in(text, piece) {
        markers.push(marker)?;
        if marker.file.is_some() {
            naming.push(marker)?;
        }
    }
    Ok(())
}

// Lists those of the pieces that an edit makes that are markers.
pub(crate) fn list_made(
    text: &[u8],
    change: &PieceChange,
    markers: &mut Vec<Marker>,
    naming: &mut Vec<Marker>,
) -> Result<(), OutOfMemory>
    requires kinds { vec_len change.now.list.ends ≡ vec_len change.now.list.kinds }
    requires inside { All (LiesIn text.now) (made_pieces change.now) }
    ensures markers { OnOk result (markers.new.items ≡ markers.old.items ++ marked (numbers text.now) text.now (made_pieces change.now)) }
    ensures naming { OnOk result (naming.new.items ≡ naming.old.items ++ marked (names text.now) text.now (made_pieces change.now)) }
{
    let mut start = change.made_from as usize;
    for number in 0..change.list.ends.len() {
        let end = change.list.ends[number] as usize;
        let kind = change.list.kinds[number];
        if kind.is_marker() {
            let piece = Piece {
                kind,
                start,
                len: end.saturating_sub(start),
            };
            list_marker(text, piece, markers, naming)?;
        }
        start = end;
    }
    Ok(())
}
