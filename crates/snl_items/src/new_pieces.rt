//! The pieces of the new text of an edit, as a list of its own.
//! In: the list of the old pieces, and what the edit makes of them. Out: the new list.

ghost use Rattle.snl_lex.specs.Edit.{IsChange, edit_of};
ghost use Rattle.snl_lex.specs.Lines.{is_marker};
ghost use Rattle.snl_lex.specs.PieceList.{piece_ends, piece_kinds};
ghost use Rattle.snl_lex.specs.Shift.{marker_count};
ghost use Rattle.snl_lists.specs.Moves.{moved};
ghost use Rattle.std.specs.Prelude.{◌≡◌, ℕ, ◌+◌, ◌-◌, ◌^◌, ◌<◌, ◌≤◌, ◌++◌, IfOk, count_by, length, slice_index, vec_capacity, vec_len};

use crate::laws::few_pieces;
use snl_cut::{OutOfMemory, ends_in_order, one_cut};
use snl_lex::{Bytes, Class, PieceChange, PieceList, TextEdit, text_in_pieces};
use std::alloc::Global;

// A list that is made has room for a few pieces more, so that short keys after it don't grow it at
// once. More isn't worth its memory: growth copies the list, as whoever made it did before.
const SPARE: usize = 64;

// These and then those, with room for so many more.
fn joined<T: Copy + Drop>(
    alloc: Global,
    front: &[T],
    made: &[T],
    more: usize,
) -> Result<Vec<T>, OutOfMemory>
    ensures items { IfOk result (λ list. list.items ≡ front.now ++ made.now) }
    ensures room { IfOk result (λ list. vec_len list + more ≤ vec_capacity list) }
{
    let listed = front.len().saturating_add(made.len());
    let room = listed.saturating_add(more).saturating_add(SPARE);
    let mut list = Vec::with_capacity(alloc, room)?;
    list.extend_from_slice(front)?;
    list.extend_from_slice(made)?;
    list.reserve(more)?;
    Ok(list)
}

// Adds ends, moved as the bytes from `old_stop` on are moved to `new_stop`. The list comes by
// value, and there is room for all: so their place and number stay in registers.
fn with_moved(mut list: Vec<u32>, ends: &[u32], old_stop: u32, new_stop: u32) -> Vec<u32>
    requires room { vec_len list + length ends.now ≤ vec_capacity list }
    requires after { (i : ℕ) → i < length ends.now → old_stop ≤ slice_index ends.now i }
    requires fits { (i : ℕ) → i < length ends.now → (slice_index ends.now i - old_stop) + new_stop < 2 ^ 32 }
    ensures { result.items ≡ list.items ++ moved old_stop new_stop ends.now }
{
    for end in ends {
        list.push_reserved(*end - old_stop + new_stop);
    }
    list
}

// Where the pieces of the new text end. What is kept at the back is moved as it is copied.
fn ends_after(
    alloc: Global,
    ends: &[u32],
    edit: &TextEdit,
    change: &PieceChange,
) -> Result<Vec<u32>, OutOfMemory>
    requires ends { ends.now ≡ piece_ends edit.now.old.now }
    requires change { IsChange (edit_of edit.now) change.now }
    ensures { IfOk result (λ list. list.items ≡ piece_ends edit.now.text.now) }
{
    ends_in_order::<Bytes>();
    one_cut::<Bytes>();
    text_in_pieces();
    let back = &ends[ends.len() - change.kept_back..];
    let front = &ends[..change.kept_front];
    let list = joined(alloc, front, &change.list.ends, back.len())?;
    let (old_stop, new_stop) = (edit.old_stop as u32, edit.new_stop as u32);
    Ok(with_moved(list, back, old_stop, new_stop))
}

// The classes of the pieces of the new text.
fn kinds_after(
    alloc: Global,
    kinds: &[Class],
    edit: &TextEdit,
    change: &PieceChange,
) -> Result<Vec<Class>, OutOfMemory>
    requires kinds { kinds.now ≡ piece_kinds edit.now.old.now }
    requires change { IsChange (edit_of edit.now) change.now }
    ensures { IfOk result (λ list. list.items ≡ piece_kinds edit.now.text.now) }
{
    let back = &kinds[kinds.len() - change.kept_back..];
    let front = &kinds[..change.kept_front];
    let mut list = joined(alloc, front, &change.list.kinds, back.len())?;
    list.extend_from_slice(back)?;
    Ok(list)
}

// How many of these classes are line markers.
fn count_markers(kinds: &[Class]) -> usize
    ensures { result ≡ count_by is_marker kinds.now }
{
    kinds.iter().filter(|kind| kind.is_marker()).count()
}

// How many pieces of the new text are line markers.
fn markers_after(pieces: &PieceList, edit: &TextEdit, change: &PieceChange) -> usize
    requires kinds { pieces.now.kinds.items ≡ piece_kinds edit.now.old.now }
    requires markers { pieces.now.markers ≡ marker_count edit.now.old.now }
    requires change { IsChange (edit_of edit.now) change.now }
    ensures { result ≡ marker_count edit.now.text.now }
{
    few_pieces();
    let kinds = pieces.kinds.as_slice();
    let gone = count_markers(&kinds[change.kept_front..kinds.len() - change.kept_back]);
    pieces.markers - gone + count_markers(&change.list.kinds)
}

/// The pieces of the new text, where these are those of the old one. The only error is want of
/// memory.
pub fn pieces_after(
    alloc: Global,
    pieces: &PieceList,
    edit: &TextEdit,
    change: &PieceChange,
) -> Result<PieceList, OutOfMemory>
    requires ends { pieces.now.ends.items ≡ piece_ends edit.now.old.now }
    requires kinds { pieces.now.kinds.items ≡ piece_kinds edit.now.old.now }
    requires markers { pieces.now.markers ≡ marker_count edit.now.old.now }
    requires change { IsChange (edit_of edit.now) change.now }
    ensures ends { IfOk result (λ l. l.ends.items ≡ piece_ends edit.now.text.now) }
    ensures kinds { IfOk result (λ l. l.kinds.items ≡ piece_kinds edit.now.text.now) }
    ensures markers { IfOk result (λ l. l.markers ≡ marker_count edit.now.text.now) }
{
    Ok(PieceList {
        ends: ends_after(alloc, &pieces.ends, edit, change)?,
        kinds: kinds_after(alloc, &pieces.kinds, edit, change)?,
        markers: markers_after(pieces, edit, change),
    })
}
