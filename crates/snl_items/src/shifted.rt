//! Whether an edit touches no token, so that each is at its place or shifted.
//! In: the tokens that the edit replaces, and those that it makes. Out: how many are before the
//! edit.

ghost use Rattle.snl_items.specs.Changes.{AreLeft, AreLeftFrom};
ghost use Rattle.snl_lex.specs.Edit.{edit_of};
ghost use Rattle.snl_lex.specs.Pieces.{LiesIn, piece_end};
ghost use Rattle.snl_lex.specs.Shift.{shifted_piece};
ghost use Rattle.std.specs.Prelude.{◌≡◌, ◌+◌, ◌<◌, ◌≤◌, ◌^◌, All, IfSome, IsTrue, length, map, take};

use snl_lex::{Piece, Shift, TextEdit};

/// An edit that leaves all tokens of a text: each is at its place or shifted. So many of them are
/// before the edit.
#[derive(Clone, Copy, Debug, PartialEq, Eq)]
pub struct Shifted {
    pub by: Shift,
    pub before: usize,
}

// Where a piece is after the edit.
fn shifted_piece(shift: Shift, piece: Piece) -> Piece
    ensures { result ≡ shifted_piece shift piece }
{
    Piece {
        kind: piece.kind,
        start: shift.offset(piece.start),
        len: piece.len,
    }
}

// Whether these are the old tokens, each at its place or shifted.
fn are_shifted(old: &[Piece], made: &[Piece], shift: Shift) -> bool
    ensures { IsTrue result → made.now ≡ map (shifted_piece shift) old.now }
{
    if old.len() != made.len() {
        return false;
    }
    for number in 0..old.len() {
        if made[number] != shifted_piece(shift, old[number]) {
            return false;
        }
    }
    true
}

// How many tokens, from the first one on, end at a place or before it.
fn count_in_front(tokens: &[Piece], place: usize) -> usize
    requires { All (λ p. piece_end p < 2 ^ 64) tokens.now }
    ensures few { result ≤ length tokens.now }
    ensures in_front { All (λ p. piece_end p ≤ place) (take result tokens.now) }
{
    for (number, token) in tokens.iter().enumerate() {
        if place < token.start + token.len {
            return number;
        }
    }
    tokens.len()
}

// Whether all tokens begin at a place or after it.
fn are_after(tokens: &[Piece], place: usize) -> bool
    ensures { IsTrue result → All (λ p. place ≤ p.start) tokens.now }
{
    tokens.iter().all(|token| place <= token.start)
}

// How many of the tokens that an edit replaces are before it, if these are the ones that it makes,
// each at its place or shifted.
fn left_before(old: &[Piece], made: &[Piece], shift: Shift) -> Option<usize>
    requires { All (λ p. piece_end p < 2 ^ 64) old.now }
    ensures { IfSome result (AreLeft shift old.now made.now) }
{
    let before = count_in_front(old, shift.start);
    if are_after(&old[before..], shift.old_stop) && are_shifted(old, made, shift) {
        Some(before)
    } else {
        None
    }
}

/// What is known of an edit that leaves the tokens that it replaces, the first of which has the
/// number `from`. `same` says whether these are spelled as those that it makes.
pub fn shifted_from(
    edit: &TextEdit,
    same: bool,
    from: usize,
    replaced: &[Piece],
    made: &[Piece],
) -> Option<Shifted>
    requires fits { from + length replaced.now < 2 ^ 64 }
    requires inside { All (LiesIn edit.now.old.now) replaced.now }
    ensures { IfSome result (AreLeftFrom (edit_of edit.now) same from replaced.now made.now) }
{
    if !same {
        return None;
    }
    let by = Shift::of(edit);
    let before = left_before(replaced, made, by)?;
    Some(Shifted {
        by,
        before: from + before,
    })
}
