//! The tokens of two texts come in, with what an edit makes of the pieces; what it makes of the
//! tokens goes out.

use crate::count::cuts::Change;
use crate::count::read_text::{ReadText, end_of};
use snl_lex::Piece;

// The bytes of a token.
fn bytes_of<'a>(text: &'a [u8], token: &Piece) -> &'a [u8] {
    text.get(token.start..end_of(token)).unwrap_or(&[])
}

// How many tokens begin before a place.
fn beginning_before(tokens: &[Piece], place: usize) -> usize {
    tokens.iter().filter(|token| token.start < place).count()
}

/// The change of the tokens: those that end before the edit are kept, and those that begin where
/// the pieces of both texts meet, or after that.
pub fn change_of_tokens(old: &ReadText, new: &ReadText, edit: Change, meet: usize) -> Change {
    let old_meet = edit.old_place(meet).unwrap_or(usize::MAX);
    Change {
        start: old
            .tokens
            .iter()
            .filter(|token| end_of(token) < edit.start)
            .count(),
        old_stop: beginning_before(&old.tokens, old_meet),
        new_stop: beginning_before(&new.tokens, meet),
    }
}

/// Whether the tokens that a change takes away are those that it puts in their place: as many, of
/// the same classes and bytes.
pub fn are_the_same(
    old_text: &[u8],
    old: &ReadText,
    text: &[u8],
    new: &ReadText,
    change: Change,
) -> bool {
    let before = old.tokens.get(change.start..change.old_stop).unwrap_or(&[]);
    let now = new.tokens.get(change.start..change.new_stop).unwrap_or(&[]);
    before.len() == now.len()
        && before.iter().zip(now).all(|(one, other)| {
            one.kind == other.kind && bytes_of(old_text, one) == bytes_of(text, other)
        })
}
