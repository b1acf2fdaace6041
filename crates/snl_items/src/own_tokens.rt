//! The tokens of an item before an edit in it and after it.
//! In: the list of the old pieces, what the edit makes of them and of the tokens, and the numbers
//! of the item's first token and of the token after it. Out: the item's tokens. No pieces are
//! looked at but those of the item.

ghost use Rattle.snl_items.specs.Changes.{IsTokenChange};
ghost use Rattle.snl_items.specs.OwnTokens.{tokens_before, tokens_between};
ghost use Rattle.snl_lex.specs.Edit.{IsChange, edit_of};
ghost use Rattle.snl_lex.specs.PieceList.{is_token_class, piece_ends, piece_kinds};
ghost use Rattle.snl_lex.specs.Pieces.{moved_piece, tokens_of};
ghost use Rattle.std.specs.Prelude.{◌≡◌, ◌+◌, ◌-◌, ◌^◌, ◌<◌, ◌≤◌, ◌++◌, All, IfOk, OnOk, count_by, length, map};

use crate::laws::{made_are_tokens, tokens_counted};
use crate::tokens::TokenChange;
use snl_cut::OutOfMemory;
use snl_lex::{Class, Piece, PieceChange, PieceList, TextEdit, text_in_pieces};
use std::alloc::Global;

// The number of the piece from which on there are so many tokens in front of the one with a number.
fn tokens_back(kinds: &[Class], from: usize, count: usize) -> usize
    requires within { from ≤ length kinds.now }
    requires some { count ≤ tokens_before kinds.now from }
    ensures before { result ≤ from }
    ensures counted { tokens_before kinds.now result + count ≡ tokens_before kinds.now from }
{
    let mut number = from;
    let mut left = count;
    while left > 0 {
        number -= 1;
        if kinds[number].is_token() {
            left -= 1;
        }
    }
    number
}

// The number of the piece up to which there are so many tokens from the one with a number on.
fn tokens_on(kinds: &[Class], from: usize, count: usize) -> usize
    requires within { from ≤ length kinds.now }
    requires some { tokens_before kinds.now from + count ≤ count_by is_token_class kinds.now }
    ensures after { from ≤ result }
    ensures within { result ≤ length kinds.now }
    ensures counted { tokens_before kinds.now result ≡ tokens_before kinds.now from + count }
{
    let mut number = from;
    let mut left = count;
    while left > 0 {
        if kinds[number].is_token() {
            left -= 1;
        }
        number += 1;
    }
    number
}

// Adds tokens, moved as the bytes from `old_stop` on are moved to `new_stop`.
fn add_moved(
    moved: &[Piece],
    old_stop: usize,
    new_stop: usize,
    tokens: &mut Vec<Piece>,
) -> Result<(), OutOfMemory>
    requires short { All (λ p. p.start < 2 ^ 32) moved.now }
    requires fits { new_stop < 2 ^ 32 }
    ensures { OnOk result (tokens.new.items ≡ tokens.old.items ++ map (moved_piece old_stop new_stop) moved.now) }
{
    for piece in moved {
        tokens.push(Piece {
            kind: piece.kind,
            start: piece.start.saturating_sub(old_stop) + new_stop,
            len: piece.len,
        })?;
    }
    Ok(())
}

/// The old tokens of the item that an edit is in. The only error is want of memory.
pub fn own_tokens_before(
    alloc: Global,
    pieces: &PieceList,
    edit: &TextEdit,
    change: &PieceChange,
    tokens: &TokenChange,
    first: usize,
    stop: usize,
) -> Result<Vec<Piece>, OutOfMemory>
    requires ends { pieces.now.ends.items ≡ piece_ends edit.now.old.now }
    requires kinds { pieces.now.kinds.items ≡ piece_kinds edit.now.old.now }
    requires change { IsChange (edit_of edit.now) change.now }
    requires tokens { IsTokenChange (edit_of edit.now) tokens.now }
    requires first { first ≤ tokens.now.edit.start }
    requires stop { tokens.now.edit.old_stop ≤ stop }
    requires inside { stop ≤ length (tokens_of edit.now.old.now) }
    ensures { IfOk result (λ own. own.items ≡ tokens_between (tokens_of edit.now.old.now) first stop) }
{
    tokens_counted();
    let back = pieces.kinds.len() - change.kept_back;
    let from = tokens_back(&pieces.kinds, change.kept_front, tokens.edit.start - first);
    let to = tokens_on(&pieces.kinds, back, stop - tokens.edit.old_stop);
    let own = pieces.tokens_between(alloc, from, to)?;
    Ok(own)
}

/// Its new tokens, by its old ones: those in front of the edit, those that are made, and those
/// after it, moved. The only error is want of memory.
pub fn own_tokens_after(
    alloc: Global,
    edit: &TextEdit,
    change: &PieceChange,
    tokens: &TokenChange,
    own: &[Piece],
    first: usize,
    stop: usize,
) -> Result<Vec<Piece>, OutOfMemory>
    requires change { IsChange (edit_of edit.now) change.now }
    requires tokens { IsTokenChange (edit_of edit.now) tokens.now }
    requires first { first ≤ tokens.now.edit.start }
    requires stop { tokens.now.edit.old_stop ≤ stop }
    requires inside { stop ≤ length (tokens_of edit.now.old.now) }
    requires own { own.now ≡ tokens_between (tokens_of edit.now.old.now) first stop }
    ensures { IfOk
        result
        (λ now. now.items ≡ tokens_between (tokens_of edit.now.text.now) first ((stop - tokens.now.edit.old_stop) + tokens.now.edit.new_stop)) }
{
    text_in_pieces();
    made_are_tokens();
    let made = change.made_tokens(alloc)?;
    let mut now = Vec::new(alloc);
    now.extend_from_slice(&own[..tokens.edit.start - first])?;
    now.extend_from_slice(&made)?;
    let after = &own[tokens.edit.old_stop - first..stop - first];
    add_moved(after, edit.old_stop, edit.new_stop, &mut now)?;
    Ok(now)
}
