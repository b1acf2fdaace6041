//! The tokens of a text, from the list of its pieces.
//! In: the list, or what an edit makes of the pieces. Out: tokens, each with its place.

ghost use Rattle.snl_cut.specs.Cut.{last_end};
ghost use Rattle.snl_lex.specs.Edit.{made_pieces};
ghost use Rattle.snl_lex.specs.PieceList.{listed_pieces, piece_ends, piece_kinds, pieces_between};
ghost use Rattle.snl_lex.specs.Pieces.{is_token, pieces_of};
ghost use Rattle.std.specs.Prelude.{◌≡◌, ℕ, List, ◌+◌, ◌-◌, ◌≤◌, ◌++◌, IfOk, filter, length, take, vec_capacity, vec_len};

use crate::piece::Piece;
use crate::piece_list::{PieceChange, PieceList};
use snl_cut::OutOfMemory;
use std::alloc::Global;

// Where the piece with this number begins, if the first one begins at a place.
fn start_at(list: &PieceList, begin: u32, number: usize) -> u32
    requires { number ≤ vec_len list.now.ends }
    ensures { result ≡ last_end begin (take number list.now.ends.items) }
{
    if number == 0 {
        begin
    } else {
        list.ends[number - 1]
    }
}

// Adds those of the pieces from one number up to another that are tokens. The first piece of the
// list begins at a place. The tokens come by value, and there is room for all: so their place and
// number stay in registers, and no room is looked for at each.
fn with_listed_tokens(
    mut tokens: Vec<Piece>,
    list: &PieceList,
    begin: u32,
    from: usize,
    stop: usize,
) -> Vec<Piece>
    requires order { from ≤ stop }
    requires ends { stop ≤ vec_len list.now.ends }
    requires kinds { stop ≤ vec_len list.now.kinds }
    requires room { vec_len tokens + (stop - from) ≤ vec_capacity tokens }
    ensures tokens { result.items ≡ tokens.items ++ filter is_token (pieces_between (listed_pieces begin list.now.ends.items list.now.kinds.items) from stop) }
    ensures length { vec_len result ≤ vec_len tokens + (stop - from) }
    ensures capacity { vec_capacity result ≡ vec_capacity tokens }
{
    let ends = list.ends.as_slice();
    let kinds = list.kinds.as_slice();
    let mut start = start_at(list, begin, from);
    for number in from..stop {
        let end = ends[number];
        let kind = kinds[number];
        if kind.is_token() {
            tokens.push_reserved(Piece {
                kind,
                start: start as usize,
                len: end.saturating_sub(start) as usize,
            });
        }
        start = end;
    }
    tokens
}

// Adds those of the pieces that are tokens. There is room for all.
fn with_tokens(mut tokens: Vec<Piece>, pieces: &[Piece]) -> Vec<Piece>
    requires { vec_len tokens + length pieces.now ≤ vec_capacity tokens }
    ensures { result.items ≡ tokens.items ++ filter is_token pieces.now }
{
    for piece in pieces {
        if piece.kind.is_token() {
            tokens.push_reserved(*piece);
        }
    }
    tokens
}

/// Those of the pieces that are tokens. The only error is want of memory.
pub fn tokens_among(alloc: Global, pieces: &[Piece]) -> Result<Vec<Piece>, OutOfMemory>
    ensures { IfOk result (λ tokens. tokens.items ≡ filter is_token pieces.now) }
{
    let tokens = Vec::with_capacity(alloc, pieces.len())?;
    Ok(with_tokens(tokens, pieces))
}

impl PieceChange {
    /// The tokens among the pieces that are made. The only error is want of memory.
    pub fn made_tokens(&self, alloc: Global) -> Result<Vec<Piece>, OutOfMemory>
        requires { vec_len self.now.list.ends ≡ vec_len self.now.list.kinds }
        ensures { IfOk result (λ tokens. tokens.items ≡ filter is_token (made_pieces self.now)) }
    {
        let made = self.list.ends.len();
        let tokens = Vec::with_capacity(alloc, made)?;
        Ok(with_listed_tokens(tokens, &self.list, self.made_from, 0, made))
    }
}

impl PieceList {
    /// The tokens among the pieces from one number up to another. The only error is want of memory.
    pub fn tokens_between(
        &self,
        alloc: Global,
        from: usize,
        stop: usize,
    ) -> Result<Vec<Piece>, OutOfMemory>
        requires order { from ≤ stop }
        requires ends { stop ≤ vec_len self.now.ends }
        requires kinds { stop ≤ vec_len self.now.kinds }
        ensures { IfOk
            result
            (λ tokens. (text : List ℕ) → self.now.ends.items ≡ piece_ends text → self.now.kinds.items ≡ piece_kinds text → tokens.items ≡ filter is_token (pieces_between (pieces_of text) from stop)) }
    {
        let tokens = Vec::with_capacity(alloc, stop - from)?;
        Ok(with_listed_tokens(tokens, self, 0, from, stop))
    }
}
