//! The token that has the byte at an offset.
//! In: the pieces of a text, as lists, and the offset. Out: the token, if there is one.

ghost use Rattle.std.specs.Prelude.{◌≡◌, ℕ, List, ◌≤◌, ◌<◌, Contains, Some, length, take, vec_len};
ghost use Rattle.std.specs.List.Sorted.{IsNonDecreasing};
ghost use Rattle.snl_cut.specs.Cut.{last_end};
ghost use Rattle.snl_lex.specs.PieceList.{piece_ends, piece_kinds};
ghost use Rattle.snl_lex.specs.Pieces.{piece_end, tokens_of};
ghost use Rattle.snl_lex.specs.declared.piece.Piece.{Piece};
ghost use Rattle.snl_questions.specs.Tokens.{IsCount, token_at, token_numbered};

use crate::tokens::item_tokens::begin_of;
use snl_lex::{Piece, PieceList, pieces_as_listed, text_in_pieces};

/// The piece with this number, if it is a token.
fn token_numbered(pieces: &PieceList, number: usize) -> Option<Piece>
    requires { vec_len pieces.now.ends ≡ vec_len pieces.now.kinds }
    ensures { result ≡ token_numbered 0 pieces.now.ends.items pieces.now.kinds.items number }
{
    if number >= pieces.ends.len() {
        return None;
    }
    let kind = pieces.kinds[number];
    if !kind.is_token() {
        return None;
    }
    let start = begin_of(&pieces.ends, number);
    let end = pieces.ends[number] as usize;
    Some(Piece {
        kind,
        start,
        len: end.saturating_sub(start),
    })
}

/// How many of the ends are at an offset or before it, where they rise.
fn count_until(ends: &[u32], offset: usize) -> usize
    ensures { IsNonDecreasing ends.now → IsCount offset ends.now result }
{
    ends.partition_point(|end| *end as usize <= offset)
}

/// The token that has the byte at an offset: none in white space, comments and line markers, and
/// after the text's end. Each step of the search halves the list.
pub fn token_at(pieces: &PieceList, offset: usize) -> Option<Piece>
    requires { vec_len pieces.now.ends ≡ vec_len pieces.now.kinds }
    ensures { (text : List ℕ) → pieces.now.ends.items ≡ piece_ends text
        → pieces.now.kinds.items ≡ piece_kinds text → result ≡ token_at text offset }
{
    text_in_pieces();
    pieces_as_listed();
    let number = count_until(&pieces.ends, offset);
    token_numbered(pieces, number)
}

/// Each byte of a token finds that token. So no two tokens share a byte.
pub fn token_bytes_find_it()
    ensures { (text : List ℕ) (token : Piece) (offset : ℕ) → Contains (tokens_of text) token
        → token.start ≤ offset → offset < piece_end token → token_at text offset ≡ Some token }
{
    text_in_pieces();
    pieces_as_listed();
}
