//! The tokens of a text. In: its pieces, as lists. Out: its tokens.

ghost use Rattle.std.specs.Prelude.{◌≡◌, ℕ, IfOk, List, vec_len};
ghost use Rattle.snl_lex.specs.PieceList.{piece_ends, piece_kinds};
ghost use Rattle.snl_lex.specs.Pieces.{tokens_of};

use snl_cut::OutOfMemory;
use snl_lex::{Piece, PieceList};
use std::alloc::Global;

/// All tokens of a text, by the list of its pieces.
pub fn all_tokens(alloc: Global, pieces: &PieceList) -> Result<Vec<Piece>, OutOfMemory>
    requires { vec_len pieces.now.ends ≡ vec_len pieces.now.kinds }
    ensures { IfOk
        result
        (λ tokens. (text : List ℕ) → pieces.now.ends.items ≡ piece_ends text
        → pieces.now.kinds.items ≡ piece_kinds text → tokens.items ≡ tokens_of text) }
{
    pieces.tokens_between(alloc, 0, pieces.ends.len())
}
