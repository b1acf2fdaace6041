//! How many tokens begin before a place.
//! In: the list of the pieces of a text, and a place. Out: the number of tokens in front of it.

ghost use Rattle.snl_cut.specs.Cut.{Rises, ends_below};
ghost use Rattle.snl_lex.specs.PieceList.{piece_ends, piece_kinds};
ghost use Rattle.snl_lex.specs.Pieces.{tokens_of};
ghost use Rattle.std.specs.Prelude.{◌≡◌, ℕ, ◌<◌, ◌≤◌, All, List, count_by, drop, length, nat_lt, take};

use crate::tokens::count_tokens;
use snl_cut::{ends_in_order, one_cut};
use snl_lex::{Bytes, PieceList, pieces_as_listed, text_in_pieces};

// How many of the ends, which rise, are below a place.
fn ends_before(ends: &[u32], place: usize) -> usize
    ensures count { Rises 0 ends.now → result ≡ ends_below place ends.now }
    ensures inside { result ≤ length ends.now }
{
    ends.partition_point(|end| (*end as usize) < place)
}

/// How many of the tokens of a text begin before a place, by the list of its pieces; those after
/// them begin there or after it. It takes no memory: which pieces begin before the place is found
/// by halving, and those of them that their classes call tokens are counted.
pub fn tokens_in_front(pieces: &PieceList, place: usize) -> usize
    requires some { 0 < place }
    ensures count { (text : List ℕ) → pieces.now.ends.items ≡ piece_ends text → pieces.now.kinds.items ≡ piece_kinds text → result ≡ count_by (λ p. nat_lt p.start place) (tokens_of text) }
    ensures front { (text : List ℕ) → pieces.now.ends.items ≡ piece_ends text → pieces.now.kinds.items ≡ piece_kinds text → All (λ p. p.start < place) (take result (tokens_of text)) }
    ensures back { (text : List ℕ) → pieces.now.ends.items ≡ piece_ends text → pieces.now.kinds.items ≡ piece_kinds text → All (λ p. place ≤ p.start) (drop result (tokens_of text)) }
{
    ends_in_order::<Bytes>();
    one_cut::<Bytes>();
    text_in_pieces();
    pieces_as_listed();
    // The piece that the place is in, or that ends there, begins before it too.
    let before = ends_before(&pieces.ends, place);
    let count = pieces.kinds.len().min(before + 1);
    count_tokens(&pieces.kinds[..count])
}
