//! The range of a diagnostic leads back to its token.

ghost use Rattle.std.specs.Prelude.{◌≡◌, ◌⊎◌, ℕ, List, Some, IsUtf8};
ghost use Rattle.snl_questions.specs.Tokens.{token_at};
ghost use Rattle.snl_kept.specs.declared.found.findings.Diagnostic.{Diagnostic};
ghost use Rattle.snl_lex.specs.declared.piece.Piece.{Piece};
ghost use Rattle.snl_lex.specs.Pieces.{piece_end};
ghost use Rattle.snl_place.specs.declared.places.Encoding.{Encoding};
ghost use Rattle.snl_place.specs.Places.{CutsNoLineEnd};
ghost use Rattle.snl_shown.specs.Found.{found_at};
ghost use Rattle.snl_shown.specs.Spans.{offset_at};

use snl_lex::{first_piece_reaches, text_in_pieces};
use snl_place::places_return;
use snl_token_laws::pieces_hold_characters;

/// In a text in UTF-8, the range of a diagnostic that begins with a token, and quotes it or
/// nothing, leads back to the bytes of that token: but for a token that ends between a CR and its
/// LF, which no place is between.
pub fn token_ranges_lead_back()
    ensures start { (encoding : Encoding) (text : List ℕ) (d : Diagnostic) (token : Piece)
        → IsUtf8 text → token_at text d.offset ≡ Some token → token.start ≡ d.offset
        → offset_at encoding text (found_at encoding text d).start ≡ token.start }
    ensures stop { (encoding : Encoding) (text : List ℕ) (d : Diagnostic) (token : Piece)
        → IsUtf8 text → token_at text d.offset ≡ Some token → token.start ≡ d.offset
        → (d.subject ≡ 0) ⊎ (d.subject ≡ token.len) → CutsNoLineEnd text (piece_end token)
        → offset_at encoding text (found_at encoding text d).stop ≡ piece_end token }
{
    text_in_pieces();
    first_piece_reaches();
    places_return();
    pieces_hold_characters();
}
