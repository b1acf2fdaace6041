//! Which texts begin with a punctuator.

ghost use Rattle.snl_token_laws.specs.Fronts.{IsPunctuatorFront};
ghost use Rattle.snl_lex.specs.Alphabet.{is_punctuator};
ghost use Rattle.snl_lex.specs.Longest.{IsLongestPunctuator};
ghost use Rattle.snl_lex.specs.Pieces.{first_piece, pieces_of};
ghost use Rattle.snl_lex.specs.declared.piece.Class.TheVariants.{Punct};
ghost use Rattle.std.specs.Prelude.{◌≡◌, ◌↔◌, ℕ, ◌<◌, true, List, All, drop, length, take};

use snl_lex::{first_piece_reaches, text_in_pieces};

/// A text begins with a punctuator exactly where its first byte is a punctuator and its front is none of
/// `//`, `/*`, `%%`, `%{` and a dot before a digit. The punctuator is then the longest punctuator that
/// the text begins with. The first byte of each punctuator is a punctuator, so where a text begins with a punctuator
/// of any length, its first byte is one.
pub fn punctuators_by_front()
    ensures punctuator { (text : List ℕ) → IsPunctuatorFront text → (first_piece text).0 ≡ Punct }
    ensures no_other { (text : List ℕ) → 0 < length text → (first_piece text).0 ≡ Punct
        → IsPunctuatorFront text }
    ensures longest { (text : List ℕ) → IsPunctuatorFront text
        → IsLongestPunctuator text (first_piece text).1 }
    ensures first_byte { (text : List ℕ) (n : ℕ) → is_punctuator (take n text) ≡ true
        → is_punctuator (take 1 text) ≡ true }
    ensures pieces { (text : List ℕ)
        → All (λ p. (p.kind ≡ Punct) ↔ IsPunctuatorFront (drop p.start text)) (pieces_of text) }
{
    text_in_pieces();
    first_piece_reaches();
}
