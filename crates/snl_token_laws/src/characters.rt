//! Pieces and the characters of a text.

ghost use Rattle.snl_lex.specs.Pieces.{piece_end, pieces_of};
ghost use Rattle.std.specs.Prelude.{ℕ, All, List};
ghost use Rattle.std.specs.Str.{IsCharBoundary, IsUtf8};

/// No piece cuts a character of a text in UTF-8: where a piece begins, a character begins, and where
/// it ends, a character begins or the text ends.
pub fn pieces_hold_characters()
    ensures { (text : List ℕ) → IsUtf8 text
        → All (λ p. IsCharBoundary text p.start × IsCharBoundary text (piece_end p))
        (pieces_of text) }
{}
