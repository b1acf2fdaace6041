//! Which bytes are numbers, and which number runs are faulty.

ghost use Rattle.snl_token_laws.specs.Numbers.{BeginsNumber, IsFloating, IsInteger};
ghost use Rattle.snl_token_laws.specs.Written.{goes_on_digits};
ghost use Rattle.snl_lex.specs.Numbers.{int_value_of};
ghost use Rattle.snl_lex.specs.Pieces.{bytes_at, first_piece, pieces_of};
ghost use Rattle.snl_lex.specs.declared.piece.Class.TheVariants.{Bad, Float, Int};
ghost use Rattle.std.specs.Prelude.{◌≡◌, ◌↔◌, ◌++◌, ℕ, false, List, Some, All, drop, length};

use snl_lex::text_in_pieces;

/// An integer and a floating number, in whatever form of the language they are written, are one
/// piece each. What follows them belongs to that piece only if it begins with a letter, a digit,
/// `_` or a dot: a sign after a number isn't part of it.
pub fn numbers_read_back()
    ensures integer { (v : ℕ) (bytes rest : List ℕ) → IsInteger v bytes
        → goes_on_digits rest ≡ false → first_piece (bytes ++ rest) ≡ (Int, length bytes) }
    ensures floating { (bytes rest : List ℕ) → IsFloating bytes → goes_on_digits rest ≡ false
        → first_piece (bytes ++ rest) ≡ (Float, length bytes) }
{}

/// The integers of a text are the pieces that are written as integers, and its floating numbers
/// those that are written so. A number run is faulty exactly where it is neither: `08`, `1e+e`,
/// `0x1.8p3` and an integer of 2^64 or more are of no form. The value of bytes is that of their
/// digits, and bytes of any other form have none.
pub fn numbers_by_form()
    ensures integers { (text : List ℕ) → All
        (λ p. (p.kind ≡ Int) ↔ ((v : ℕ) × IsInteger v (bytes_at text p)))
        (pieces_of text) }
    ensures floats { (text : List ℕ) → All
        (λ p. (p.kind ≡ Float) ↔ IsFloating (bytes_at text p))
        (pieces_of text) }
    ensures bad { (text : List ℕ) → All
        (λ p. BeginsNumber (drop p.start text)
        → (p.kind ≡ Bad)
        ↔ (((v : ℕ) → IsInteger v (bytes_at text p) → ⊥) × (IsFloating (bytes_at text p) → ⊥)))
        (pieces_of text) }
    ensures values { (bytes : List ℕ) (v : ℕ)
        → (int_value_of bytes ≡ Some v) ↔ IsInteger v bytes }
{
    text_in_pieces();
}
