//! What integers are worth.

ghost use Rattle.snl_token_laws.specs.Written.{goes_on_digits, hexadecimal, octal};
ghost use Rattle.snl_lex.specs.Numbers.{int_value_of};
ghost use Rattle.snl_lex.specs.Pieces.{bytes_at, first_piece, pieces_of};
ghost use Rattle.snl_lex.specs.declared.piece.Class.TheVariants.{Int};
ghost use Rattle.std.specs.Prelude.{◌≡◌, ◌++◌, ℕ, ◌^◌, ◌<◌, Bool, false, List, Some, All, IfSome, IsSomeAnd, decimal, length};

use snl_lex::text_in_pieces;

/// Each integer of a text has a value below 2^64, so what a reader has to answer where there is
/// none is never answered. No bytes have a value of 2^64 or more.
pub fn integers_have_values()
    ensures value { (text : List ℕ) → All
        (λ p. p.kind ≡ Int → IsSomeAnd (int_value_of (bytes_at text p)) (λ v. v < 2 ^ 64))
        (pieces_of text) }
    ensures limit { (bytes : List ℕ) → IfSome (int_value_of bytes) (λ v. v < 2 ^ 64) }
{
    text_in_pieces();
}

/// Each number below 2^64 that is written in decimal is read back: the digits are an integer, and
/// the number is its value. What follows them belongs to that integer only if it begins with a
/// letter, a digit, `_` or a dot.
pub fn decimals_read_back()
    ensures value { (v : ℕ) → v < 2 ^ 64 → int_value_of (decimal v) ≡ Some v }
    ensures piece { (v : ℕ) (rest : List ℕ) → v < 2 ^ 64 → goes_on_digits rest ≡ false
        → first_piece (decimal v ++ rest) ≡ (Int, length (decimal v)) }
{}

/// The same of numbers that are written in octal, after a zero.
pub fn octals_read_back()
    ensures value { (v : ℕ) → v < 2 ^ 64 → int_value_of (octal v) ≡ Some v }
    ensures piece { (v : ℕ) (rest : List ℕ) → v < 2 ^ 64 → goes_on_digits rest ≡ false
        → first_piece (octal v ++ rest) ≡ (Int, length (octal v)) }
{}

/// The same of numbers that are written in hexadecimal, after `0x` or `0X`, in small letters or in
/// capital ones.
pub fn hexadecimals_read_back()
    ensures value { (capital_x capital_digits : Bool) (v : ℕ) → v < 2 ^ 64
        → int_value_of (hexadecimal capital_x capital_digits v) ≡ Some v }
    ensures piece { (capital_x capital_digits : Bool) (v : ℕ) (rest : List ℕ) → v < 2 ^ 64
        → goes_on_digits rest ≡ false
        → first_piece (hexadecimal capital_x capital_digits v ++ rest)
        ≡ (Int, length (hexadecimal capital_x capital_digits v)) }
{}
