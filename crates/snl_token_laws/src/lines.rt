//! What lines are numbered, and which files they are of.

ghost use Rattle.snl_token_laws.specs.Markers.{IsNaming, NoneNames, bytes_of, file_name_at};
ghost use Rattle.snl_token_laws.specs.Unmarked.{IsPlainEnd};
ghost use Rattle.snl_token_laws.specs.Written.{EndsNumber};
ghost use Rattle.snl_lex.specs.Lines.{line_at, lines_between, marker_file, marker_number};
ghost use Rattle.snl_lex.specs.Pieces.{bytes_at, piece_end, pieces_of};
ghost use Rattle.snl_lex.specs.declared.piece.Class.TheVariants.{Marker};
ghost use Rattle.std.specs.Prelude.{◌≡◌, ◌++◌, ◌+◌, ℕ, ◌<◌, ◌≤◌, ◌⊎◌, List, Some, None, All, codes, decimal, length, slice_index};

use snl_lex::text_in_pieces;

/// A marker ends where its line ends. The line after a marker that sets a line has the marker's
/// number, and the file that the marker names; where it names none, the file of the marker's line.
pub fn lines_after_markers()
    ensures at_line_end { (text : List ℕ) → All
        (λ p. p.kind ≡ Marker
        → (piece_end p ≡ length text) ⊎ (slice_index text (piece_end p) ≡ 10))
        (pieces_of text) }
    ensures number { (text : List ℕ) → All
        (λ p. (n : ℕ) → p.kind ≡ Marker → marker_number (bytes_at text p) ≡ Some n
        → piece_end p < length text → (line_at text (piece_end p + 1)).number ≡ n)
        (pieces_of text) }
    ensures file { (text : List ℕ) → All
        (λ p. (n at len : ℕ) → p.kind ≡ Marker → marker_number (bytes_at text p) ≡ Some n
        → marker_file (bytes_at text p) ≡ Some (at, len) → piece_end p < length text
        → (line_at text (piece_end p + 1)).file ≡ Some (p.start + at, len))
        (pieces_of text) }
    ensures kept_file { (text : List ℕ) → All
        (λ p. p.kind ≡ Marker → marker_file (bytes_at text p) ≡ None → piece_end p < length text
        → (line_at text (piece_end p + 1)).file ≡ (line_at text (piece_end p)).file)
        (pieces_of text) }
{
    text_in_pieces();
}

/// A marker sets the number that is written in it after `# ` or `#line `, in decimal and at most
/// 2,147,483,647, if nothing or white space follows it.
pub fn markers_read_back()
    ensures plain { (n : ℕ) (rest : List ℕ) → n ≤ 2147483647 → EndsNumber rest
        → marker_number (codes "# " ++ (decimal n ++ rest)) ≡ Some n }
    ensures with_word { (n : ℕ) (rest : List ℕ) → n ≤ 2147483647 → EndsNumber rest
        → marker_number (codes "#line " ++ (decimal n ++ rest)) ≡ Some n }
{}

/// A marker that is written with a number and a file's name between quotes sets both. The lines
/// after it have that file, byte for byte, up to and with the line of the next marker that names
/// one. What the marker has after the name is skipped.
pub fn marker_files_read_back()
    ensures number { (n : ℕ) (file marker : List ℕ) → IsNaming n file marker
        → marker_number marker ≡ Some n }
    ensures named { (n : ℕ) (file marker : List ℕ) → IsNaming n file marker
        → bytes_of marker (marker_file marker) ≡ Some file }
    ensures file { (text : List ℕ) → All
        (λ p. (n : ℕ) (file : List ℕ) (offset : ℕ) → IsNaming n file (bytes_at text p)
        → piece_end p < offset → offset ≤ length text → NoneNames text (piece_end p) offset
        → file_name_at text offset ≡ Some file)
        (pieces_of text) }
{
    text_in_pieces();
}

/// The first line has the number 1 and no file. All of a line has one number and one file. The line
/// after it has the next number and the same file, unless a marker that sets a line is on it.
pub fn lines_rise()
    ensures first { (text : List ℕ) → (line_at text 0).number ≡ 1 }
    ensures no_file { (text : List ℕ) → (line_at text 0).file ≡ None }
    ensures one_line { (text : List ℕ) (from to : ℕ) → from ≤ to → lines_between text from to ≡ 0
        → line_at text to ≡ line_at text from }
    ensures next { (text : List ℕ) (place : ℕ) → IsPlainEnd text place
        → (line_at text (place + 1)).number ≡ (line_at text place).number + 1 }
    ensures same_file { (text : List ℕ) (place : ℕ) → IsPlainEnd text place
        → (line_at text (place + 1)).file ≡ (line_at text place).file }
{
    text_in_pieces();
}
