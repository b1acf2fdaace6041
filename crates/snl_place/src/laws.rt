//! Laws of places, for every text. A function here does nothing: its contract is the law.

ghost use Rattle.snl_place.specs.declared.places.Encoding.{Encoding};
ghost use Rattle.snl_place.specs.declared.places.Encoding.TheVariants.{Utf8, Utf16};
ghost use Rattle.snl_place.specs.declared.places.Place.{Place};
ghost use Rattle.snl_place.specs.Places.{CutsNoLineEnd, IsNotAfter, IsOneLine};
ghost use Rattle.snl_place.specs.Places.{offset_in, place_in};
ghost use Rattle.snl_lists.specs.Moves.{replaced};
ghost use Rattle.std.specs.Char.Escape.{encode_utf16};
ghost use Rattle.std.specs.Prelude.{◌≡◌, ℕ, ◌+◌, ◌<◌, ◌≤◌, ◌==◌, ◌∷◌, ◌++◌, List, All};
ghost use Rattle.std.specs.Prelude.{count_by, length, take};
ghost use Rattle.std.specs.List.{flat_map};
ghost use Rattle.std.specs.Str.{IsCharBoundary, IsUtf8, encode_utf8_all};

/// The offset of an offset's place is that offset, wherever a character begins and no line's end is
/// cut.
pub fn places_return()
    ensures { (encoding : Encoding) (text : List ℕ) (offset : ℕ)
        → IsCharBoundary text offset → CutsNoLineEnd text offset
        → offset_in encoding (place_in encoding (take offset text)).line
        (place_in encoding (take offset text)).character text
        ≡ offset }
{}

/// The offset of a place is where a character begins, or the text ends, and cuts no line's end,
/// whatever the place. So it has a place of its own, from which it is found again.
pub fn offsets_are_whole()
    ensures boundary { (encoding : Encoding) (text : List ℕ) (place : Place)
        → IsCharBoundary text (offset_in encoding place.line place.character text) }
    ensures line_end { (encoding : Encoding) (text : List ℕ) (place : Place)
        → CutsNoLineEnd text (offset_in encoding place.line place.character text) }
{}

/// An earlier offset has no later place.
pub fn places_rise()
    ensures { (encoding : Encoding) (text : List ℕ) (earlier later : ℕ) → earlier ≤ later
        → IsNotAfter (place_in encoding (take earlier text))
        (place_in encoding (take later text)) }
{}

/// A later place has no earlier offset. So a range whose start isn't after its end is one of bytes.
pub fn offsets_rise()
    ensures { (encoding : Encoding) (text : List ℕ) (earlier later : Place)
        → IsNotAfter earlier later
        → offset_in encoding earlier.line earlier.character text
        ≤ offset_in encoding later.line later.character text }
{}

/// A place after the last line is at the text's end.
pub fn late_places_end_the_text()
    ensures { (encoding : Encoding) (text : List ℕ) (place : Place)
        → count_by (λ b. b == 10) text < place.line
        → offset_in encoding place.line place.character text ≡ length text }
{}

/// The line of a place is the number of the LFs before it, whatever it counts in the line.
pub fn lines_agree()
    ensures counted { (encoding : Encoding) (bytes : List ℕ)
        → (place_in encoding bytes).line ≡ count_by (λ b. b == 10) bytes }
    ensures agree { (one other : Encoding) (bytes : List ℕ)
        → (place_in one bytes).line ≡ (place_in other bytes).line }
{}

/// Each line is counted anew: what is before its LF adds lines, and no units.
pub fn lines_begin_anew()
    ensures { (encoding : Encoding) (before line : List ℕ) → IsOneLine line
        → place_in encoding (before ++ 10 ∷ line)
        ≡ record {
          line = count_by (λ b. b == 10) before + 1;
          character = (place_in encoding line).character;
        } }
{}

/// In ASCII a place counts bytes, whatever it counts elsewhere.
pub fn ascii_counts_alike()
    ensures { (bytes : List ℕ) → All (λ b. b < 128) bytes
        → place_in Utf8 bytes ≡ place_in Utf16 bytes }
{}

/// What is counted in a line is the code units of its characters, as many as their encoding has.
pub fn characters_counted()
    ensures utf8 { (characters : List ℕ) → IsOneLine characters
        → place_in Utf8 (encode_utf8_all characters)
        ≡ record { line = 0; character = length (encode_utf8_all characters) } }
    ensures utf16 { (characters : List ℕ) → IsOneLine characters
        → place_in Utf16 (encode_utf8_all characters)
        ≡ record { line = 0; character = length (flat_map encode_utf16 characters) } }
{}

/// A text stays text where text comes in the place of what is between two places of it.
pub fn edits_keep_text()
    ensures { (encoding : Encoding) (text new : List ℕ) (start stop : Place)
        → IsUtf8 text → IsUtf8 new
        → IsUtf8 (replaced text (offset_in encoding start.line start.character text)
        (offset_in encoding stop.line stop.character text) new) }
{}
