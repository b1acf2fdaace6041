//! The laws of the pieces of a text. A function here does nothing: its contract is the law.

ghost use Rattle.snl_cut.specs.Cut.{IsCut, IsEdit, IsRecut};
ghost use Rattle.snl_lex.specs.PieceList.{last_pieces, listed_pieces, piece_ends, piece_kinds, spelled, tokens_spelled};
ghost use Rattle.snl_lex.specs.Pieces.{HasOwnBytes, LiesIn, bytes_at, first_piece, is_token, moved_piece, piece_end, piece_length, pieces_of};
ghost use Rattle.snl_lex.specs.Alphabet.{is_digit, is_in_line, is_letter, is_stray, is_white, is_word_byte};
ghost use Rattle.snl_lex.specs.Classes.{HasItsClass};
ghost use Rattle.snl_lex.specs.Longest.{ClosesFirst, IsLongestPunctuator, IsLongestNumber, IsLongestRun, IsRunOf, IsString};
ghost use Rattle.snl_lex.specs.Numbers.{number_class};
ghost use Rattle.snl_lex.specs.Kinds.{is_word, kind_of, look_up, punctuators, words};
ghost use Rattle.std.specs.Prelude.{◌≡◌, ℕ, ◌<◌, ◌⊎◌, true, List, All, codes, if◌then◌else◌, length, map, slice_index, take};
ghost use Rattle.std.specs.List.{flat_map};
ghost use Rattle.snl_lex.specs.declared.kind.Kind.TheVariants as kind;
ghost use Rattle.snl_lex.specs.declared.piece.Class.TheVariants.{White, Comment, Marker, CCode, Name, Word, Text, CharLit, Punct, Bad};

/// The pieces of any text are its cut: joined they are the text, each lies in it and has a byte,
/// and each has the class that the text tells from where it begins, and bytes of that class alone.
pub fn text_in_pieces()
    ensures cut { (text : List ℕ) → IsCut piece_length text (map piece_end (pieces_of text)) }
    ensures joined { (text : List ℕ) → flat_map (bytes_at text) (pieces_of text) ≡ text }
    ensures inside { (text : List ℕ) → All (LiesIn text) (pieces_of text) }
    ensures class { (text : List ℕ) → All (HasItsClass text) (pieces_of text) }
    ensures own_bytes { (text : List ℕ) → All (HasOwnBytes text) (pieces_of text) }
{}

/// The pieces of any text are those that their ends and classes say: each begins where the one
/// before it ends.
pub fn pieces_as_listed()
    ensures { (text : List ℕ) → listed_pieces 0 (piece_ends text) (piece_kinds text) ≡ pieces_of text }
{}

/// What an edit keeps of the pieces has in the new text the bytes that it had: the pieces at the
/// front in their place, and those at the back moved. So are their tokens spelled as before.
pub fn kept_as_spelled()
    ensures front { (old text : List ℕ) (start old_stop new_stop front : ℕ) (made : List ℕ) (back : ℕ)
        → IsEdit old text start old_stop new_stop → IsRecut piece_length old (piece_ends old) text start old_stop new_stop front made back
        → spelled text (take front (pieces_of old)) ≡ spelled old (take front (pieces_of old)) }
    ensures front_tokens { (old text : List ℕ) (start old_stop new_stop front : ℕ) (made : List ℕ) (back : ℕ)
        → IsEdit old text start old_stop new_stop → IsRecut piece_length old (piece_ends old) text start old_stop new_stop front made back
        → tokens_spelled text (take front (pieces_of old)) ≡ tokens_spelled old (take front (pieces_of old)) }
    ensures back { (old text : List ℕ) (start old_stop new_stop front : ℕ) (made : List ℕ) (back : ℕ)
        → IsEdit old text start old_stop new_stop → IsRecut piece_length old (piece_ends old) text start old_stop new_stop front made back
        → spelled text (map (moved_piece old_stop new_stop) (last_pieces old back)) ≡ spelled old (last_pieces old back) }
    ensures back_tokens { (old text : List ℕ) (start old_stop new_stop front : ℕ) (made : List ℕ) (back : ℕ)
        → IsEdit old text start old_stop new_stop → IsRecut piece_length old (piece_ends old) text start old_stop new_stop front made back
        → tokens_spelled text (map (moved_piece old_stop new_stop) (last_pieces old back)) ≡ tokens_spelled old (last_pieces old back) }
{}

/// What the first piece of a text reaches, by the bytes that the text begins with: white space, a
/// name or word, a marker, a comment or C code of one line and stray bytes are the longest run of
/// their set; a comment or C code with a closing pair ends with the first one; a string ends with
/// the first quote that no backslash takes, unless a line ends before it; a number is its longest
/// number run, and a punctuator the longest of the punctuators that the text begins with.
pub fn first_piece_reaches()
    ensures white { (text : List ℕ) → 0 < length text → is_white (slice_index text 0) ≡ true → IsRunOf White is_white text (first_piece text) }
    ensures name { (text : List ℕ) → 0 < length text → is_letter (slice_index text 0) ≡ true
        → ((first_piece text).0 ≡ (if is_word (take (first_piece text).1 text) then Word else Name)) × IsLongestRun is_word_byte text (first_piece text).1 }
    ensures marker { (text : List ℕ) → slice_index text 0 ≡ 35 → IsRunOf Marker is_in_line text (first_piece text) }
    ensures line_comment { (text : List ℕ) → take 2 text ≡ codes "//" → IsRunOf Comment is_in_line text (first_piece text) }
    ensures line_code { (text : List ℕ) → take 2 text ≡ codes "%%" → IsRunOf CCode is_in_line text (first_piece text) }
    ensures comment { (text : List ℕ) → take 2 text ≡ codes "/*" → ClosesFirst Comment 42 47 text (first_piece text) }
    ensures code { (text : List ℕ) → take 2 text ≡ codes "%{" → ClosesFirst CCode 125 37 text (first_piece text) }
    ensures number { (text : List ℕ) → 0 < length text → (is_digit (slice_index text 0) ≡ true) ⊎ ((slice_index text 0 ≡ 46) × (is_digit (slice_index text 1) ≡ true))
        → ((first_piece text).0 ≡ number_class (take (first_piece text).1 text)) × IsLongestNumber text (first_piece text).1 }
    ensures punctuator { (text : List ℕ) → 0 < length text → (first_piece text).0 ≡ Punct → IsLongestPunctuator text (first_piece text).1 }
    ensures string { (text : List ℕ) → slice_index text 0 ≡ 34 → IsString Text 34 text (first_piece text) }
    ensures character { (text : List ℕ) → slice_index text 0 ≡ 39 → IsString CharLit 39 text (first_piece text) }
    ensures stray { (text : List ℕ) → 0 < length text → is_stray (slice_index text 0) ≡ true → IsRunOf Bad is_stray text (first_piece text) }
{}

/// The lexer and the grammar have one table of words and punctuators: each word and each punctuator
/// of a text is in it, and no name is a word of it. So a token is faulty to the grammar only where
/// its piece is.
pub fn tokens_have_kinds()
    ensures words { (text : List ℕ) → All (λ p. p.kind ≡ Word → look_up words (bytes_at text p) ≡ kind.Bad → ⊥) (pieces_of text) }
    ensures punctuators { (text : List ℕ) → All (λ p. p.kind ≡ Punct → look_up punctuators (bytes_at text p) ≡ kind.Bad → ⊥) (pieces_of text) }
    ensures names { (text : List ℕ) → All (λ p. p.kind ≡ Name → look_up words (bytes_at text p) ≡ kind.Bad) (pieces_of text) }
    ensures faulty { (text : List ℕ) → All (λ p. is_token p ≡ true → kind_of p.kind (bytes_at text p) ≡ kind.Bad → p.kind ≡ Bad) (pieces_of text) }
{}
