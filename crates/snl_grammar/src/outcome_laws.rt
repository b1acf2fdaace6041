//! The laws of what the parser makes of an item. A function here does nothing: its contract is the
//! law.

ghost use Rattle.snl_lex.specs.PieceList.{spelled};
ghost use Rattle.snl_lex.specs.declared.piece.Piece.{Piece};
ghost use Rattle.snl_grammar.specs.Outcome.{BlamesWithin, parsed_by, parsed_in, sound_tree};
ghost use Rattle.snl_grammar.specs.Parsing.{is_bad, kinds_in};
ghost use Rattle.snl_grammar.specs.Reading.Items.{item_of};
ghost use Rattle.std.specs.List.{list_any};
ghost use Rattle.std.specs.Prelude.{◌≡◌, ℕ, ◌<◌, List, None, if◌then◌else◌, length, position};

/// Tokens that are spelled alike make the same item, whichever texts they are in: what parsing says
/// goes by their spelling alone.
pub fn same_spelling_same_tree()
    ensures kinds { (text moved : List ℕ) (tokens shifted : List Piece) →
        spelled text tokens ≡ spelled moved shifted →
        kinds_in text tokens ≡ kinds_in moved shifted }
    ensures bad { (text moved : List ℕ) (tokens shifted : List Piece) →
        spelled text tokens ≡ spelled moved shifted →
        position is_bad tokens ≡ position is_bad shifted }
    ensures same { (text moved : List ℕ) (tokens shifted : List Piece) →
        spelled text tokens ≡ spelled moved shifted →
        parsed_in text tokens ≡ parsed_in moved shifted }
    ensures by_spelling { (text : List ℕ) (tokens : List Piece) →
        parsed_in text tokens ≡ parsed_by (spelled text tokens) }
{}

/// An item has a tree exactly where none of its tokens is faulty and the grammar has a tree for
/// them; a token that is blamed is one of the item's own.
pub fn outcome_told()
    ensures tree { (text : List ℕ) (tokens : List Piece) →
        sound_tree (parsed_in text tokens)
        ≡ (if list_any is_bad tokens then None else item_of (kinds_in text tokens)) }
    ensures within { (text : List ℕ) (tokens : List Piece) → 0 < length tokens →
        BlamesWithin (length tokens) (parsed_in text tokens) }
{}
