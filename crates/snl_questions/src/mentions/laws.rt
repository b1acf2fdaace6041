//! The laws of mentions and references. A function here does nothing: its contract is the law.

ghost use Rattle.std.specs.Prelude.{◌≡◌, ◌<◌, ℕ, All, Bool, Contains, IfSome, List, Some, length, slice_get};
ghost use Rattle.snl_lex.specs.declared.piece.Piece.{Piece};
ghost use Rattle.snl_kept.specs.Program.{item_tokens};
ghost use Rattle.snl_questions.specs.declared.meanings.items.TokenPlace.{TokenPlace};
ghost use Rattle.snl_questions.specs.Meanings.{meaning_of, span_bytes};
ghost use Rattle.snl_questions.specs.Mentions.{mentioned_at, mentions_in, references_near};

/// The mentions of a text are the tokens that mention something, each with what it mentions, and no
/// others.
pub fn mentions_are_exact()
    ensures sound { (text : List ℕ) → All (λ m. mentioned_at text m.at ≡ Some m.means)
        (mentions_in text) }
    ensures whole { (text : List ℕ) (at means : TokenPlace) (own : List Piece)
        → slice_get (item_tokens text) at.item ≡ Some own → at.token < length own
        → mentioned_at text at ≡ Some means
        → Contains (mentions_in text) (record { at = at; means = means }) }
{}

/// All references of a name are spelled alike.
pub fn references_are_spelled_alike()
    ensures { (text : List ℕ) (offset : ℕ) → All
        (λ r. All (λ s. span_bytes text s.span ≡ span_bytes text r.span)
        (references_near text offset)) (references_near text offset) }
{}

/// A name that means something is among its references.
pub fn names_are_their_references()
    ensures { (text : List ℕ) (offset : ℕ) → IfSome
        (meaning_of text offset)
        (λ m. (b : Bool) × Contains (references_near text offset)
        (record { span = m.name; is_declaration = b })) }
{}
