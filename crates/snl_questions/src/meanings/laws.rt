//! The law of what names mean. A function here does nothing: its contract is the law.

ghost use Rattle.std.specs.Prelude.{◌≡◌, ℕ, IfSome, List};
ghost use Rattle.snl_questions.specs.Meanings.{meaning_near, meaning_of, span_bytes};

/// A name means one that is spelled like it, at an offset and near it.
pub fn names_mean_their_like()
    ensures exact { (text : List ℕ) (offset : ℕ) → IfSome
        (meaning_of text offset)
        (λ m. span_bytes text m.declared ≡ span_bytes text m.name) }
    ensures near { (text : List ℕ) (offset : ℕ) → IfSome
        (meaning_near text offset)
        (λ m. span_bytes text m.declared ≡ span_bytes text m.name) }
{}
