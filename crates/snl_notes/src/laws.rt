//! The laws of notes. A function here does nothing: its contract is the law.

ghost use Rattle.std.specs.Prelude.{◌≡◌, ℕ, List, Some, Contains, slice_get, take};
ghost use Rattle.snl_lex.specs.declared.kind.Kind.{Kind};
ghost use Rattle.snl_grammar.specs.Viability.{AreCutShort, IsFaultAt};
ghost use Rattle.snl_expected.specs.Expected.{IsWhether, comes};
ghost use Rattle.snl_expected.specs.Kinds.{all_kinds};
ghost use Rattle.snl_notes.specs.Near.{near_word};
ghost use Rattle.snl_notes.specs.NoteLaws.{IsExact, IsNearWord};

use snl_expected::{what_comes_is_viable, what_is_described_may_come};
use snl_syntax::viable_fronts;

/// A note names exactly what may come at its place.
pub fn what_is_noted_may_come()
    ensures { (before : List Kind) (next : Kind) → Contains all_kinds next → IsExact before next }
{
    what_comes_is_viable();
    what_is_described_may_come();
}

/// Something is wanted after the token at fault exactly where that is the last one and an item can
/// begin with all of them; else it is wanted in the place of that token.
pub fn missing_after_the_last()
    ensures { (kinds : List Kind) (at : ℕ) (fault : Kind) → IsFaultAt kinds at →
        slice_get kinds at ≡ Some fault →
        IsWhether (comes (take at kinds) fault) (AreCutShort kinds at) }
{
    what_comes_is_viable();
    viable_fronts();
}

/// The word that is named is one that may come, few changes of the name lead to it, and none of the
/// others is nearer.
pub fn near_words_are_nearest()
    ensures { (name : List ℕ) (kinds : List Kind) (word : Kind) →
        near_word name kinds ≡ Some word → IsNearWord name kinds word }
{}
