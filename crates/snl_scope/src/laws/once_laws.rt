//! The laws of findings that are made once, and of where they are. A function here does nothing:
//! its contract is the law.

ghost use Rattle.snl_lex.specs.declared.piece.Piece.{Piece};
ghost use Rattle.snl_scope.specs.FaultPlaces.{IsPlaced, SpeaksOfTokens};
ghost use Rattle.snl_scope.specs.LinkedItems.{LinkedItems};
ghost use Rattle.snl_scope.specs.Linked.{faults_of};
ghost use Rattle.snl_scope.specs.Once.{AreFoundOnce};
ghost use Rattle.snl_summary.specs.RisingTokens.{TokensRise};
ghost use Rattle.snl_summary.specs.Summaries.{outline_in};
ghost use Rattle.snl_grammar.specs.Reading.Items.{item_of};
ghost use Rattle.snl_grammar.specs.Parsing.{kinds_in};
ghost use Rattle.snl_grammar.specs.declared.tree.item.Item.{Item};
ghost use Rattle.std.specs.Prelude.{◌≡◌, ◌<◌, ℕ, All, IfSome, List, None, Some, length, slice_get};

use snl_grammar::{item_read, item_spelled};

/// Where the tokens of each outline rise, no finding of the links comes twice: no two have the same
/// item, token and code.
pub fn each_fault_once()
    ensures { (l : LinkedItems) → All TokensRise l.outlines → AreFoundOnce (faults_of l) }
{}

/// The outline of an item speaks of tokens of the item alone.
pub fn outlines_speak_of_tokens()
    ensures tree { (text : List ℕ) (tokens : List Piece) (t : Item)
        → 0 < length tokens → item_of (kinds_in text tokens) ≡ Some t
        → SpeaksOfTokens (length tokens) (outline_in text tokens (Some t)) }
    ensures faulty { (text : List ℕ) (tokens : List Piece)
        → 0 < length tokens → SpeaksOfTokens (length tokens) (outline_in text tokens None) }
{
    item_read();
    item_spelled();
}

/// Where each outline speaks of tokens of its item alone, each finding of the links is at a token
/// of an item, but for what is missing altogether.
pub fn faults_have_places()
    ensures { (l : LinkedItems) (counts : ℕ → ℕ)
        → ((i : ℕ) → IfSome (slice_get l.outlines i) (SpeaksOfTokens (counts i)))
        → All (IsPlaced counts l.outlines) (faults_of l) }
{}
