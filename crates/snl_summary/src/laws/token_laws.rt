//! The laws of the tokens that trees and summaries name. A function here does nothing: its contract
//! is the law.

ghost use Rattle.snl_lex.specs.declared.piece.Piece.{Piece};
ghost use Rattle.snl_summary.specs.NamedTokens.{NamesItsTokens, target_tokens};
ghost use Rattle.snl_summary.specs.RisingTokens.{TokensRise};
ghost use Rattle.snl_summary.specs.Summaries.{outline_in, summary_in};
ghost use Rattle.snl_grammar.specs.Reading.Items.{item_of};
ghost use Rattle.snl_grammar.specs.Parsing.{kinds_in};
ghost use Rattle.snl_grammar.specs.declared.tree.item.Item.{Item};
ghost use Rattle.std.specs.Prelude.{◌≡◌, ◌<◌, ℕ, All, List, None, Some, length};
ghost use Rattle.std.specs.List.Sorted.{IsStrictlyIncreasing};

use snl_grammar::{item_read, item_spelled};
use snl_walk::tokens_rise;

/// The tree that is read of tokens names none but these tokens.
pub fn names_are_tokens()
    ensures { (text : List ℕ) (tokens : List Piece) (t : Item)
        → item_of (kinds_in text tokens) ≡ Some t → NamesItsTokens text tokens t }
{
    item_read();
    item_spelled();
    tokens_rise();
}

/// The targets in the summary of an item are at tokens of the item, each at a later one than the
/// target before it.
pub fn targets_rise()
    ensures rise { (text : List ℕ) (tokens : List Piece) (t : Item)
        → item_of (kinds_in text tokens) ≡ Some t
        → IsStrictlyIncreasing (target_tokens (summary_in text tokens (Some t))) }
    ensures own { (text : List ℕ) (tokens : List Piece) (t : Item)
        → item_of (kinds_in text tokens) ≡ Some t
        → All (λ n. n < length tokens) (target_tokens (summary_in text tokens (Some t))) }
{
    tokens_rise();
}

/// In the outline of an item, no two declarations are at one token, nor are the variables of two
/// clauses, nor the flags of two. A faulty item has none of them.
pub fn tokens_declared_once()
    ensures tree { (text : List ℕ) (tokens : List Piece) (t : Item)
        → item_of (kinds_in text tokens) ≡ Some t → TokensRise (outline_in text tokens (Some t)) }
    ensures faulty { (text : List ℕ) (tokens : List Piece)
        → TokensRise (outline_in text tokens None) }
{
    item_read();
    item_spelled();
}
