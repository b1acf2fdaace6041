//! Laws of every text: what its links find, and the spans of its tables. A function here does
//! nothing: its contract is the law.

ghost use Rattle.std.specs.Prelude.{ℕ, List};
ghost use Rattle.snl_scope.specs.Linked.{faults_of};
ghost use Rattle.snl_scope.specs.Once.{AreFoundOnce};
ghost use Rattle.snl_kept.specs.Linked.{linked_of};
ghost use Rattle.snl_moved.specs.Spans.{TablesHaveBytes, TablesLieIn};
ghost use Rattle.snl_kept.specs.Program.{items_of};
ghost use Rattle.snl_kept.specs.Tables.{tables_in};

use snl_lex::text_in_pieces;
use snl_moved::spans_lie_in_text;
use snl_scope::{each_fault_once, tokens_declared_once};

/// By the links of a text's items nothing is found twice: no two findings have the same item, token
/// and code.
pub fn linked_once()
    ensures { (text : List ℕ) → AreFoundOnce (faults_of (linked_of text (items_of text))) }
{
    tokens_declared_once();
    each_fault_once();
}

/// The spans in the rows of a text's tables lie in the text, and each has a byte.
pub fn rows_have_bytes()
    ensures lie { (text : List ℕ) → TablesLieIn text (tables_in text) }
    ensures bytes { (text : List ℕ) → TablesHaveBytes (tables_in text) }
{
    text_in_pieces();
    spans_lie_in_text();
}
