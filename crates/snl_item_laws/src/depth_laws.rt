//! How deep brackets are in items. A function here does nothing: its contract is the law.

ghost use Rattle.std.specs.Prelude.{ℕ, ◌<◌, List, length};
ghost use Rattle.snl_lex.specs.declared.kind.Kind.{Kind};
ghost use Rattle.snl_grammar.specs.Grammar.Items.{IsItem};
ghost use Rattle.snl_grammar.specs.declared.tree.item.Item.{Item};
ghost use Rattle.snl_item_laws.specs.Brackets.{IsWithin};

/// Around no token of an item of the grammar are more than 100 brackets open, round, square and
/// curly ones together.
pub fn few_brackets_are_open()
    ensures { (kinds : List Kind) (tree : Item) → IsItem tree kinds → (n : ℕ) → n < length kinds
        → IsWithin 100 kinds n }
{}
