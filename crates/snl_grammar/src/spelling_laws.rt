//! The law of the grammar and the spelling of trees. A function here does nothing: its contract is
//! the law.

ghost use Rattle.snl_grammar.specs.Grammar.Items.{IsItem};
ghost use Rattle.snl_grammar.specs.Spelling.Base.{Matches};
ghost use Rattle.snl_grammar.specs.Spelling.Items.{spell_item};
ghost use Rattle.snl_grammar.specs.Tokens.{ahead};
ghost use Rattle.snl_lex.specs.declared.kind.Kind.{Kind};
ghost use Rattle.snl_grammar.specs.declared.tree.item.Item.{Item};
ghost use Rattle.std.specs.Prelude.{List};

/// The item that tokens make by the grammar spells these tokens, one for one: each has the kind
/// that is spelled there, and each leaf is the number of its token.
pub fn item_spelled()
    ensures spelled { (t : Item) → (kinds : List Kind) →
        IsItem t kinds → Matches (spell_item t) (ahead kinds 0) }
{}
