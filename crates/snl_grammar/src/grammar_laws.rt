//! The laws of the grammar of items. A function here does nothing: its contract is the law.

ghost use Rattle.snl_grammar.specs.Grammar.Items.{IsItem};
ghost use Rattle.snl_grammar.specs.Reading.Items.{fault_of, item_of, whole_item};
ghost use Rattle.snl_grammar.specs.Tokens.{NumberedKind};
ghost use Rattle.snl_grammar.specs.Viability.{IsFaultAt, IsViable};
ghost use Rattle.snl_lex.specs.declared.kind.Kind.{Kind};
ghost use Rattle.snl_grammar.specs.declared.tree.item.Item.{Item};
ghost use Rattle.std.specs.Prelude.{◌≡◌, ℕ, ◌<◌, ◌≤◌, [], List, None, Ok, Some, length};

/// One list of tokens makes one item at most.
pub fn one_item()
    ensures { (kinds : List Kind) (t u : Item) → IsItem t kinds → IsItem u kinds → t ≡ u }
{}

/// The tree that is read of tokens is the one that the grammar has for them, and where nothing is
/// read, the grammar has none.
pub fn item_read()
    ensures read { (kinds : List Kind) (t : Item) → IsItem t kinds → item_of kinds ≡ Some t }
    ensures told { (kinds : List Kind) (t : Item) → item_of kinds ≡ Some t → IsItem t kinds }
{}

/// An item is read to the end of the tokens.
pub fn whole_items_end()
    ensures { (depth : ℕ) (tokens left : List NumberedKind) (t : Item) →
        whole_item depth tokens ≡ Ok (t, left) → left ≡ [] }
{}

/// An item can begin with all its tokens; and where it can begin with some, it can with the first
/// of them.
pub fn viable_fronts()
    ensures whole { (kinds : List Kind) (t : Item) →
        IsItem t kinds → IsViable kinds (length kinds) }
    ensures shorter { (kinds : List Kind) (n m : ℕ) →
        m ≤ n → IsViable kinds n → IsViable kinds m }
{}

/// One token of a list at most is at fault.
pub fn one_fault()
    ensures { (kinds : List Kind) (n m : ℕ) →
        IsFaultAt kinds n → IsFaultAt kinds m → n ≡ m }
{}

/// Where tokens make no item, the token that is blamed is the one at fault.
pub fn blamed_at_fault()
    ensures { (kinds : List Kind) →
        0 < length kinds → item_of kinds ≡ None → IsFaultAt kinds (fault_of kinds) }
{}
