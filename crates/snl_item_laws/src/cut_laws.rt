//! The cut and the grammar agree. A function here does nothing: its contract is the law.

ghost use Rattle.std.specs.Prelude.{◌≡◌, ◌++◌, ◌<◌, List, false, length, true};
ghost use Rattle.snl_lex.specs.declared.kind.Kind.{Kind};
ghost use Rattle.snl_grammar.specs.Grammar.Items.{IsItem};
ghost use Rattle.snl_grammar.specs.Items.{item};
ghost use Rattle.snl_grammar.specs.declared.marks.Mark.{Mark};
ghost use Rattle.snl_grammar.specs.declared.tree.item.Item.{Item};
ghost use Rattle.snl_item_laws.specs.Cuts.{could_go_on, marks_of};

use snl_grammar::{first_item, item_spelled};

/// The tokens of an item of the grammar are cut as one item, whatever follows them: but for a
/// header without texts where a parenthesis follows, which could begin its texts. This one takes
/// more tokens.
pub fn items_are_cut_whole()
    ensures whole { (kinds : List Kind) (tree : Item) (rest : List Mark) → IsItem tree kinds
        → could_go_on tree rest ≡ false
        → item (marks_of kinds ++ rest) ≡ length kinds }
    ensures more { (kinds : List Kind) (tree : Item) (rest : List Mark) → IsItem tree kinds
        → could_go_on tree rest ≡ true
        → length kinds < item (marks_of kinds ++ rest) }
{
    first_item();
    item_spelled();
}
