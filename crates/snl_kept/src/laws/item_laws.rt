//! The law of an edit inside one item that says to the others what it said. A function here does
//! nothing: its contract is the law.

ghost use Rattle.snl_lex.specs.declared.line_shift.LineShift.{LineShift};
ghost use Rattle.snl_lex.specs.Edit.{Edit};
ghost use Rattle.snl_kept.specs.ReplacedItem.{IsInside, IsOneReplaced};
ghost use Rattle.snl_kept.specs.declared.entries.Entry.{Entry};
ghost use Rattle.snl_kept.specs.declared.plan.Changes.{Changes};

use snl_cut::ends_in_order;
use snl_grammar::{Tokens, outcome_told, same_spelling_same_tree};
use snl_item_check::equal_views;
use snl_items::tokens_around_stay;
use snl_lex::{lines_move, text_in_pieces};
use snl_scope::same_spelling_same_summary;
use snl_views::views_told_apart;

/// Such an edit replaces one item. The others are shifted and say what they said, and none of these
/// is to be checked.
pub fn one_item_replaced()
    ensures { (edit : Edit) (c : Changes) (t : LineShift) (x e : Entry) → IsInside edit c t x e
        → IsOneReplaced edit c t x e }
{
    text_in_pieces();
    outcome_told();
    same_spelling_same_tree();
    same_spelling_same_summary();
    views_told_apart();
    equal_views();
    lines_move();
    tokens_around_stay();
    ends_in_order::<Tokens>();
}
