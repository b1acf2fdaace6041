//! The laws of the cut into items. A function here only names a law of every cut: its contract is
//! the law.

ghost use Rattle.snl_cut.specs.Cut.{EachFirst, IsCut, ends_of, in_a_row, members};
ghost use Rattle.snl_grammar.specs.ItemLaws.{IsLeast};
ghost use Rattle.snl_grammar.specs.Items.{ends_after, item};
ghost use Rattle.snl_grammar.specs.declared.marks.Mark.{Mark};
ghost use Rattle.std.specs.Prelude.{◌≡◌, ℕ, ◌<◌, ◌≤◌, List, length};

use crate::item_cut::Tokens;
use snl_cut::one_cut;

/// The first item has a token at least, ends where it has to, and no item ends before.
pub fn first_item()
    ensures within { (tokens : List Mark) → 0 < length tokens → item tokens ≤ length tokens }
    ensures least { (tokens : List Mark) → 0 < length tokens →
        IsLeast (ends_after tokens) 1 (item tokens) }
{}

/// The tokens of any text have one cut into items and no other. Its items follow one another, and
/// each is the first item of what is left from it on.
pub fn tokens_in_items()
    ensures cut { (tokens : List Mark) → IsCut item tokens (ends_of item tokens) }
    ensures only { (tokens : List Mark) (ends : List ℕ) →
        IsCut item tokens ends → ends ≡ ends_of item tokens }
    ensures joined { (tokens : List Mark) →
        in_a_row (members tokens 0 (ends_of item tokens)) ≡ tokens }
    ensures first { (tokens : List Mark) →
        EachFirst item (members tokens 0 (ends_of item tokens)) }
{
    one_cut::<Tokens>();
}
