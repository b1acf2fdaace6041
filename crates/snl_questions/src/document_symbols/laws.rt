//! The laws of how symbols lie in one another. A function here does nothing of its own: its
//! contract is the law.

ghost use Rattle.std.specs.Prelude.{ℕ, All, List};
ghost use Rattle.snl_questions.specs.Extents.{ChildrenLieWithin, NameLiesWithin};
ghost use Rattle.snl_questions.specs.Symbols.{symbols_of};

use snl_cut::ends_in_order;
use snl_grammar::Tokens;
use snl_lex::{pieces_as_listed, text_in_pieces};
use snl_scope::{names_are_tokens, sets_open_in_turn};

/// The name of each symbol lies within its extent, and has a byte.
pub fn names_lie_in_extents()
    ensures { (text : List ℕ) → All NameLiesWithin (symbols_of text) }
{
    text_in_pieces();
    pieces_as_listed();
    ends_in_order::<Tokens>();
}

/// The extents of what belongs to a symbol lie within its extent: of the symbols that follow it and
/// are deeper, up to the first that isn't.
pub fn children_lie_in_parents()
    ensures { (text : List ℕ) → ChildrenLieWithin (symbols_of text) }
{
    text_in_pieces();
    pieces_as_listed();
    ends_in_order::<Tokens>();
    names_are_tokens();
    sets_open_in_turn();
}
