//! What the references of two names have in common, and what each of them leads to.

ghost use Rattle.std.specs.Prelude.{◌≡◌, ℕ, Contains, List};
ghost use Rattle.snl_questions.specs.declared.mentions.mention.Reference.{Reference};
ghost use Rattle.snl_questions.specs.Mentions.{references_near};

use snl_cut::ends_in_order;
use snl_grammar::Tokens;
use snl_lex::{pieces_as_listed, text_in_pieces};
use snl_questions::mentions_are_exact;

/// Two names have the same references, or no token is a reference of both.
pub fn references_are_apart()
    ensures { (text : List ℕ) (offset other : ℕ) (r s : Reference)
        → Contains (references_near text offset) r → Contains (references_near text other) s
        → r.span ≡ s.span → references_near text offset ≡ references_near text other }
{
    text_in_pieces();
    pieces_as_listed();
    ends_in_order::<Tokens>();
    mentions_are_exact();
}

/// Whichever of its references is asked for, a name has the same references.
pub fn references_lead_to_all()
    ensures { (text : List ℕ) (offset : ℕ) (r : Reference)
        → Contains (references_near text offset) r
        → references_near text r.span.start ≡ references_near text offset }
{
    text_in_pieces();
    pieces_as_listed();
    ends_in_order::<Tokens>();
    mentions_are_exact();
}
