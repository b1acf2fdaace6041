//! What the name of a declaration means.

ghost use Rattle.std.specs.Prelude.{◌≡◌, ◌||◌, ℕ, IsSomeAnd, List, Some, true};
ghost use Rattle.snl_questions.specs.Items.{span_of};
ghost use Rattle.snl_kept.specs.Checks.{outlines_in};
ghost use Rattle.snl_lex.specs.declared.piece.Piece.{Piece};
ghost use Rattle.snl_questions.specs.Meanings.{meaning_of};
ghost use Rattle.snl_outline_laws.specs.Meant.{HasTokenAt};
ghost use Rattle.snl_scope.specs.declared.facts.Declaration.{Declaration};
ghost use Rattle.snl_scope.specs.Flags.{is_first_at};
ghost use Rattle.snl_scope.specs.Linked.{declaration_at};
ghost use Rattle.snl_scope.specs.Names.{entries};
ghost use Rattle.snl_scope.specs.Order.{is_named_state};
ghost use Rattle.snl_scope.specs.Places.{is_set_begin};

use snl_cut::ends_in_order;
use snl_grammar::Tokens;
use snl_lex::{pieces_as_listed, text_in_pieces};
use snl_walk::{functions_are_named_first, tokens_rise};

/// At each byte of its name, the first declaration of a name in its scope means itself, by the
/// number that it has. So do the name of a state set and that of a state.
pub fn declared_names_mean_themselves()
    ensures declaration { (text : List ℕ) (offset number : ℕ) (d : Declaration) (token : Piece)
        → declaration_at (outlines_in text) number ≡ Some d
        → is_first_at (entries (outlines_in text)) number ≡ true
        → HasTokenAt text d.item d.token offset token
        → meaning_of text offset ≡ Some (record {
          name = span_of token;
          declared = span_of token;
          number = Some number;
        }) }
    ensures item { (text : List ℕ) (offset i : ℕ) (token : Piece)
        → (is_set_begin (outlines_in text) i || is_named_state (outlines_in text) i) ≡ true
        → HasTokenAt text i 1 offset token
        → IsSomeAnd (meaning_of text offset)
        (λ m. (m.name ≡ span_of token) × (m.declared ≡ span_of token)) }
{
    text_in_pieces();
    pieces_as_listed();
    ends_in_order::<Tokens>();
    tokens_rise();
    functions_are_named_first();
}
