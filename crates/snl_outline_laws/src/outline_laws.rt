//! What the tables have is in the outline.

ghost use Rattle.std.specs.Prelude.{ℕ, All, List};
ghost use Rattle.snl_kept.specs.Tables.{tables_in};
ghost use Rattle.snl_outline_laws.specs.Outlined.{HasSymbol};
ghost use Rattle.snl_questions.specs.declared.document_symbols.symbol.DocumentSymbolKind.TheVariants.{EventFlag, State, StateSet};
ghost use Rattle.snl_questions.specs.Symbols.{symbols_of};

use snl_cut::ends_in_order;
use snl_grammar::Tokens;
use snl_lex::{pieces_as_listed, text_in_pieces};
use snl_scope::names_are_tokens;

/// Each state set in the tables of a text, each state of it and each event flag is in the outline,
/// by the same name.
pub fn tables_are_outlined()
    ensures sets { (text : List ℕ)
        → All (λ set. HasSymbol (symbols_of text) StateSet set.name) (tables_in text).sets }
    ensures states { (text : List ℕ)
        → All (λ set. All (λ state. HasSymbol (symbols_of text) State state.name) set.states)
        (tables_in text).sets }
    ensures flags { (text : List ℕ)
        → All (λ flag. HasSymbol (symbols_of text) EventFlag flag.name) (tables_in text).flags }
{
    text_in_pieces();
    pieces_as_listed();
    ends_in_order::<Tokens>();
    names_are_tokens();
}
