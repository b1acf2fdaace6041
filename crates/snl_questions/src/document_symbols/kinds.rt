//! What symbols are. In: what an item says to the others, or what a declared name stands for. Out:
//! the kind of the symbol.

ghost use Rattle.std.specs.Prelude.{◌≡◌};
ghost use Rattle.snl_scope.specs.Places.{begins_set};
ghost use Rattle.snl_questions.specs.Symbols.{declared_kind, kind_by_opening, own_kind};

use crate::document_symbols::symbol::DocumentSymbolKind;
use snl_scope::{Opening, Outline, Role, SymbolKind};

fn begins_set(role: Role) -> bool
    ensures { result ≡ begins_set role }
{
    matches!(role, Role::SetBegin)
}

// What an item is that begins with a word, where a name follows that.
fn kind_by_opening(opening: Opening) -> Option<DocumentSymbolKind>
    ensures { result ≡ kind_by_opening opening }
{
    match opening {
        Opening::Program => Some(DocumentSymbolKind::Program),
        Opening::State => Some(DocumentSymbolKind::State),
        Opening::Ss | Opening::Other => None,
    }
}

/// What an item is itself, if it is a symbol.
pub fn own_kind(outline: &Outline) -> Option<DocumentSymbolKind>
    ensures { result ≡ own_kind outline.now }
{
    if begins_set(outline.role) {
        return Some(DocumentSymbolKind::StateSet);
    }
    if outline.second.is_some() {
        kind_by_opening(outline.opening)
    } else {
        None
    }
}

/// What a declared name is.
pub fn declared_kind(symbol_kind: SymbolKind) -> DocumentSymbolKind
    ensures { result ≡ declared_kind symbol_kind }
{
    match symbol_kind {
        SymbolKind::EventFlag => DocumentSymbolKind::EventFlag,
        SymbolKind::Function => DocumentSymbolKind::Function,
        SymbolKind::Foreign | SymbolKind::Assignable | SymbolKind::Unassignable => {
            DocumentSymbolKind::Variable
        }
    }
}
