//! A symbol of a text.

use snl_tables::Span;

/// What a symbol is.
#[derive(Clone, Copy, Debug, PartialEq, Eq)]
pub enum DocumentSymbolKind {
    Program,
    StateSet,
    State,
    /// A variable, or a name that `foreign` declares.
    Variable,
    EventFlag,
    /// A function with a body.
    Function,
}

/// A name of a text, and where what it names is.
#[derive(Clone, Copy, Debug, PartialEq, Eq)]
pub struct DocumentSymbol {
    pub kind: DocumentSymbolKind,
    pub name: Span,
    /// From the first byte of what it names to the last one: of a state set up to its `}`. What a
    /// state declares has the extent of its name.
    pub extent: Span,
    /// How many symbols it is in: at most two, a state set and a state.
    pub depth: usize,
}
