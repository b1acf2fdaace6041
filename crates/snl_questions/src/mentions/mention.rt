//! A mention, and a reference.

use crate::meanings::items::TokenPlace;
use snl_tables::Span;

/// A token that means something: where it is, and where that is declared which it means. A name
/// where it is declared means itself, if no earlier declaration has its name.
#[derive(Clone, Copy, Debug, PartialEq, Eq)]
pub struct Mention {
    pub at: TokenPlace,
    pub means: TokenPlace,
}

/// A mention of the name that is asked for.
#[derive(Clone, Copy, Debug, PartialEq, Eq)]
pub struct Reference {
    pub span: Span,
    /// It is the name where it is declared.
    pub is_declaration: bool,
}
