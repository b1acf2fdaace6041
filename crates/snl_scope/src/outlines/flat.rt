//! The elements of flat lists of outlines. A name is told by its number in a book of names.

use snl_summary::{ClauseKind, Coverage, Opening, Role, Variable};

/// What an outline says beside its declarations and clauses, and how many it has of these.
#[derive(Clone, Copy)]
pub(crate) struct FlatOutline {
    /// The second token, if that is a name.
    pub second: Option<usize>,
    pub declares: usize,
    pub clauses: usize,
    pub role: Role,
    pub opening: Opening,
}

/// A name that an item declares outside its blocks.
#[derive(Clone, Copy)]
pub(crate) struct FlatDeclared {
    pub name: usize,
    pub token: usize,
    pub variable: Variable,
}

/// A name that is at a token.
#[derive(Clone, Copy)]
pub(crate) struct FlatRef {
    pub name: usize,
    pub token: usize,
}

/// A clause on a variable.
#[derive(Clone, Copy)]
pub(crate) struct FlatClause {
    pub variable: FlatRef,
    pub flag: Option<FlatRef>,
    pub coverage: Coverage,
    pub kind: ClauseKind,
}
