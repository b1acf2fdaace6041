//! What links answer: facts of names, declarations, clauses and findings.

use snl_codes::Code;
use snl_summary::{ClauseKind, Coverage, Dims, Variable};

/// The scope in which a name is declared.
#[derive(Clone, Copy, Debug, PartialEq, Eq)]
pub enum Level {
    Program,
    StateSet,
}

/// What a declared name stands for, as far as other items can tell.
#[derive(Clone, Copy, Debug, PartialEq, Eq)]
pub enum NameKind {
    EventFlag,
    Foreign,
    Function,
    Other,
}

/// To what a variable is assigned.
#[derive(Clone, Copy, Debug, PartialEq, Eq)]
pub enum Assigned {
    Unassigned,
    Whole,
    Elements,
}

/// What a name means to an item.
#[derive(Clone, Copy, Debug, PartialEq, Eq)]
pub struct Fact {
    pub dims: Dims,
    pub level: Level,
    pub kind: NameKind,
    pub assigned: Assigned,
}

/// The scope that a declaration outside blocks is in. A state set is told by the number of its `ss
/// NAME {` item, and a state by that of its own item.
#[derive(Clone, Copy, Debug, PartialEq, Eq)]
pub enum Scope {
    Program,
    StateSet(usize),
    State(usize),
}

/// A declaration outside blocks: where it is, the token of its name in the item, and what it says
/// of the name.
#[derive(Clone, Copy, Debug, PartialEq, Eq)]
pub struct Declaration {
    pub scope: Scope,
    pub item: usize,
    pub token: usize,
    pub variable: Variable,
}

/// A finding at a token of an item. What is missing altogether is at token 0 after the last item.
#[derive(Clone, Copy, Debug, PartialEq, Eq)]
pub struct LinkFault {
    pub item: usize,
    pub token: usize,
    pub code: Code,
}

/// A clause of an item, with the token of its variable: what its variable and its flag resolve to,
/// by the numbers of declarations, and whether it is sound.
#[derive(Clone, Copy, Debug, PartialEq, Eq)]
pub struct ClauseLink {
    pub item: usize,
    pub token: usize,
    pub kind: ClauseKind,
    pub coverage: Coverage,
    pub variable: Option<usize>,
    pub flag: Option<usize>,
    pub is_sound: bool,
}
