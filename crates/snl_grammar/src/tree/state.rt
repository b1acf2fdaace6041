//! States and their members.

use crate::tree::clause::{Clause, OptionLine};
use crate::tree::declaration::Declaration;
use crate::tree::expression::Expr;
use crate::tree::statement::Member;
use sqlite_items::Items;

/// Where a transition leads.
#[derive(Clone, Copy, Debug, PartialEq, Eq)]
pub enum Target {
    /// `state` and a name.
    State(usize),
    Exit,
}

/// `when (condition) { .. } state target`
#[derive(Drop)]
pub struct Transition {
    pub condition: Option<Expr>,
    pub block: Items<Member>,
    pub target: Target,
}

#[derive(Drop)]
pub enum StateMember {
    Declaration(Declaration),
    Foreign(Items<usize>),
    Clause(Clause),
    OptionLine(OptionLine),
    Empty,
    CBlock(usize),
    Entry(Items<Member>),
    Exit(Items<Member>),
    When(Transition),
}
