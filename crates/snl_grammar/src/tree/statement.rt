//! Statements and blocks.

use crate::tree::declaration::Declaration;
use crate::tree::expression::Expr;
use sqlite_items::{Boxed, Items};

/// A member of a block.
#[cycle(statement)]
#[derive(Drop)]
pub enum Member {
    Declaration(Declaration),
    Statement(Stmt),
}

/// What the brackets of a `for` hold.
#[derive(Drop)]
pub struct ForHead {
    pub first: Option<Expr>,
    pub condition: Option<Expr>,
    pub step: Option<Expr>,
}

#[cycle(statement)]
#[derive(Drop)]
pub enum Stmt {
    Empty,
    Expr(Expr),
    Block(Items<Member>),
    CCode(usize),
    /// One condition and its statement, or more with `else if` between; then the statement after a
    /// last `else`.
    If(Items<(Expr, Stmt)>, Option<Boxed<Stmt>>),
    While(Expr, Boxed<Stmt>),
    For(Boxed<ForHead>, Boxed<Stmt>),
    /// The number is that of the word itself.
    Break(usize),
    /// The number is that of the word itself.
    Continue(usize),
    Return(Option<Expr>),
    State { word: usize, name: usize },
}
