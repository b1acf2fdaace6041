//! Expressions.

use crate::operator::{Assignment, Binary, Sign};
use crate::tree::types::TypeName;
use sqlite_items::{Boxed, Items};

/// What comes before an operand.
#[derive(Drop)]
pub enum Prefix {
    Sign(Sign),
    Sizeof,
    Cast(Boxed<TypeName>),
}

/// What comes after an operand.
#[cycle(expression)]
#[derive(Drop)]
pub enum Suffix {
    Subscript(Expr),
    Call(Items<Expr>),
    /// `.` and a name.
    Member(usize),
    /// `->` and a name.
    Arrow(usize),
    Increment,
    Decrement,
}

/// An expression of any level. Each chain is one list, and has a link at least.
#[cycle(expression)]
#[derive(Drop)]
pub enum Expr {
    Name(usize),
    Integer(usize),
    Floating(usize),
    Character(usize),
    /// One string or more, which are joined.
    Text(Items<usize>),
    Group(Boxed<Expr>),
    SizeofType(Boxed<TypeName>),
    Postfix(Boxed<Expr>, Items<Suffix>),
    Prefixed(Items<Prefix>, Boxed<Expr>),
    /// Operators of one level, read from the left.
    Chain(Boxed<Expr>, Items<(Binary, Expr)>),
    /// The first condition; then, for each `?`, what comes before its `:` and what comes after it.
    Conditional(Boxed<Expr>, Items<(Expr, Expr)>),
    /// What is assigned to, each with its operator, and the value.
    Assigned(Items<(Expr, Assignment)>, Boxed<Expr>),
    /// Expressions with commas between.
    Sequence(Boxed<Expr>, Items<Expr>),
}
