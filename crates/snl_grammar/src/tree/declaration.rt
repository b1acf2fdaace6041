//! Declarations, parameters and initialisers.

use crate::tree::expression::Expr;
use crate::tree::types::{Pointer, QualifiedType};
use sqlite_items::{Boxed, Items};

/// The value that a declarator begins with.
#[derive(Drop)]
pub enum Init {
    Value(Expr),
    /// Values in braces, and whether a comma ends them.
    List(Items<Init>, bool),
}

/// A name that is declared, with what is around it. A length may be missing.
#[derive(Drop)]
pub struct Declarator {
    pub pointers: Items<Pointer>,
    pub name: usize,
    pub lengths: Items<Option<Expr>>,
    pub init: Option<Boxed<Init>>,
}

/// A type, and one declarator or more.
#[derive(Drop)]
pub struct Declaration {
    pub of: QualifiedType,
    pub declarators: Items<Declarator>,
}

/// A parameter of a function.
#[derive(Drop)]
pub struct Parameter {
    pub of: QualifiedType,
    pub pointers: Items<Pointer>,
    pub name: Option<usize>,
    pub lengths: Items<Option<Expr>>,
}
