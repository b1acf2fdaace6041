//! Reads expressions.
//!
//! The rules are methods of `Expressions`, each in the file of its subject. What is a level deeper
//! they read by its field `single`, and `assignx` puts itself there.

ghost use Rattle.snl_expression.specs.Nests.{Nests};
ghost use Rattle.snl_grammar.specs.Reading.Expressions as spec;
ghost use Rattle.snl_expression.specs.Reads.{ReadsFrom};

mod assignment;
mod commas;
mod conditional;
mod leaves;
mod operands;
mod prefixes;
mod suffixes;
mod tiers;

use crate::stop::Stop;
use crate::types::type_name;
pub use leaves::texts;
use snl_grammar::tree::expression::Expr;
use snl_grammar::tree::types::TypeName;
use snl_lex::Kind;
use std::alloc::Global;

/// The rules of expressions, with the reader of what is one level deeper.
#[derive(Clone, Copy)]
pub struct Expressions<F> {
    pub alloc: Global,
    /// How many levels there are inside.
    pub depth: usize,
    /// Reads an expression without commas inside.
    pub single: F,
}

impl<F: Fn(Global, &[Kind], usize, usize) -> Result<(Expr, usize), Stop>> Expressions<F> {
    // assignx, one level deeper
    // n + 1
    fn nested(&self, kinds: &[Kind], at: usize) -> Result<(Expr, usize), Stop>
        requires { Nests self.now.depth (F.pre self.now.single) (F.post self.now.single) }
        ensures { ReadsFrom kinds.now at result (spec.assignx self.now.depth) }
    {
        (self.single)(self.alloc, kinds, at, self.depth)
    }

    // type stars, one level deeper
    // const char *
    fn nested_type(&self, kinds: &[Kind], at: usize) -> Result<(TypeName, usize), Stop>
        requires { Nests self.now.depth (F.pre self.now.single) (F.post self.now.single) }
        ensures { ReadsFrom kinds.now at result (spec.type_within self.now.depth) }
    {
        if self.depth == 0 {
            Err(Stop::Here(at))
        } else {
            type_name(self.alloc, kinds, at)
        }
    }
}

/// An expression without commas, in so many levels.
// assignx = { prefix op } cond
// n = n + 1
pub fn assignx(
    alloc: Global,
    kinds: &[Kind],
    at: usize,
    depth: usize,
) -> Result<(Expr, usize), Stop>
    ensures { ReadsFrom kinds.now at result (spec.assignx depth) }
{
    if depth == 0 {
        return Err(Stop::Here(at));
    }
    Expressions {
        alloc,
        depth: depth - 1,
        single: assignx,
    }
    .single_of(kinds, at)
}

/// An expression, in so many levels.
// expr = assignx { "," assignx }
// i = 0, j = 0
pub fn expr(alloc: Global, kinds: &[Kind], at: usize, depth: usize) -> Result<(Expr, usize), Stop>
    ensures { ReadsFrom kinds.now at result (spec.expr depth) }
{
    Expressions {
        alloc,
        depth,
        single: assignx,
    }
    .sequence(kinds, at)
}
