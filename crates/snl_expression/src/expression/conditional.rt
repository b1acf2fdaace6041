//! Reads conditional expressions.
#![tactic(auto, unfolding(crate::proofs::Opened::Expressions::conditional))]

ghost use Rattle.std.specs.Prelude.{◌≡◌, [], IfOk};
ghost use Rattle.snl_expression.specs.Nests.{Nests};
ghost use Rattle.snl_grammar.specs.Reading.Expressions as spec;
ghost use Rattle.snl_grammar.specs.Steps as read;
ghost use Rattle.snl_expression.specs.Reads.{ReadsFrom};

use crate::expression::Expressions;
use crate::lists::many;
use crate::stop::Stop;
use crate::token_steps::{beside, expect, kind_at, past};
use snl_grammar::tree::expression::Expr;
use snl_lex::Kind;
use sqlite_items::{Boxed, Items};
use std::alloc::{AllocError, Global};

/// The loosest tier of binary operators.
const LOOSEST: usize = 10;

/// A condition with the arms after it.
fn conditional(alloc: Global, first: Expr, arms: Items<(Expr, Expr)>) -> Result<Expr, AllocError>
    ensures { IfOk result (λ e. e ≡ spec.conditional first arms) }
{
    if arms.is_empty() {
        Ok(first)
    } else {
        Ok(Expr::Conditional(Boxed::new(alloc, first)?, arms))
    }
}

impl<F: Fn(Global, &[Kind], usize, usize) -> Result<(Expr, usize), Stop>> Expressions<F> {
    // [ "?" expr ":" or ]
    // ? 1 : 2
    fn next_arm(&self, kinds: &[Kind], at: usize) -> Result<(Option<(Expr, Expr)>, usize), Stop>
        requires { Nests self.now.depth (F.pre self.now.single) (F.post self.now.single) }
        ensures { ReadsFrom kinds.now at result (spec.inside self.now.depth spec.next_arm) }
    {
        match kind_at(kinds, at) {
            Some(Kind::Question) => {
                let at = expect(kinds, at, Kind::Question)?;
                let (x, at) = self.sequence(kinds, at)?;
                let (x, at) = past(kinds, at, Kind::Colon, x)?;
                let (arm, at) = beside(x, self.operand(kinds, at, LOOSEST))?;
                Ok((Some(arm), at))
            }
            _ => Ok((None, at)),
        }
    }

    // { "?" expr ":" or }
    // ? 1 : b ? 2 : 3
    fn arms(&self, kinds: &[Kind], start: usize) -> Result<(Items<(Expr, Expr)>, usize), Stop>
        requires { Nests self.now.depth (F.pre self.now.single) (F.post self.now.single) }
        ensures { ReadsFrom kinds.now start result
            (read.many (spec.inside self.now.depth spec.next_arm) []) }
    {
        many(
            self.alloc,
            kinds,
            start,
            Items::new(self.alloc),
            |kinds, at| self.next_arm(kinds, at),
        )
    }

    // cond = { or "?" expr ":" } or, after its first prefix
    // > b ? 1 : 2
    pub(super) fn conditional_from(
        &self,
        kinds: &[Kind],
        at: usize,
        first: Expr,
    ) -> Result<(Expr, usize), Stop>
        requires { Nests self.now.depth (F.pre self.now.single) (F.post self.now.single) }
        ensures { ReadsFrom kinds.now at result
            (spec.inside self.now.depth spec.conditional_from first) }
    {
        let (first, at) = self.tiers_from(kinds, at, LOOSEST, first)?;
        let ((first, arms), at) = beside(first, self.arms(kinds, at))?;
        Ok((conditional(self.alloc, first, arms)?, at))
    }
}
