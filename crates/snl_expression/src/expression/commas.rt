//! Reads expressions with commas between.
#![tactic(auto, unfolding(crate::proofs::Opened::Expressions::commas))]

ghost use Rattle.std.specs.Prelude.{◌≡◌, IfOk};
ghost use Rattle.snl_expression.specs.Nests.{Nests};
ghost use Rattle.snl_grammar.specs.Reading.Expressions as spec;
ghost use Rattle.snl_grammar.specs.Steps as read;
ghost use Rattle.snl_expression.specs.Reads.{ReadsFrom};

use crate::expression::Expressions;
use crate::lists::many;
use crate::parts::single;
use crate::stop::Stop;
use crate::token_steps::{beside, expect, kind_at, past};
use snl_grammar::tree::expression::Expr;
use snl_lex::Kind;
use sqlite_items::{Boxed, Items};
use std::alloc::{AllocError, Global};

/// An expression with those after its commas.
fn sequenced(alloc: Global, first: Expr, rest: Items<Expr>) -> Result<Expr, AllocError>
    ensures { IfOk result (λ e. e ≡ spec.sequenced first rest) }
{
    if rest.is_empty() {
        Ok(first)
    } else {
        Ok(Expr::Sequence(Boxed::new(alloc, first)?, rest))
    }
}

impl<F: Fn(Global, &[Kind], usize, usize) -> Result<(Expr, usize), Stop>> Expressions<F> {
    // [ "," assignx ]
    // , n + 1
    fn next_comma(&self, kinds: &[Kind], at: usize) -> Result<(Option<Expr>, usize), Stop>
        requires { Nests self.now.depth (F.pre self.now.single) (F.post self.now.single) }
        ensures { ReadsFrom kinds.now at result (spec.next_comma (spec.assignx self.now.depth)) }
    {
        match kind_at(kinds, at) {
            Some(Kind::Comma) => {
                let at = expect(kinds, at, Kind::Comma)?;
                let (x, at) = self.nested(kinds, at)?;
                Ok((Some(x), at))
            }
            _ => Ok((None, at)),
        }
    }

    // { "," assignx }
    // , x, y
    fn more(
        &self,
        kinds: &[Kind],
        start: usize,
        found: Items<Expr>,
    ) -> Result<(Items<Expr>, usize), Stop>
        requires { Nests self.now.depth (F.pre self.now.single) (F.post self.now.single) }
        ensures { ReadsFrom kinds.now start result
            (read.many (spec.next_comma (spec.assignx self.now.depth)) found) }
    {
        many(
            self.alloc,
            kinds,
            start,
            found,
            |kinds, at| self.next_comma(kinds, at),
        )
    }

    // assignx { "," assignx }
    // a, b
    fn commas(&self, kinds: &[Kind], at: usize) -> Result<(Items<Expr>, usize), Stop>
        requires { Nests self.now.depth (F.pre self.now.single) (F.post self.now.single) }
        ensures { ReadsFrom kinds.now at result (spec.commas (spec.assignx self.now.depth)) }
    {
        let (first, at) = self.nested(kinds, at)?;
        let found = single(self.alloc, first)?;
        self.more(kinds, at, found)
    }

    /// Expressions with commas between.
    // expr = assignx { "," assignx }
    // i = 0, j = 0
    pub(super) fn sequence(&self, kinds: &[Kind], at: usize) -> Result<(Expr, usize), Stop>
        requires { Nests self.now.depth (F.pre self.now.single) (F.post self.now.single) }
        ensures { ReadsFrom kinds.now at result (spec.sequence (spec.assignx self.now.depth)) }
    {
        let (first, at) = self.nested(kinds, at)?;
        let ((first, rest), at) = beside(first, self.more(kinds, at, Items::new(self.alloc)))?;
        Ok((sequenced(self.alloc, first, rest)?, at))
    }

    // assignx { "," assignx } ")"
    // v, 2 * n)
    fn some_arguments(&self, kinds: &[Kind], at: usize) -> Result<(Items<Expr>, usize), Stop>
        requires { Nests self.now.depth (F.pre self.now.single) (F.post self.now.single) }
        ensures { ReadsFrom kinds.now at result (spec.inside self.now.depth spec.some_arguments) }
    {
        let (all, at) = self.commas(kinds, at)?;
        past(kinds, at, Kind::CloseParen, all)
    }

    // [ assignx { "," assignx } ] ")", after the "("
    // v, 2 * n)
    pub(super) fn arguments(&self, kinds: &[Kind], at: usize) -> Result<(Items<Expr>, usize), Stop>
        requires { Nests self.now.depth (F.pre self.now.single) (F.post self.now.single) }
        ensures { ReadsFrom kinds.now at result (spec.inside self.now.depth spec.arguments) }
    {
        match kind_at(kinds, at) {
            Some(Kind::CloseParen) => {
                let at = expect(kinds, at, Kind::CloseParen)?;
                Ok((Items::new(self.alloc), at))
            }
            _ => self.some_arguments(kinds, at),
        }
    }
}
