//! Reads assignments.
#![tactic(auto, unfolding(crate::proofs::Opened::Expressions::assignment))]

ghost use Rattle.std.specs.Prelude.{◌≡◌, [], IfOk};
ghost use Rattle.snl_expression.specs.Nests.{Nests};
ghost use Rattle.snl_grammar.specs.Reading.Expressions as spec;
ghost use Rattle.snl_grammar.specs.Steps as read;
ghost use Rattle.snl_expression.specs.Reads.{ReadsFrom};
ghost use Rattle.snl_grammar.specs.Tokens.{ahead};

use crate::expression::Expressions;
use crate::lists::until;
use crate::stop::Stop;
use crate::token_steps::{kind_at, past};
use snl_grammar::tree::expression::Expr;
use snl_grammar::{Assignment, Step, assignment_kind, assignment_of};
use snl_lex::Kind;
use sqlite_items::{Boxed, Items};
use std::alloc::{AllocError, Global};

/// A value with what it is assigned to.
fn assigned(
    alloc: Global,
    targets: Items<(Expr, Assignment)>,
    value: Expr,
) -> Result<Expr, AllocError>
    ensures { IfOk result (λ e. e ≡ spec.assigned targets value) }
{
    if targets.is_empty() {
        Ok(value)
    } else {
        Ok(Expr::Assigned(targets, Boxed::new(alloc, value)?))
    }
}

/// The operator that assigns which comes next.
fn assignment_at(kinds: &[Kind], at: usize) -> Option<Assignment>
    ensures { result ≡ spec.assignment_in (read.kind_at (ahead kinds.now at)) }
{
    assignment_of(kind_at(kinds, at)?)
}

impl<F: Fn(Global, &[Kind], usize, usize) -> Result<(Expr, usize), Stop>> Expressions<F> {
    // prefix op | cond, where
    // op = "=" | "+=" | "-=" | "*=" | "/=" | "%=" | "&=" | "|=" | "^=" | "<<=" | ">>="
    fn target_step(
        &self,
        kinds: &[Kind],
        at: usize,
    ) -> Result<(Step<(Expr, Assignment), Expr>, usize), Stop>
        requires { Nests self.now.depth (F.pre self.now.single) (F.post self.now.single) }
        ensures { ReadsFrom kinds.now at result (spec.inside self.now.depth spec.target_step) }
    {
        let (x, at) = self.prefix(kinds, at)?;
        match assignment_at(kinds, at) {
            Some(op) => past(kinds, at, assignment_kind(op), Step::More((x, op))),
            None => {
                let (value, at) = self.conditional_from(kinds, at, x)?;
                Ok((Step::Last(None, value), at))
            }
        }
    }

    // { prefix op } cond
    // x = y += 2
    fn targets(
        &self,
        kinds: &[Kind],
        start: usize,
    ) -> Result<((Items<(Expr, Assignment)>, Expr), usize), Stop>
        requires { Nests self.now.depth (F.pre self.now.single) (F.post self.now.single) }
        ensures { ReadsFrom kinds.now start result
            (read.until (spec.inside self.now.depth spec.target_step) []) }
    {
        until(
            self.alloc,
            kinds,
            start,
            Items::new(self.alloc),
            |kinds, at| self.target_step(kinds, at),
        )
    }

    // assignx = { prefix op } cond
    // x = y += 2
    pub(super) fn single_of(&self, kinds: &[Kind], at: usize) -> Result<(Expr, usize), Stop>
        requires { Nests self.now.depth (F.pre self.now.single) (F.post self.now.single) }
        ensures { ReadsFrom kinds.now at result (spec.inside self.now.depth spec.single) }
    {
        let ((targets, value), at) = self.targets(kinds, at)?;
        Ok((assigned(self.alloc, targets, value)?, at))
    }
}
