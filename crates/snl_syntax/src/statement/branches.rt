//! Reads `if`, with the arms of its chain.
#![tactic(auto, unfolding(crate::proofs::Opened::Statements::branches))]

ghost use Rattle.std.specs.Prelude.{◌≡◌, [], IfOk, Some};
ghost use Rattle.snl_syntax.specs.NestsStatement.{NestsStatement};
ghost use Rattle.snl_grammar.specs.Reading.Statements as spec;
ghost use Rattle.snl_grammar.specs.Steps as read;
ghost use Rattle.snl_expression.specs.Reads.{ReadsFrom};
ghost use Rattle.snl_grammar.specs.declared.step.Step.TheVariants as steps;

use crate::statement::Statements;
use crate::statement::loops::condition;
use snl_expression::{Stop, beside, expect, kind_at, one_boxed, past, until};
use snl_grammar::Step;
use snl_grammar::tree::expression::Expr;
use snl_grammar::tree::statement::Stmt;
use snl_lex::Kind;
use sqlite_items::{Boxed, Items};
use std::alloc::{AllocError, Global};

// The last step over the arms of an `if`: an arm, and a body that comes after its `else`.
fn last_of(
    alloc: Global,
    arm: (Expr, Stmt),
    body: Stmt,
) -> Result<Step<(Expr, Stmt), Option<Boxed<Stmt>>>, AllocError>
    ensures { IfOk result (λ s. s ≡ steps.Last (Some arm) (Some body)) }
{
    let (arm, body) = one_boxed(alloc, arm, body)?;
    Ok(Step::Last(Some(arm), Some(body)))
}

impl<F: Fn(Global, &[Kind], usize, usize) -> Result<(Stmt, usize), Stop>> Statements<F> {
    // stmt, after the last `else`
    // n = 2;
    fn last_body(
        &self,
        kinds: &[Kind],
        at: usize,
        arm: (Expr, Stmt),
    ) -> Result<(Step<(Expr, Stmt), Option<Boxed<Stmt>>>, usize), Stop>
        requires { NestsStatement self.now.depth (F.pre self.now.inner) (F.post self.now.inner) }
        ensures { ReadsFrom kinds.now at result (spec.inside self.now.depth spec.last_body arm) }
    {
        let ((arm, body), at) = beside(arm, self.body(kinds, at))?;
        Ok((last_of(self.alloc, arm, body)?, at))
    }

    // "else" [ stmt ], with no stmt before a further `if`
    // else n = 2;
    fn after_else(
        &self,
        kinds: &[Kind],
        at: usize,
        arm: (Expr, Stmt),
    ) -> Result<(Step<(Expr, Stmt), Option<Boxed<Stmt>>>, usize), Stop>
        requires { NestsStatement self.now.depth (F.pre self.now.inner) (F.post self.now.inner) }
        ensures { ReadsFrom kinds.now at result (spec.inside self.now.depth spec.after_else arm) }
    {
        let (arm, at) = past(kinds, at, Kind::Else, arm)?;
        match kind_at(kinds, at) {
            Some(Kind::If) => Ok((Step::More(arm), at)),
            _ => self.last_body(kinds, at, arm),
        }
    }

    // "if" "(" expr ")" stmt
    // if (n > 9) n = 0;
    fn arm(&self, kinds: &[Kind], at: usize) -> Result<((Expr, Stmt), usize), Stop>
        requires { NestsStatement self.now.depth (F.pre self.now.inner) (F.post self.now.inner) }
        ensures { ReadsFrom kinds.now at result (spec.inside self.now.depth spec.arm) }
    {
        let at = expect(kinds, at, Kind::If)?;
        let (e, at) = condition(self.alloc, kinds, at, self.depth)?;
        beside(e, self.body(kinds, at))
    }

    // "if" "(" expr ")" stmt [ "else" [ stmt ] ], with no stmt before a further `if`
    // if (n > 9) n = 0; else n = 2;
    fn arm_step(
        &self,
        kinds: &[Kind],
        at: usize,
    ) -> Result<(Step<(Expr, Stmt), Option<Boxed<Stmt>>>, usize), Stop>
        requires { NestsStatement self.now.depth (F.pre self.now.inner) (F.post self.now.inner) }
        ensures { ReadsFrom kinds.now at result (spec.inside self.now.depth spec.arm_step) }
    {
        let (arm, at) = self.arm(kinds, at)?;
        match kind_at(kinds, at) {
            Some(Kind::Else) => self.after_else(kinds, at, arm),
            _ => Ok((Step::Last(Some(arm), None), at)),
        }
    }

    // "if" "(" expr ")" stmt { "else" "if" "(" expr ")" stmt } [ "else" stmt ]
    // if (n > 9) n = 0; else if (n > 5) n = 1; else n = 2;
    fn arms(
        &self,
        kinds: &[Kind],
        start: usize,
    ) -> Result<((Items<(Expr, Stmt)>, Option<Boxed<Stmt>>), usize), Stop>
        requires { NestsStatement self.now.depth (F.pre self.now.inner) (F.post self.now.inner) }
        ensures { ReadsFrom kinds.now start result
            (read.until (spec.inside self.now.depth spec.arm_step) []) }
    {
        until(
            self.alloc,
            kinds,
            start,
            Items::new(self.alloc),
            |kinds, at| self.arm_step(kinds, at),
        )
    }

    // "if" "(" expr ")" stmt [ "else" stmt ]
    // if (n > 9) n = 0; else n = 2;
    pub(super) fn choice(&self, kinds: &[Kind], at: usize) -> Result<(Stmt, usize), Stop>
        requires { NestsStatement self.now.depth (F.pre self.now.inner) (F.post self.now.inner) }
        ensures { ReadsFrom kinds.now at result (spec.inside self.now.depth spec.choice) }
    {
        let ((arms, branch), at) = self.arms(kinds, at)?;
        Ok((Stmt::If(arms, branch), at))
    }
}
