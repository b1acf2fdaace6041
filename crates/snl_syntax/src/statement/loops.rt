//! Reads `while` and `for`.
#![tactic(auto, unfolding(crate::proofs::Opened::Statements::loops))]

ghost use Rattle.std.specs.Prelude.{◌≡◌, IfOk};
ghost use Rattle.snl_syntax.specs.NestsStatement.{NestsStatement};
ghost use Rattle.snl_grammar.specs.Reading.Statements as spec;
ghost use Rattle.snl_expression.specs.Reads.{ReadsFrom};
ghost use Rattle.snl_grammar.specs.declared.tree.statement.Stmt.TheVariants as tree;

use crate::statement::Statements;
use crate::statement::optional::{before_paren, before_semicolon};
use snl_expression::{Stop, beside, both_boxed, expect, expr, one_boxed, past};
use snl_grammar::tree::expression::Expr;
use snl_grammar::tree::statement::{ForHead, Stmt};
use snl_lex::Kind;
use std::alloc::{AllocError, Global};

/// An expression in brackets, within which so many levels are left.
// "(" expr ")"
// (n < 10)
pub(super) fn condition(
    alloc: Global,
    kinds: &[Kind],
    at: usize,
    depth: usize,
) -> Result<(Expr, usize), Stop>
    ensures { ReadsFrom kinds.now at result (spec.condition depth) }
{
    let at = expect(kinds, at, Kind::OpenParen)?;
    let (e, at) = expr(alloc, kinds, at, depth)?;
    past(kinds, at, Kind::CloseParen, e)
}

// [expr] ";" [expr] ";" [expr] ")", after the "("
// i = 0; i < n; i++)
fn for_parts(
    alloc: Global,
    kinds: &[Kind],
    at: usize,
    depth: usize,
) -> Result<(ForHead, usize), Stop>
    ensures { ReadsFrom kinds.now at result (spec.for_parts depth) }
{
    let (first, at) = before_semicolon(alloc, kinds, at, depth)?;
    let ((first, condition), at) = beside(first, before_semicolon(alloc, kinds, at, depth))?;
    let held = (first, condition);
    let (((first, condition), step), at) = beside(held, before_paren(alloc, kinds, at, depth))?;
    let head = ForHead {
        first,
        condition,
        step,
    };
    Ok((head, at))
}

/// What is in the brackets of a `for`, within which so many levels are left: a part may be missing,
/// the token that ends it may not.
// the same, in one level at least
// ; ;)
fn for_within(
    alloc: Global,
    kinds: &[Kind],
    at: usize,
    depth: usize,
) -> Result<(ForHead, usize), Stop>
    ensures { ReadsFrom kinds.now at result (spec.for_within depth) }
{
    if depth == 0 {
        Err(Stop::Here(at))
    } else {
        for_parts(alloc, kinds, at, depth)
    }
}

// "(" [expr] ";" [expr] ";" [expr] ")"
// (i = 0; i < n; i++)
fn for_head(
    alloc: Global,
    kinds: &[Kind],
    at: usize,
    depth: usize,
) -> Result<(ForHead, usize), Stop>
    ensures { ReadsFrom kinds.now at result (spec.for_head depth) }
{
    let at = expect(kinds, at, Kind::OpenParen)?;
    for_within(alloc, kinds, at, depth)
}

// The statement that a condition and a body make.
fn while_of(alloc: Global, condition: Expr, body: Stmt) -> Result<Stmt, AllocError>
    ensures { IfOk result (λ s. s ≡ tree.While condition body) }
{
    let (condition, body) = one_boxed(alloc, condition, body)?;
    Ok(Stmt::While(condition, body))
}

// The statement that a head and a body make.
fn for_of(alloc: Global, head: ForHead, body: Stmt) -> Result<Stmt, AllocError>
    ensures { IfOk result (λ s. s ≡ tree.For head body) }
{
    let (head, body) = both_boxed(alloc, head, body)?;
    Ok(Stmt::For(head, body))
}

impl<F: Fn(Global, &[Kind], usize, usize) -> Result<(Stmt, usize), Stop>> Statements<F> {
    // "while" "(" expr ")" stmt
    // while (n < 10) n++;
    pub(super) fn while_loop(&self, kinds: &[Kind], at: usize) -> Result<(Stmt, usize), Stop>
        requires { NestsStatement self.now.depth (F.pre self.now.inner) (F.post self.now.inner) }
        ensures { ReadsFrom kinds.now at result (spec.inside self.now.depth spec.while_loop) }
    {
        let at = expect(kinds, at, Kind::While)?;
        let (e, at) = condition(self.alloc, kinds, at, self.depth)?;
        let ((e, body), at) = beside(e, self.body(kinds, at))?;
        Ok((while_of(self.alloc, e, body)?, at))
    }

    // "for" "(" [expr] ";" [expr] ";" [expr] ")" stmt
    // for (i = 0; i < n; i++) sum += i;
    pub(super) fn for_loop(&self, kinds: &[Kind], at: usize) -> Result<(Stmt, usize), Stop>
        requires { NestsStatement self.now.depth (F.pre self.now.inner) (F.post self.now.inner) }
        ensures { ReadsFrom kinds.now at result (spec.inside self.now.depth spec.for_loop) }
    {
        let at = expect(kinds, at, Kind::For)?;
        let (head, at) = for_head(self.alloc, kinds, at, self.depth)?;
        let ((head, body), at) = beside(head, self.body(kinds, at))?;
        Ok((for_of(self.alloc, head, body)?, at))
    }
}
