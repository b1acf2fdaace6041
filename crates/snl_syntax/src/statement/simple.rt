//! Reads statements that hold no others.
#![tactic(auto, unfolding(crate::proofs::Opened::Statements::simple))]

ghost use Rattle.snl_lex.specs.declared.kind.Kind.TheVariants as kind;
ghost use Rattle.snl_grammar.specs.Reading.Statements as spec;
ghost use Rattle.snl_grammar.specs.Steps as read;
ghost use Rattle.snl_expression.specs.Reads.{ReadsFrom};
ghost use Rattle.snl_grammar.specs.declared.tree.statement.Stmt.TheVariants as tree;

use crate::statement::optional::before_semicolon;
use snl_expression::{Stop, expect, expr, past};
use snl_grammar::tree::statement::Stmt;
use snl_lex::Kind;
use std::alloc::Global;

// ";"
// ;
pub(super) fn empty(kinds: &[Kind], at: usize) -> Result<(Stmt, usize), Stop>
    ensures { ReadsFrom kinds.now at result (read.word kind.Semicolon tree.Empty) }
{
    let at = expect(kinds, at, Kind::Semicolon)?;
    Ok((Stmt::Empty, at))
}

// CCODE
// %{ tick(); }%
pub(super) fn c_code(kinds: &[Kind], at: usize) -> Result<(Stmt, usize), Stop>
    ensures { ReadsFrom kinds.now at result spec.c_code }
{
    let number = at;
    let at = expect(kinds, at, Kind::CCode)?;
    Ok((Stmt::CCode(number), at))
}

// "break" ";"
// break;
pub(super) fn break_loop(kinds: &[Kind], at: usize) -> Result<(Stmt, usize), Stop>
    ensures { ReadsFrom kinds.now at result (spec.jump kind.Break tree.Break) }
{
    let word = at;
    let at = expect(kinds, at, Kind::Break)?;
    let at = expect(kinds, at, Kind::Semicolon)?;
    Ok((Stmt::Break(word), at))
}

// "continue" ";"
// continue;
pub(super) fn continue_loop(kinds: &[Kind], at: usize) -> Result<(Stmt, usize), Stop>
    ensures { ReadsFrom kinds.now at result (spec.jump kind.Continue tree.Continue) }
{
    let word = at;
    let at = expect(kinds, at, Kind::Continue)?;
    let at = expect(kinds, at, Kind::Semicolon)?;
    Ok((Stmt::Continue(word), at))
}

// "state" NAME ";"
// state idle;
pub(super) fn change(kinds: &[Kind], at: usize) -> Result<(Stmt, usize), Stop>
    ensures { ReadsFrom kinds.now at result spec.change }
{
    let word = at;
    let at = expect(kinds, at, Kind::State)?;
    let name = at;
    let at = expect(kinds, at, Kind::Name)?;
    let at = expect(kinds, at, Kind::Semicolon)?;
    Ok((Stmt::State { word, name }, at))
}

// "return" [expr] ";"
// return n + 1;
pub(super) fn return_value(
    alloc: Global,
    kinds: &[Kind],
    at: usize,
    depth: usize,
) -> Result<(Stmt, usize), Stop>
    ensures { ReadsFrom kinds.now at result (spec.return_value depth) }
{
    let at = expect(kinds, at, Kind::Return)?;
    let (value, at) = before_semicolon(alloc, kinds, at, depth)?;
    Ok((Stmt::Return(value), at))
}

// expr ";"
// n = n + 1;
pub(super) fn evaluation(
    alloc: Global,
    kinds: &[Kind],
    at: usize,
    depth: usize,
) -> Result<(Stmt, usize), Stop>
    ensures { ReadsFrom kinds.now at result (spec.evaluation depth) }
{
    let (e, at) = expr(alloc, kinds, at, depth)?;
    past(kinds, at, Kind::Semicolon, Stmt::Expr(e))
}
