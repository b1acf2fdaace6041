//! Reads an expression that may be missing, with the token that ends it.
#![tactic(auto, unfolding(crate::proofs::Opened::Statements::optional))]

ghost use Rattle.snl_lex.specs.declared.kind.Kind.TheVariants as kind;
ghost use Rattle.snl_grammar.specs.Reading.Expressions as exprs;
ghost use Rattle.snl_grammar.specs.Reading.Statements as spec;
ghost use Rattle.snl_expression.specs.Reads.{ReadsFrom};

use snl_expression::{Stop, expect, expr, kind_at, past};
use snl_grammar::tree::expression::Expr;
use snl_lex::Kind;
use std::alloc::Global;

// expr ";"
// n + 1;
fn some_before_semicolon(
    alloc: Global,
    kinds: &[Kind],
    at: usize,
    depth: usize,
) -> Result<(Option<Expr>, usize), Stop>
    ensures { ReadsFrom kinds.now at result (spec.some_before kind.Semicolon (exprs.expr depth)) }
{
    let (e, at) = expr(alloc, kinds, at, depth)?;
    past(kinds, at, Kind::Semicolon, Some(e))
}

/// An expression or none, and the semicolon after it.
// [expr] ";"
// ;
pub fn before_semicolon(
    alloc: Global,
    kinds: &[Kind],
    at: usize,
    depth: usize,
) -> Result<(Option<Expr>, usize), Stop>
    ensures { ReadsFrom kinds.now at result (spec.before_semicolon (exprs.expr depth)) }
{
    match kind_at(kinds, at) {
        Some(Kind::Semicolon) => {
            let at = expect(kinds, at, Kind::Semicolon)?;
            Ok((None, at))
        }
        _ => some_before_semicolon(alloc, kinds, at, depth),
    }
}

// expr ")"
// n + 1)
fn some_before_paren(
    alloc: Global,
    kinds: &[Kind],
    at: usize,
    depth: usize,
) -> Result<(Option<Expr>, usize), Stop>
    ensures { ReadsFrom kinds.now at result (spec.some_before kind.CloseParen (exprs.expr depth)) }
{
    let (e, at) = expr(alloc, kinds, at, depth)?;
    past(kinds, at, Kind::CloseParen, Some(e))
}

/// An expression or none, and the closing bracket after it.
// [expr] ")"
// )
pub fn before_paren(
    alloc: Global,
    kinds: &[Kind],
    at: usize,
    depth: usize,
) -> Result<(Option<Expr>, usize), Stop>
    ensures { ReadsFrom kinds.now at result (spec.before_paren (exprs.expr depth)) }
{
    match kind_at(kinds, at) {
        Some(Kind::CloseParen) => {
            let at = expect(kinds, at, Kind::CloseParen)?;
            Ok((None, at))
        }
        _ => some_before_paren(alloc, kinds, at, depth),
    }
}
