//! Reads the lengths of arrays, in their brackets.
#![tactic(auto, unfolding(crate::proofs::Opened::Declarations::array_lengths))]

ghost use Rattle.snl_grammar.specs.Reading.Declarations as spec;
ghost use Rattle.snl_grammar.specs.Reading.Expressions as exprs;
ghost use Rattle.snl_expression.specs.Reads.{ReadsFrom};

use snl_expression::{Stop, expect, expr, kind_at, many, past};
use snl_grammar::tree::expression::Expr;
use snl_lex::Kind;
use sqlite_items::Items;
use std::alloc::Global;

// expr "]"
// 2 * n]
fn some_length(
    alloc: Global,
    kinds: &[Kind],
    at: usize,
    depth: usize,
) -> Result<(Option<Option<Expr>>, usize), Stop>
    ensures { ReadsFrom kinds.now at result (spec.some_length (exprs.assignx depth)) }
{
    let (length, at) = expr(alloc, kinds, at, depth)?;
    past(kinds, at, Kind::CloseBracket, Some(Some(length)))
}

// "[" [expr] "]"
// [2 * n]
fn bracketed_length(
    alloc: Global,
    kinds: &[Kind],
    at: usize,
    depth: usize,
) -> Result<(Option<Option<Expr>>, usize), Stop>
    ensures { ReadsFrom kinds.now at result (spec.bracketed_length (exprs.assignx depth)) }
{
    let at = expect(kinds, at, Kind::OpenBracket)?;
    match kind_at(kinds, at) {
        Some(Kind::CloseBracket) => {
            let at = expect(kinds, at, Kind::CloseBracket)?;
            Ok((Some(None), at))
        }
        _ => some_length(alloc, kinds, at, depth),
    }
}

// [ "[" [expr] "]" ]
// []
fn next_length(
    alloc: Global,
    kinds: &[Kind],
    at: usize,
    depth: usize,
) -> Result<(Option<Option<Expr>>, usize), Stop>
    ensures { ReadsFrom kinds.now at result (spec.next_length (exprs.assignx depth)) }
{
    match kind_at(kinds, at) {
        Some(Kind::OpenBracket) => bracketed_length(alloc, kinds, at, depth),
        _ => Ok((None, at)),
    }
}

/// The lengths in brackets after a name; within the brackets so many levels are left.
// { "[" [expr] "]" }
// [4][2 * n]
pub fn lengths(
    alloc: Global,
    kinds: &[Kind],
    start: usize,
    depth: usize,
) -> Result<(Items<Option<Expr>>, usize), Stop>
    ensures { ReadsFrom kinds.now start result (spec.lengths (exprs.assignx depth)) }
{
    many(
        alloc,
        kinds,
        start,
        Items::new(alloc),
        |kinds, at| next_length(alloc, kinds, at, depth),
    )
}
