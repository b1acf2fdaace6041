//! Reads operands of one token, and strings.
#![tactic(auto, unfolding(crate::proofs::Opened::Expressions::leaves))]

ghost use Rattle.snl_lex.specs.declared.kind.Kind.TheVariants as kind;
ghost use Rattle.snl_grammar.specs.Reading.Expressions as spec;
ghost use Rattle.snl_grammar.specs.Steps as read;
ghost use Rattle.snl_expression.specs.Reads.{ReadsFrom};
ghost use Rattle.snl_grammar.specs.declared.tree.expression.Expr.TheVariants as tree;

use crate::lists::many;
use crate::parts::single;
use crate::stop::Stop;
use crate::token_steps::{expect, kind_at};
use snl_grammar::tree::expression::Expr;
use snl_lex::Kind;
use sqlite_items::Items;
use std::alloc::Global;

// [ TEXT ]
// "speed"
fn next_text(kinds: &[Kind], at: usize) -> Result<(Option<usize>, usize), Stop>
    ensures { ReadsFrom kinds.now at result spec.next_text }
{
    match kind_at(kinds, at) {
        Some(Kind::Text) => {
            let number = at;
            let at = expect(kinds, at, Kind::Text)?;
            Ok((Some(number), at))
        }
        _ => Ok((None, at)),
    }
}

/// All strings that are side by side, one at least.
// texts = TEXT { TEXT }
// "pump:" "speed"
pub fn texts(alloc: Global, kinds: &[Kind], at: usize) -> Result<(Items<usize>, usize), Stop>
    ensures { ReadsFrom kinds.now at result spec.texts }
{
    let first = at;
    let at = expect(kinds, at, Kind::Text)?;
    let found = single(alloc, first)?;
    many(alloc, kinds, at, found, |kinds, at| next_text(kinds, at))
}

// NAME
// speed
fn name_leaf(kinds: &[Kind], at: usize) -> Result<(Expr, usize), Stop>
    ensures { ReadsFrom kinds.now at result (spec.leaf kind.Name tree.Name) }
{
    let number = at;
    let at = expect(kinds, at, Kind::Name)?;
    Ok((Expr::Name(number), at))
}

// INT
// 0x1F
fn integer_leaf(kinds: &[Kind], at: usize) -> Result<(Expr, usize), Stop>
    ensures { ReadsFrom kinds.now at result (spec.leaf kind.Integer tree.Integer) }
{
    let number = at;
    let at = expect(kinds, at, Kind::Integer)?;
    Ok((Expr::Integer(number), at))
}

// FLOAT
// 2.5e-3
fn floating_leaf(kinds: &[Kind], at: usize) -> Result<(Expr, usize), Stop>
    ensures { ReadsFrom kinds.now at result (spec.leaf kind.Floating tree.Floating) }
{
    let number = at;
    let at = expect(kinds, at, Kind::Floating)?;
    Ok((Expr::Floating(number), at))
}

// CHAR
// 'a'
fn character_leaf(kinds: &[Kind], at: usize) -> Result<(Expr, usize), Stop>
    ensures { ReadsFrom kinds.now at result (spec.leaf kind.Character tree.Character) }
{
    let number = at;
    let at = expect(kinds, at, Kind::Character)?;
    Ok((Expr::Character(number), at))
}

// texts
// "pump:" "speed"
fn text(alloc: Global, kinds: &[Kind], at: usize) -> Result<(Expr, usize), Stop>
    ensures { ReadsFrom kinds.now at result spec.text }
{
    let (numbers, at) = texts(alloc, kinds, at)?;
    Ok((Expr::Text(numbers), at))
}

// NAME | INT | FLOAT | CHAR | texts
// speed
pub(super) fn atom(alloc: Global, kinds: &[Kind], at: usize) -> Result<(Expr, usize), Stop>
    ensures { ReadsFrom kinds.now at result spec.atom }
{
    match kind_at(kinds, at) {
        Some(Kind::Name) => name_leaf(kinds, at),
        Some(Kind::Integer) => integer_leaf(kinds, at),
        Some(Kind::Floating) => floating_leaf(kinds, at),
        Some(Kind::Character) => character_leaf(kinds, at),
        Some(Kind::Text) => text(alloc, kinds, at),
        _ => Err(Stop::Here(at)),
    }
}
