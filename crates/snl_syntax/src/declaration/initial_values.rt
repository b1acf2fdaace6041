//! Reads the values that declarators begin with. Values in braces hold values again, one level
//! deeper.
#![tactic(auto, unfolding(crate::proofs::Opened::Declarations::initial_values))]

ghost use Rattle.std.specs.Prelude.{◌<◌, ◌-◌};
ghost use Rattle.snl_grammar.specs.Reading.Declarations as spec;
ghost use Rattle.snl_grammar.specs.Reading.Expressions as exprs;
ghost use Rattle.snl_grammar.specs.Steps as read;
ghost use Rattle.snl_expression.specs.Reads.{ReadsFrom};

use snl_expression::{Stop, assignx, ended, expect, kind_at, past, single, turns, with};
use snl_grammar::Step;
use snl_grammar::tree::declaration::Init;
use snl_lex::Kind;
use sqlite_items::{Boxed, Items};
use std::alloc::Global;

// "," [ init ], with no init before "}"
// , 2
#[cycle(init)]
fn after_comma(
    alloc: Global,
    kinds: &[Kind],
    at: usize,
    depth: usize,
) -> Result<(Step<Init, bool>, usize), Stop>
    ensures { ReadsFrom kinds.now at result (spec.after_comma (spec.init depth)) }
{
    let at = expect(kinds, at, Kind::Comma)?;
    match kind_at(kinds, at) {
        Some(Kind::CloseBrace) => Ok((Step::Last(None, true), at)),
        _ => {
            let (value, at) = init(alloc, kinds, at, depth)?;
            Ok((Step::More(value), at))
        }
    }
}

// [ "," [ init ] ], with no init before "}"
// , 2
#[cycle(init)]
fn value_step(
    alloc: Global,
    kinds: &[Kind],
    at: usize,
    depth: usize,
) -> Result<(Step<Init, bool>, usize), Stop>
    ensures { ReadsFrom kinds.now at result (spec.value_step (spec.init depth)) }
{
    match kind_at(kinds, at) {
        Some(Kind::Comma) => after_comma(alloc, kinds, at, depth),
        _ => Ok((Step::Last(None, false), at)),
    }
}

// { "," init } [","]
// , 2, { 3 },
#[cycle(init)]
fn more_values(
    alloc: Global,
    kinds: &[Kind],
    start: usize,
    depth: usize,
    found: Items<Init>,
) -> Result<((Items<Init>, bool), usize), Stop>
    ensures { ReadsFrom kinds.now start result
        (read.until (spec.value_step (spec.init depth)) found) }
{
    let mut found = found;
    let mut at = start;
    for _turn in 0..turns(kinds, start) {
        let (step, after) = value_step(alloc, kinds, at, depth)?;
        at = after;
        match step {
            Step::More(item) => found = with(alloc, found, item)?,
            Step::Last(last, value) => return Ok((ended(alloc, found, last, value)?, at)),
        }
    }
    Err(Stop::Here(at))
}

// init { "," init } [","] "}"
// 1, { 2, 3 }, }
#[cycle(init)]
fn some_values(
    alloc: Global,
    kinds: &[Kind],
    at: usize,
    depth: usize,
) -> Result<(Init, usize), Stop>
    ensures { ReadsFrom kinds.now at result (spec.some_values (spec.init depth)) }
{
    let (first, at) = init(alloc, kinds, at, depth)?;
    let found = single(alloc, first)?;
    let ((all, trailing), at) = more_values(alloc, kinds, at, depth, found)?;
    past(kinds, at, Kind::CloseBrace, Init::List(all, trailing))
}

// "{" [ init { "," init } [","] ] "}"
// { 1, { 2, 3 }, }
#[cycle(init)]
fn values(alloc: Global, kinds: &[Kind], at: usize, depth: usize) -> Result<(Init, usize), Stop>
    ensures { ReadsFrom kinds.now at result (spec.values (spec.init depth)) }
{
    let at = expect(kinds, at, Kind::OpenBrace)?;
    match kind_at(kinds, at) {
        Some(Kind::CloseBrace) => {
            let at = expect(kinds, at, Kind::CloseBrace)?;
            Ok((Init::List(Items::new(alloc), false), at))
        }
        _ => some_values(alloc, kinds, at, depth),
    }
}

// assignx
// 2 * n
fn plain_value(
    alloc: Global,
    kinds: &[Kind],
    at: usize,
    depth: usize,
) -> Result<(Init, usize), Stop>
    ensures { ReadsFrom kinds.now at result (spec.plain_value (exprs.assignx depth)) }
{
    let (value, at) = assignx(alloc, kinds, at, depth)?;
    Ok((Init::Value(value), at))
}

// init = assignx | "{" [ init { "," init } [","] ] "}"
// { 1, 2 }
#[cycle(init)]
fn init_of(alloc: Global, kinds: &[Kind], at: usize, depth: usize) -> Result<(Init, usize), Stop>
    requires some { 0 < depth }
    ensures { ReadsFrom kinds.now at result
        (spec.init_of (exprs.assignx depth) (spec.init (depth - 1))) }
{
    match kind_at(kinds, at) {
        Some(Kind::OpenBrace) => values(alloc, kinds, at, depth - 1),
        _ => plain_value(alloc, kinds, at, depth),
    }
}

/// What a declarator begins with, in so many levels with the one that it is in.
// init, in one level at least
// { 1, 2 }
#[cycle(init)]
fn init(alloc: Global, kinds: &[Kind], at: usize, depth: usize) -> Result<(Init, usize), Stop>
    ensures { ReadsFrom kinds.now at result (spec.init depth) }
{
    if depth == 0 {
        Err(Stop::Here(at))
    } else {
        init_of(alloc, kinds, at, depth)
    }
}

// "=" init
// = 2 * n
fn some_init(
    alloc: Global,
    kinds: &[Kind],
    at: usize,
    depth: usize,
) -> Result<(Option<Boxed<Init>>, usize), Stop>
    ensures { ReadsFrom kinds.now at result (spec.some_init (spec.init depth)) }
{
    let at = expect(kinds, at, Kind::Equal)?;
    let (value, at) = init(alloc, kinds, at, depth)?;
    Ok((Some(Boxed::new(alloc, value)?), at))
}

// [ "=" init ]
// = { 1, 2 }
pub(super) fn init_part(
    alloc: Global,
    kinds: &[Kind],
    at: usize,
    depth: usize,
) -> Result<(Option<Boxed<Init>>, usize), Stop>
    ensures { ReadsFrom kinds.now at result (spec.init_part (spec.init depth)) }
{
    match kind_at(kinds, at) {
        Some(Kind::Equal) => some_init(alloc, kinds, at, depth),
        _ => Ok((None, at)),
    }
}
