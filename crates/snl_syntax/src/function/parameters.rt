//! Reads the parameters of functions.
#![tactic(auto, unfolding(crate::proofs::Opened::Functions::parameters))]

ghost use Rattle.std.specs.Prelude.{◌<◌, ◌-◌};
ghost use Rattle.snl_grammar.specs.Reading.Expressions as exprs;
ghost use Rattle.snl_grammar.specs.Reading.Functions as spec;
ghost use Rattle.snl_grammar.specs.Steps as read;
ghost use Rattle.snl_expression.specs.Reads.{ReadsFrom};

use crate::declaration::lengths;
use snl_expression::{Stop, expect, kind_at, many, single, stars, type_of};
use snl_grammar::tree::declaration::Parameter;
use snl_lex::Kind;
use sqlite_items::Items;
use std::alloc::Global;

// [ NAME ]
// v
fn name_part(kinds: &[Kind], at: usize) -> Result<(Option<usize>, usize), Stop>
    ensures { ReadsFrom kinds.now at result spec.name_part }
{
    match kind_at(kinds, at) {
        Some(Kind::Name) => {
            let name = at;
            let at = expect(kinds, at, Kind::Name)?;
            Ok((Some(name), at))
        }
        _ => Ok((None, at)),
    }
}

// param = type stars [NAME] { "[" [expr] "]" }
// const double *v[]
fn parameter_in(
    alloc: Global,
    kinds: &[Kind],
    at: usize,
    depth: usize,
) -> Result<(Parameter, usize), Stop>
    requires some { 0 < depth }
    ensures { ReadsFrom kinds.now at result (spec.parameter_in (exprs.assignx (depth - 1))) }
{
    let (of, at) = type_of(kinds, at)?;
    let (pointers, at) = stars(alloc, kinds, at)?;
    let (name, at) = name_part(kinds, at)?;
    let (lengths, at) = lengths(alloc, kinds, at, depth - 1)?;
    let parameter = Parameter {
        of,
        pointers,
        name,
        lengths,
    };
    Ok((parameter, at))
}

// param, in one level at least
// const double *v[]
fn parameter(
    alloc: Global,
    kinds: &[Kind],
    at: usize,
    depth: usize,
) -> Result<(Parameter, usize), Stop>
    ensures { ReadsFrom kinds.now at result (spec.parameter depth) }
{
    if depth == 0 {
        Err(Stop::Here(at))
    } else {
        parameter_in(alloc, kinds, at, depth)
    }
}

// [ "," param ]
// , int n
fn next_parameter(
    alloc: Global,
    kinds: &[Kind],
    at: usize,
    depth: usize,
) -> Result<(Option<Parameter>, usize), Stop>
    ensures { ReadsFrom kinds.now at result (exprs.next_comma (spec.parameter depth)) }
{
    match kind_at(kinds, at) {
        Some(Kind::Comma) => {
            let at = expect(kinds, at, Kind::Comma)?;
            let (parameter, at) = parameter(alloc, kinds, at, depth)?;
            Ok((Some(parameter), at))
        }
        _ => Ok((None, at)),
    }
}

// param { "," param }
// double v, int n
fn comma_parameters(
    alloc: Global,
    kinds: &[Kind],
    at: usize,
    depth: usize,
) -> Result<(Items<Parameter>, usize), Stop>
    ensures { ReadsFrom kinds.now at result (exprs.commas (spec.parameter depth)) }
{
    let (first, at) = parameter(alloc, kinds, at, depth)?;
    let found = single(alloc, first)?;
    many(
        alloc,
        kinds,
        at,
        found,
        |kinds, at| next_parameter(alloc, kinds, at, depth),
    )
}

// param { "," param } ")"
// double v, int n)
fn some_parameters(
    alloc: Global,
    kinds: &[Kind],
    at: usize,
    depth: usize,
) -> Result<(Items<Parameter>, usize), Stop>
    ensures { ReadsFrom kinds.now at result (spec.some_parameters (spec.parameter depth)) }
{
    let (all, at) = comma_parameters(alloc, kinds, at, depth)?;
    let at = expect(kinds, at, Kind::CloseParen)?;
    Ok((all, at))
}

/// The parameters of a function in their brackets, within which so many levels are left.
// "(" [ param { "," param } ] ")"
// (double v, int n)
pub fn parameters(
    alloc: Global,
    kinds: &[Kind],
    at: usize,
    depth: usize,
) -> Result<(Items<Parameter>, usize), Stop>
    ensures { ReadsFrom kinds.now at result (spec.parameters (spec.parameter depth)) }
{
    let at = expect(kinds, at, Kind::OpenParen)?;
    match kind_at(kinds, at) {
        Some(Kind::CloseParen) => {
            let at = expect(kinds, at, Kind::CloseParen)?;
            Ok((Items::new(alloc), at))
        }
        _ => some_parameters(alloc, kinds, at, depth),
    }
}
