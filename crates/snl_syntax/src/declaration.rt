//! Reads declarations.
#![tactic(auto, unfolding(crate::proofs::Opened::Declarations::declarations))]

ghost use Rattle.std.specs.Prelude.{◌<◌};
ghost use Rattle.snl_grammar.specs.Reading.Declarations as spec;
ghost use Rattle.snl_grammar.specs.Reading.Expressions as exprs;
ghost use Rattle.snl_grammar.specs.Steps as read;
ghost use Rattle.snl_expression.specs.Reads.{ReadsFrom};

mod array_lengths;
mod initial_values;

use crate::declaration::initial_values::init_part;
pub use array_lengths::lengths;
use snl_expression::{Stop, expect, kind_at, many, past, single, stars, type_of};
use snl_grammar::tree::declaration::{Declaration, Declarator};
use snl_grammar::tree::types::{Pointer, QualifiedType};
use snl_lex::Kind;
use sqlite_items::Items;
use std::alloc::Global;

/// A declarator after its name.
// { "[" [expr] "]" } [ "=" init ]
// [2] = { 1, 2 }
fn declarator_from(
    alloc: Global,
    kinds: &[Kind],
    at: usize,
    depth: usize,
    pointers: Items<Pointer>,
    name: usize,
) -> Result<(Declarator, usize), Stop>
    requires some { 0 < depth }
    ensures { ReadsFrom kinds.now at result
        (spec.in_levels depth spec.declarator_from pointers name) }
{
    let (lengths, at) = lengths(alloc, kinds, at, depth - 1)?;
    let (init, at) = init_part(alloc, kinds, at, depth)?;
    let declarator = Declarator {
        pointers,
        name,
        lengths,
        init,
    };
    Ok((declarator, at))
}

// dcl = stars NAME { "[" [expr] "]" } [ "=" init ]
// *low[2] = { 1, 2 }
fn declarator(
    alloc: Global,
    kinds: &[Kind],
    at: usize,
    depth: usize,
) -> Result<(Declarator, usize), Stop>
    requires some { 0 < depth }
    ensures { ReadsFrom kinds.now at result (spec.in_levels depth spec.declarator) }
{
    let (pointers, at) = stars(alloc, kinds, at)?;
    let name = at;
    let at = expect(kinds, at, Kind::Name)?;
    declarator_from(alloc, kinds, at, depth, pointers, name)
}

// [ "," dcl ]
// , high = 2
fn next_declarator(
    alloc: Global,
    kinds: &[Kind],
    at: usize,
    depth: usize,
) -> Result<(Option<Declarator>, usize), Stop>
    requires some { 0 < depth }
    ensures { ReadsFrom kinds.now at result
        (exprs.next_comma (spec.in_levels depth spec.declarator)) }
{
    match kind_at(kinds, at) {
        Some(Kind::Comma) => {
            let at = expect(kinds, at, Kind::Comma)?;
            let (declarator, at) = declarator(alloc, kinds, at, depth)?;
            Ok((Some(declarator), at))
        }
        _ => Ok((None, at)),
    }
}

// { "," dcl } ";"
// , high = 2, step;
fn more_declarators(
    alloc: Global,
    kinds: &[Kind],
    at: usize,
    depth: usize,
    of: QualifiedType,
    first: Declarator,
) -> Result<(Declaration, usize), Stop>
    requires some { 0 < depth }
    ensures { ReadsFrom kinds.now at result (spec.in_levels depth spec.more_declarators of first) }
{
    let found = single(alloc, first)?;
    let (declarators, at) = many(
        alloc,
        kinds,
        at,
        found,
        |kinds, at| next_declarator(alloc, kinds, at, depth),
    )?;
    past(kinds, at, Kind::Semicolon, Declaration { of, declarators })
}

/// A declaration after its first name.
// { "[" [expr] "]" } [ "=" init ] { "," dcl } ";"
// = 1, high = 2;
pub fn declaration_from(
    alloc: Global,
    kinds: &[Kind],
    at: usize,
    depth: usize,
    of: QualifiedType,
    pointers: Items<Pointer>,
    name: usize,
) -> Result<(Declaration, usize), Stop>
    requires some { 0 < depth }
    ensures { ReadsFrom kinds.now at result
        (spec.in_levels depth spec.declaration_from of pointers name) }
{
    let (first, at) = declarator_from(alloc, kinds, at, depth, pointers, name)?;
    more_declarators(alloc, kinds, at, depth, of, first)
}

/// A declaration after its type.
// dcl { "," dcl } ";"
// low = 1, high = 2;
fn declaration_of(
    alloc: Global,
    kinds: &[Kind],
    at: usize,
    depth: usize,
    of: QualifiedType,
) -> Result<(Declaration, usize), Stop>
    requires some { 0 < depth }
    ensures { ReadsFrom kinds.now at result (spec.in_levels depth spec.declaration_of of) }
{
    let (first, at) = declarator(alloc, kinds, at, depth)?;
    more_declarators(alloc, kinds, at, depth, of, first)
}

// decl = type dcl { "," dcl } ";"
// int low = 1, high = 2;
fn declaration_in(
    alloc: Global,
    kinds: &[Kind],
    at: usize,
    depth: usize,
) -> Result<(Declaration, usize), Stop>
    requires some { 0 < depth }
    ensures { ReadsFrom kinds.now at result (spec.in_levels depth spec.declaration_in) }
{
    let (of, at) = type_of(kinds, at)?;
    declaration_of(alloc, kinds, at, depth, of)
}

/// A declaration, in so many levels with the one that it is in.
// decl, in one level at least
// int low = 1, high = 2;
pub fn declaration(
    alloc: Global,
    kinds: &[Kind],
    at: usize,
    depth: usize,
) -> Result<(Declaration, usize), Stop>
    ensures { ReadsFrom kinds.now at result (spec.declaration depth) }
{
    if depth == 0 {
        Err(Stop::Here(at))
    } else {
        declaration_in(alloc, kinds, at, depth)
    }
}
