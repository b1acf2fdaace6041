//! Reads the members of structs.
#![tactic(auto, unfolding(crate::proofs::Opened::Functions::structs))]

ghost use Rattle.std.specs.Prelude.{[]};
ghost use Rattle.snl_grammar.specs.Reading.Declarations as declarations;
ghost use Rattle.snl_grammar.specs.Reading.Functions as spec;
ghost use Rattle.snl_grammar.specs.Steps as read;
ghost use Rattle.snl_expression.specs.Reads.{ReadsFrom};

use crate::declaration::declaration;
use snl_expression::{Stop, expect, kind_at, many};
use snl_grammar::tree::item::StructMember;
use snl_lex::Kind;
use sqlite_items::Items;
use std::alloc::Global;

// CCODE
// %{ time_t at; }%
fn c_member(kinds: &[Kind], at: usize) -> Result<(Option<StructMember>, usize), Stop>
    ensures { ReadsFrom kinds.now at result spec.c_member }
{
    let number = at;
    let at = expect(kinds, at, Kind::CCode)?;
    Ok((Some(StructMember::CBlock(number)), at))
}

// decl
// double low, high;
fn declared_member(
    alloc: Global,
    kinds: &[Kind],
    at: usize,
    depth: usize,
) -> Result<(Option<StructMember>, usize), Stop>
    ensures { ReadsFrom kinds.now at result
        (spec.declared_member (declarations.declaration depth)) }
{
    let (member, at) = declaration(alloc, kinds, at, depth)?;
    Ok((Some(StructMember::Declaration(member)), at))
}

// decl | CCODE, or nothing before "}"
// double low, high;
fn next_member(
    alloc: Global,
    kinds: &[Kind],
    at: usize,
    depth: usize,
) -> Result<(Option<StructMember>, usize), Stop>
    ensures { ReadsFrom kinds.now at result (spec.next_member (declarations.declaration depth)) }
{
    match kind_at(kinds, at) {
        Some(Kind::CloseBrace) => Ok((None, at)),
        Some(Kind::CCode) => c_member(kinds, at),
        _ => declared_member(alloc, kinds, at, depth),
    }
}

// { decl | CCODE }
// double low; int count;
fn members(
    alloc: Global,
    kinds: &[Kind],
    start: usize,
    depth: usize,
) -> Result<(Items<StructMember>, usize), Stop>
    ensures { ReadsFrom kinds.now start result
        (read.many (spec.next_member (declarations.declaration depth)) []) }
{
    many(
        alloc,
        kinds,
        start,
        Items::new(alloc),
        |kinds, at| next_member(alloc, kinds, at, depth),
    )
}

/// A struct's members in braces, within which so many levels are left, and its `;`.
// "{" { decl | CCODE } "}" ";", after `struct NAME`
// { double low; int count; };
pub fn struct_members(
    alloc: Global,
    kinds: &[Kind],
    at: usize,
    depth: usize,
) -> Result<(Items<StructMember>, usize), Stop>
    ensures { ReadsFrom kinds.now at result (spec.struct_members (declarations.declaration depth)) }
{
    let at = expect(kinds, at, Kind::OpenBrace)?;
    let (all, at) = members(alloc, kinds, at, depth)?;
    let at = expect(kinds, at, Kind::CloseBrace)?;
    let at = expect(kinds, at, Kind::Semicolon)?;
    Ok((all, at))
}
