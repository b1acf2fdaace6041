//! Reads items that begin with a type, and so tells declarations, functions and structs apart.
#![tactic(auto, unfolding(crate::proofs::Opened::Functions::typed_items))]

ghost use Rattle.std.specs.Prelude.{◌<◌};
ghost use Rattle.snl_grammar.specs.Reading.Functions as spec;
ghost use Rattle.snl_expression.specs.Reads.{ReadsFrom};

use crate::declaration::declaration_from;
use crate::function::structs::struct_members;
use crate::function::{Blocks, function_from};
use snl_expression::{Stop, accept, expect, kind_at, stars, type_of};
use snl_grammar::tree::item::Item;
use snl_grammar::tree::types::{Base, Pointer, QualifiedType};
use snl_lex::Kind;
use sqlite_items::{Boxed, Items};
use std::alloc::Global;

// ["const"], after `struct NAME`
// const
fn type_from(
    kinds: &[Kind],
    at: usize,
    leading_const: bool,
    base: Base,
) -> Result<(QualifiedType, usize), Stop>
    ensures { ReadsFrom kinds.now at result (spec.type_from leading_const base) }
{
    let (trailing_const, at) = accept(kinds, at, Kind::Const);
    let of = QualifiedType {
        leading_const,
        base,
        trailing_const,
    };
    Ok((of, at))
}

// function, after its name
// (double v, int n) { return v * n; }
fn function_item<B: Blocks>(
    alloc: Global,
    kinds: &[Kind],
    at: usize,
    depth: usize,
    blocks: &B,
    of: QualifiedType,
    pointers: Items<Pointer>,
    name: usize,
) -> Result<(Item, usize), Stop>
    requires some { 0 < depth }
    ensures { ReadsFrom kinds.now at result
        (spec.function_item depth (B.reader depth) of pointers name) }
{
    let (function, at) = function_from(alloc, kinds, at, depth, blocks, of, pointers, name)?;
    Ok((Item::Function(Boxed::new(alloc, function)?), at))
}

// decl, after its first name
// = 1, high = 2;
fn declaration_item(
    alloc: Global,
    kinds: &[Kind],
    at: usize,
    depth: usize,
    of: QualifiedType,
    pointers: Items<Pointer>,
    name: usize,
) -> Result<(Item, usize), Stop>
    requires some { 0 < depth }
    ensures { ReadsFrom kinds.now at result (spec.declaration_item depth of pointers name) }
{
    let (declaration, at) = declaration_from(alloc, kinds, at, depth, of, pointers, name)?;
    Ok((Item::Definition(Boxed::new(alloc, declaration)?), at))
}

// function | decl, after its first name
// [2], high = 2;
fn named_item<B: Blocks>(
    alloc: Global,
    kinds: &[Kind],
    at: usize,
    depth: usize,
    blocks: &B,
    of: QualifiedType,
    pointers: Items<Pointer>,
    name: usize,
) -> Result<(Item, usize), Stop>
    requires some { 0 < depth }
    ensures { ReadsFrom kinds.now at result
        (spec.named_item depth (B.reader depth) of pointers name) }
{
    match kind_at(kinds, at) {
        Some(Kind::OpenParen) => {
            function_item(alloc, kinds, at, depth, blocks, of, pointers, name)
        }
        _ => declaration_item(alloc, kinds, at, depth, of, pointers, name),
    }
}

// function | decl, after its type
// *low, high = 2;
fn item_of<B: Blocks>(
    alloc: Global,
    kinds: &[Kind],
    at: usize,
    depth: usize,
    blocks: &B,
    of: QualifiedType,
) -> Result<(Item, usize), Stop>
    requires some { 0 < depth }
    ensures { ReadsFrom kinds.now at result (spec.item_of depth (B.reader depth) of) }
{
    let (pointers, at) = stars(alloc, kinds, at)?;
    let name = at;
    let at = expect(kinds, at, Kind::Name)?;
    named_item(alloc, kinds, at, depth, blocks, of, pointers, name)
}

// "{" { decl | CCODE } "}" ";", after `struct NAME`
// { double low; int count; };
fn struct_definition(
    alloc: Global,
    kinds: &[Kind],
    at: usize,
    depth: usize,
    name: usize,
) -> Result<(Item, usize), Stop>
    requires some { 0 < depth }
    ensures { ReadsFrom kinds.now at result (spec.struct_definition depth name) }
{
    let (members, at) = struct_members(alloc, kinds, at, depth - 1)?;
    Ok((Item::StructDef { name, members }, at))
}

// function | decl, after `struct NAME`
// const *first;
fn struct_type<B: Blocks>(
    alloc: Global,
    kinds: &[Kind],
    at: usize,
    depth: usize,
    blocks: &B,
    name: usize,
) -> Result<(Item, usize), Stop>
    requires some { 0 < depth }
    ensures { ReadsFrom kinds.now at result (spec.struct_type depth (B.reader depth) name) }
{
    let (of, at) = type_from(kinds, at, false, Base::Struct(name))?;
    item_of(alloc, kinds, at, depth, blocks, of)
}

// struct | function | decl, after `struct NAME`
// { double low; int count; };
fn struct_from<B: Blocks>(
    alloc: Global,
    kinds: &[Kind],
    at: usize,
    depth: usize,
    blocks: &B,
    name: usize,
) -> Result<(Item, usize), Stop>
    requires some { 0 < depth }
    ensures { ReadsFrom kinds.now at result (spec.struct_from depth (B.reader depth) name) }
{
    match kind_at(kinds, at) {
        Some(Kind::OpenBrace) => struct_definition(alloc, kinds, at, depth, name),
        _ => struct_type(alloc, kinds, at, depth, blocks, name),
    }
}

// struct = "struct" NAME "{" { decl | CCODE } "}" ";"
//     | a function or decl that begins with `struct`
// struct range { double low; int count; };
fn struct_item<B: Blocks>(
    alloc: Global,
    kinds: &[Kind],
    at: usize,
    depth: usize,
    blocks: &B,
) -> Result<(Item, usize), Stop>
    requires some { 0 < depth }
    ensures { ReadsFrom kinds.now at result (spec.struct_item depth (B.reader depth)) }
{
    let at = expect(kinds, at, Kind::Struct)?;
    let name = at;
    let at = expect(kinds, at, Kind::Name)?;
    struct_from(alloc, kinds, at, depth, blocks, name)
}

// function | decl
// double low = 1, high = 2;
fn type_item<B: Blocks>(
    alloc: Global,
    kinds: &[Kind],
    at: usize,
    depth: usize,
    blocks: &B,
) -> Result<(Item, usize), Stop>
    requires some { 0 < depth }
    ensures { ReadsFrom kinds.now at result (spec.type_item depth (B.reader depth)) }
{
    let (of, at) = type_of(kinds, at)?;
    item_of(alloc, kinds, at, depth, blocks, of)
}

/// An item that begins with a type, in so many levels: a declaration, a function or a struct.
// struct | function | decl
// double low = 1, high = 2;
pub fn typed_item<B: Blocks>(
    alloc: Global,
    kinds: &[Kind],
    at: usize,
    depth: usize,
    blocks: &B,
) -> Result<(Item, usize), Stop>
    requires some { 0 < depth }
    ensures { ReadsFrom kinds.now at result (spec.typed_item depth (B.reader depth)) }
{
    match kind_at(kinds, at) {
        Some(Kind::Struct) => struct_item(alloc, kinds, at, depth, blocks),
        _ => type_item(alloc, kinds, at, depth, blocks),
    }
}
