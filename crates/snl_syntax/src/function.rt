//! Reads functions, and the other items that begin with a type.
#![tactic(auto, unfolding(crate::proofs::Opened::Functions::functions))]

ghost use Rattle.std.specs.Prelude.{◌<◌, ◌-◌, ℕ, List};
ghost use Rattle.snl_grammar.specs.Reading.Functions as spec;
ghost use Rattle.snl_grammar.specs.Steps.{Reader};
ghost use Rattle.snl_expression.specs.Reads.{ReadsFrom};
ghost use Rattle.snl_grammar.specs.declared.tree.statement.Member as trees;

mod parameters;
mod structs;
mod typed_items;

use crate::function::parameters::parameters;
use snl_expression::{Stop, expect, kind_at};
use snl_grammar::tree::item::Function;
use snl_grammar::tree::statement::Member;
use snl_grammar::tree::types::{Pointer, QualifiedType};
use snl_lex::Kind;
use sqlite_items::Items;
use std::alloc::Global;
pub use typed_items::typed_item;

/// Reads the blocks that are bodies of functions.
pub trait Blocks {
    /// What a block is, in so many levels with the one that it is in.
    ghost reader: { ℕ → Reader (List trees.Member) };

    fn block(
        &self,
        alloc: Global,
        kinds: &[Kind],
        at: usize,
        depth: usize,
    ) -> Result<(Items<Member>, usize), Stop>
        ensures { ReadsFrom kinds.now at result (reader depth) };
}

// block | ";"
// { return v * n; }
fn body<B: Blocks>(
    alloc: Global,
    kinds: &[Kind],
    at: usize,
    depth: usize,
    blocks: &B,
) -> Result<(Option<Items<Member>>, usize), Stop>
    ensures { ReadsFrom kinds.now at result (spec.body (B.reader depth)) }
{
    match kind_at(kinds, at) {
        Some(Kind::Semicolon) => {
            let at = expect(kinds, at, Kind::Semicolon)?;
            Ok((None, at))
        }
        _ => {
            let (block, at) = blocks.block(alloc, kinds, at, depth)?;
            Ok((Some(block), at))
        }
    }
}

/// A function after its name.
// "(" [ param { "," param } ] ")" ( block | ";" )
// (double v, int n) { return v * n; }
pub fn function_from<B: Blocks>(
    alloc: Global,
    kinds: &[Kind],
    at: usize,
    depth: usize,
    blocks: &B,
    of: QualifiedType,
    pointers: Items<Pointer>,
    name: usize,
) -> Result<(Function, usize), Stop>
    requires some { 0 < depth }
    ensures { ReadsFrom kinds.now at result
        (spec.function_from (spec.parameter (depth - 1)) (B.reader depth) of pointers name) }
{
    let (parameters, at) = parameters(alloc, kinds, at, depth - 1)?;
    let (body, at) = body(alloc, kinds, at, depth, blocks)?;
    let function = Function {
        of,
        pointers,
        name,
        parameters,
        body,
    };
    Ok((function, at))
}
