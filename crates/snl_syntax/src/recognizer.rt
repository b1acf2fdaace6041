//! The parser without a tree: whether tokens of some kinds make an item.

ghost use Rattle.std.specs.Prelude.{◌≡◌, ◌<◌, IfOk, length};
ghost use Rattle.snl_syntax.specs.Recognized.{recognition_of};

use crate::item::item_in;
use crate::parse::within;
use snl_cut::OutOfMemory;
use snl_expression::Stop;
use snl_lex::Kind;
use std::alloc::Global;

/// Whether tokens make an item; where not, the number of the token at fault, from 0. It is the last
/// one where only the item's end is missing.
#[derive(Clone, Copy, Debug, PartialEq, Eq)]
pub enum Recognition {
    Item,
    NoItem(usize),
}

/// Whether tokens of these kinds make an item. It is `parse_item` without a text; the tree that it
/// reads is dropped, and no work is counted.
#[tactic(auto, unfolding(crate::proofs::Opened::Items::item_of))]
pub fn recognize(alloc: Global, kinds: &[Kind]) -> Result<Recognition, OutOfMemory>
    requires some { 0 < length kinds.now }
    ensures { IfOk result (λ answer. answer ≡ recognition_of kinds.now) }
{
    match item_in(alloc, kinds) {
        Ok(_) => Ok(Recognition::Item),
        Err(Stop::OutOfMemory) => Err(OutOfMemory),
        Err(Stop::Here(at)) => Ok(Recognition::NoItem(within(at, kinds.len() - 1))),
    }
}
