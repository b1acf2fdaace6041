//! Asks the parser which tokens may come.

ghost use Rattle.std.specs.Prelude.{◌≡◌, [], ◌∷◌, ◌++◌, IfOk, OnOk, cond};
ghost use Rattle.snl_expected.specs.Expected.{comes, expected_of, may_not, others_of};

use crate::kinds::KINDS;
use snl_cut::OutOfMemory;
use snl_syntax::{Kind, Recognition, recognize};
use std::alloc::Global;

/// The kinds of the tokens that may come at a place, and all others, both in the order of `KINDS`.
#[derive(Drop)]
pub struct Expected {
    pub kinds: Vec<Kind>,
    pub others: Vec<Kind>,
}

/// Whether a token of this kind may come after tokens of these kinds in an item. What is parsed is
/// the item that these begin, with one token more.
pub fn may_come(alloc: Global, before: &[Kind], next: Kind) -> Result<bool, OutOfMemory>
    ensures { IfOk result (λ answer. answer ≡ comes before.now next) }
{
    let mut tokens = Vec::new(alloc);
    tokens.extend_from_slice(before)?;
    tokens.push(next)?;
    tokens.push(Kind::Semicolon)?;
    match recognize(alloc, &tokens)? {
        Recognition::Item => Ok(true),
        Recognition::NoItem(at) => Ok(before.len() < at),
    }
}

// Puts a kind where it belongs.
fn sort(
    alloc: Global,
    before: &[Kind],
    next: Kind,
    kinds: &mut Vec<Kind>,
    others: &mut Vec<Kind>,
) -> Result<(), OutOfMemory>
    ensures kinds { OnOk result (kinds.new.items ≡ kinds.old.items
        ++ cond (comes before.now next) (next ∷ []) []) }
    ensures others { OnOk result (others.new.items ≡ others.old.items
        ++ cond (may_not before.now next) (next ∷ []) []) }
{
    if may_come(alloc, before, next)? {
        kinds.push(next)?;
    } else {
        others.push(next)?;
    }
    Ok(())
}

/// The kinds of all tokens that may come after tokens of these kinds in an item. There are none
/// where no item can begin with the tokens before, and after a whole item that can't go on. The item
/// is parsed 94 times.
pub fn expected_after(alloc: Global, before: &[Kind]) -> Result<Expected, OutOfMemory>
    ensures kinds { IfOk result (λ e. e.kinds.items ≡ expected_of before.now) }
    ensures others { IfOk result (λ e. e.others.items ≡ others_of before.now) }
{
    let mut kinds = Vec::new(alloc);
    let mut others = Vec::new(alloc);
    for kind in KINDS {
        sort(alloc, before, *kind, &mut kinds, &mut others)?;
    }
    Ok(Expected { kinds, others })
}
