//! The kinds of items, from their summaries.

ghost use Rattle.std.specs.Prelude.{◌≡◌, ◌≤◌, ◌++◌, IfOk, drop, length, map, take};

use snl_cut::OutOfMemory;
use snl_summary::{ItemKind, Summary};
use std::alloc::Global;

/// The kinds of all items.
pub(crate) fn kinds_of(alloc: Global, summaries: &[&Summary]) -> Result<Vec<ItemKind>, OutOfMemory>
    ensures { IfOk result (λ kinds. kinds.items ≡ map (λ s. s.now.kind) summaries.now) }
{
    let mut kinds = Vec::with_capacity(alloc, summaries.len())?;
    for summary in summaries {
        kinds.push(summary.kind)?;
    }
    Ok(kinds)
}

/// The kinds of all items, where those of the items from `front` up to `back` are replaced by those
/// of other ones.
pub(crate) fn kinds_after(
    alloc: Global,
    kinds: &[ItemKind],
    front: usize,
    back: usize,
    summaries: &[&Summary],
) -> Result<Vec<ItemKind>, OutOfMemory>
    requires front { front ≤ length kinds.now }
    requires back { back ≤ length kinds.now }
    ensures { IfOk result (λ all. all.items ≡ take front kinds.now
        ++ (map (λ s. s.now.kind) summaries.now ++ drop back kinds.now)) }
{
    let made = kinds_of(alloc, summaries)?;
    let mut all = Vec::with_capacity(alloc, kinds.len().saturating_add(made.len()))?;
    all.extend_from_slice(&kinds[..front])?;
    all.extend_from_slice(&made)?;
    all.extend_from_slice(&kinds[back..])?;
    Ok(all)
}
