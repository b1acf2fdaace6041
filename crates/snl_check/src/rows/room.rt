//! Lists with room for all that they are to hold.

ghost use Rattle.std.specs.Prelude.{◌≡◌, [], IfOk};

use snl_cut::OutOfMemory;
use std::alloc::Global;

/// An empty list with room for so many.
pub(crate) fn with_room<T>(alloc: Global, count: usize) -> Result<Vec<T>, OutOfMemory>
    ensures { IfOk result (λ list. list.items ≡ []) }
{
    Vec::with_capacity(alloc, count).map_err(|_| OutOfMemory)
}
