//! A walk along outlines in flat lists, in their order.

ghost use Rattle.std.specs.Prelude.{◌≡◌, ◌^◌, ◌<◌, ◌+◌, List, ℕ, Some, length, slice_get};
ghost use Rattle.snl_scope.specs.OutlineList.{IsAt, outline_of};
ghost use Rattle.snl_summary.specs.declared.summary.Outline.{Outline};

use crate::outlines::flat::{FlatClause, FlatDeclared, FlatOutline};

/// An outline, in parts of flat lists.
#[derive(Clone, Copy)]
pub(crate) struct ToldOutline<'a> {
    pub head: FlatOutline,
    pub declares: &'a [FlatDeclared],
    pub clauses: &'a [FlatClause],
}

/// Where a walk is: at which item, and how many declarations and clauses are before it.
#[derive(Clone, Copy)]
pub(crate) struct Cursor {
    pub item: usize,
    pub declares: usize,
    pub clauses: usize,
}

impl Cursor {
    /// At the first item.
    pub(crate) fn first() -> Cursor
        ensures at { (ss : List Outline) → IsAt ss result }
        ensures item { result.item ≡ 0 }
    {
        Cursor {
            item: 0,
            declares: 0,
            clauses: 0,
        }
    }
}
