//! The state set that each item is in, and the heads of all items side by side.

ghost use Rattle.std.specs.Prelude.{◌≡◌, IfOk, Some, None, if◌then◌else◌, length, map};
ghost use Rattle.snl_scope.specs.Places.{begins_set, ends_set};
ghost use Rattle.snl_scope.specs.NameTables.{Placed, head_of};

use crate::items::heads::Head;
use crate::outlines::outline_list::OutlineList;
use snl_cut::OutOfMemory;
use snl_summary::Role;
use std::alloc::Global;

// The place of an item, where `outer` is the state set that is open before it.
fn place_in(role: Role, outer: Option<usize>) -> Option<usize>
    ensures { result ≡ (if begins_set role then None else outer) }
{
    match role {
        Role::SetBegin => None,
        _ => outer,
    }
}

// The state set that is open after an item.
fn open_after(role: Role, item: usize, outer: Option<usize>) -> Option<usize>
    ensures { result
        ≡ (if begins_set role then Some item else (if ends_set role then None else outer)) }
{
    match role {
        Role::SetBegin => Some(item),
        Role::SetEnd => None,
        _ => outer,
    }
}

/// Where all items are. Heads have a list of their own, since a key reads them of all items, and
/// outlines are many times as large.
#[derive(Drop)]
pub(crate) struct ItemPlaces {
    pub places: Vec<Option<usize>>,
    pub heads: Vec<Head>,
}

/// The places and heads of all items.
pub(crate) fn places_of(alloc: Global, outlines: &OutlineList) -> Result<ItemPlaces, OutOfMemory>
    ensures places { IfOk result (λ made.
        Placed made.places.items outlines.now.outlines (length outlines.now.outlines)) }
    ensures heads { IfOk result (λ made.
        made.heads.items ≡ map head_of outlines.now.outlines) }
{
    let count = outlines.count();
    let mut places = Vec::with_capacity(alloc, count)?;
    let mut heads = Vec::with_capacity(alloc, count)?;
    let mut outer = None;
    for item in 0..count {
        let head = outlines.head(item);
        places.push(place_in(head.role, outer))?;
        heads.push(head)?;
        outer = open_after(head.role, item, outer);
    }
    Ok(ItemPlaces { places, heads })
}
