//! Where a state has its row: the links of the items come in, the number of its set and its own
//! number go out.
#![tactic(auto)]

ghost use Rattle.std.specs.Prelude.{◌≡◌, is_some};
ghost use Rattle.snl_scope.specs.Order.{state_name};
ghost use Rattle.snl_scope.specs.Places.{stands_in};
ghost use Rattle.snl_moved.specs.ShiftedAround.{set_number, state_number};

use crate::plan::RowPlace;
use snl_scope::{Links, Opening, Outline, sets_open_in_turn};

/// Whether an item begins as a state does, and has a name.
pub fn is_named_state(outline: &Outline) -> bool
    ensures { result ≡ is_some (state_name outline.now) }
{
    matches!(outline.opening, Opening::State) && outline.second.is_some()
}

/// How many state sets begin before an item.
pub fn set_number(links: &Links, item: usize) -> usize
    ensures { result ≡ set_number links.now.outlines item }
{
    let mut count = 0;
    for number in 0..item {
        if links.begins_set(number) {
            count += 1;
        }
    }
    count
}

// Whether an item is in the state set that another begins.
fn stands_in(links: &Links, set: usize, item: usize) -> bool
    ensures { result ≡ stands_in links.now.outlines set item }
{
    links.enclosing_set(item) == Some(set)
}

// How many states of a set are before an item. No item before the one that begins the set is in it.
fn state_number(links: &Links, set: usize, item: usize) -> usize
    ensures { result ≡ state_number links.now.outlines set item }
{
    sets_open_in_turn();
    let mut count = 0;
    for number in set.min(item)..item {
        if links.is_named_state(number) && stands_in(links, set, number) {
            count += 1;
        }
    }
    count
}

/// Where a state of a set has its row.
pub fn row_of(links: &Links, set: usize, item: usize) -> RowPlace
    ensures set { result.set ≡ set_number links.now.outlines set }
    ensures state { result.state ≡ state_number links.now.outlines set item }
{
    RowPlace {
        set: set_number(links, set),
        state: state_number(links, set, item),
    }
}
