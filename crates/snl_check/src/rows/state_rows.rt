//! The rows of states: a state set comes in, a row for each of its states goes out.

ghost use Rattle.std.specs.Prelude.{◌≡◌, ◌<◌, ℕ, IfOk, OnOk, false, length, slice_index_or};
ghost use Rattle.snl_check.specs.Collected.{IsLinked, IsStateSource, items_in, over};
ghost use Rattle.snl_check.specs.Members.{has_faulty, is_faulty_item, states_in};
ghost use Rattle.snl_check.specs.States as states;

use crate::reachability::marks::first_mark;
use crate::reachability::members::{Members, is_faulty, is_first_state, members_of, targets_among};
use crate::reachability::reaching::Search;
use crate::rows::body::body_of;
use crate::rows::room::with_room;
use crate::rows::set_scratch::SetScratch;
use crate::rows::state_source::StateSource;
use crate::rows::wake_ups::wake_ups;
use snl_cut::OutOfMemory;
use snl_tables::{StateBody, StateMark, StateRow};
use sqlite_items::Items;

// What is known of a state, which has this number among the states of its set.
fn mark_of(
    state_source: &StateSource,
    members: &Members,
    reached: &[bool],
    number: usize,
    state: usize,
) -> StateMark
    requires linked { IsLinked state_source.now.row_source }
    requires state { state < length state_source.now.row_source.program.trees.now }
    ensures { result ≡ states.first_mark
        (is_faulty_item (items_in state_source.now.row_source.program) state)
        (states.is_repeated state_source.now.row_source.links.now.outlines state)
        members.now.has_faulty (slice_index_or reached.now number false) }
{
    let is_faulty = is_faulty(&state_source.row_source, state);
    let is_first = is_first_state(&state_source.row_source, state);
    first_mark(is_faulty, is_first, members.has_faulty, reached, number)
}

// Finds of each state of a set whether it is reached. Where an item of the set is faulty, nothing is
// said.
fn reached_among(
    state_source: &StateSource,
    members: &Members,
    set: usize,
    targets: &mut Vec<Vec<usize>>,
    search: &mut Search,
) -> Result<(), OutOfMemory>
    requires state_source { IsStateSource state_source.now }
    requires states { members.now.states.items
        ≡ states_in state_source.now.row_source.links.now.outlines set }
    ensures { OnOk result (members.now.has_faulty ≡ false
        → (number : ℕ)
        → number < length (states_in state_source.now.row_source.links.now.outlines set)
        → slice_index_or search.new.reached.items number false
        ≡ over state_source.now.row_source states.is_reached_in set number) }
{
    if members.has_faulty {
        return Ok(());
    }
    targets_among(state_source, &members.states, targets)?;
    search.follow(&targets[..members.states.len()])?;
    Ok(())
}

// The body of the row of the state that an item is.
fn body_at(state_source: &StateSource, item: usize) -> Result<StateBody, OutOfMemory>
    requires { IsStateSource state_source.now }
    ensures { IfOk result (λ body. body
        ≡ states.state_body state_source.now.row_source.program.text.now
        state_source.now.row_source.links.now.outlines item
        (states.item_at (items_in state_source.now.row_source.program) item)) }
{
    let program = &state_source.row_source.program;
    body_of(
        &program.source(item),
        program.tree(item),
        state_source.row_source.links,
        item,
        state_source.target_uses(item),
        state_source.line(item),
    )
}

fn state_row(
    state_source: &StateSource,
    mark: StateMark,
    item: usize,
) -> Result<StateRow, OutOfMemory>
    requires state_source { IsStateSource state_source.now }
    requires item { item < length state_source.now.row_source.program.trees.now }
    ensures { IfOk result (λ row. row
        ≡ over state_source.now.row_source states.state_row mark item) }
{
    let body = body_at(state_source, item)?;
    Ok(StateRow {
        name: body.name,
        line: body.line,
        mark,
        options: body.options,
        transitions: body.transitions,
        gotos: body.gotos,
        wake: Items::from_vec(wake_ups(state_source, item)?),
    })
}

// The states of a set, of which these are the members, and this is known of each that is reached.
fn rows_among(
    state_source: &StateSource,
    set: usize,
    members: &Members,
    reached: &[bool],
) -> Result<Vec<StateRow>, OutOfMemory>
    requires state_source { IsStateSource state_source.now }
    requires set { set < length state_source.now.row_source.program.trees.now }
    requires states { members.now.states.items
        ≡ states_in state_source.now.row_source.links.now.outlines set }
    requires faulty { members.now.has_faulty
        ≡ has_faulty (items_in state_source.now.row_source.program)
        state_source.now.row_source.links.now.outlines set }
    requires reached { members.now.has_faulty ≡ false
        → (number : ℕ)
        → number < length (states_in state_source.now.row_source.links.now.outlines set)
        → slice_index_or reached.now number false
        ≡ over state_source.now.row_source states.is_reached_in set number }
    ensures { IfOk result (λ rows. rows.items
        ≡ over state_source.now.row_source states.state_rows set) }
{
    let mut rows = with_room(state_source.row_source.program.alloc, members.states.len())?;
    for (number, state) in members.states.iter().enumerate() {
        let mark = mark_of(state_source, members, reached, number, *state);
        rows.push(state_row(state_source, mark, *state)?)?;
    }
    Ok(rows)
}

/// The states of the set that an item begins, in the order of the text.
pub(crate) fn state_rows(
    state_source: &StateSource,
    set: usize,
    scratch: &mut SetScratch,
) -> Result<Vec<StateRow>, OutOfMemory>
    requires state_source { IsStateSource state_source.now }
    requires set { set < length state_source.now.row_source.program.trees.now }
    ensures { IfOk result (λ rows. rows.items
        ≡ over state_source.now.row_source states.state_rows set) }
{
    let SetScratch {
        members,
        targets,
        search,
    } = scratch;
    members_of(&state_source.row_source, set, members)?;
    reached_among(state_source, members, set, targets, search)?;
    let rows = rows_among(state_source, set, members, &search.reached)?;
    Ok(rows)
}
