//! Copies of rows of state sets.

ghost use Rattle.std.specs.Prelude.{◌≡◌, IfOk};

use crate::rows::room::with_room;
use snl_cut::OutOfMemory;
use snl_tables::{Rows, SetRow, StateRow};
use sqlite_items::Items;
use std::alloc::Global;

fn state_copy(alloc: Global, row: &StateRow) -> Result<StateRow, OutOfMemory>
    ensures { IfOk result (λ copy. copy ≡ row.now) }
{
    let transitions = Vec::from_slice(alloc, row.transitions.as_slice())?;
    let gotos = Vec::from_slice(alloc, row.gotos.as_slice())?;
    Ok(StateRow {
        name: row.name,
        line: row.line,
        mark: row.mark,
        options: Items::from_slice(alloc, row.options.as_slice())?,
        transitions: Rows::from_vec(transitions),
        gotos: Rows::from_vec(gotos),
        wake: Items::from_slice(alloc, row.wake.as_slice())?,
    })
}

fn state_copies(alloc: Global, rows: &[StateRow]) -> Result<Vec<StateRow>, OutOfMemory>
    ensures { IfOk result (λ copies. copies.items ≡ rows.now) }
{
    let mut copies = with_room(alloc, rows.len())?;
    for row in rows {
        copies.push(state_copy(alloc, row)?)?;
    }
    Ok(copies)
}

/// A copy of the row of a state set.
pub(crate) fn set_copy(alloc: Global, row: &SetRow) -> Result<SetRow, OutOfMemory>
    ensures { IfOk result (λ copy. copy ≡ row.now) }
{
    let states = state_copies(alloc, row.states.as_slice())?;
    Ok(SetRow {
        name: row.name,
        line: row.line,
        states: Rows::from_vec(states),
    })
}
