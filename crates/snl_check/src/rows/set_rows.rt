//! The rows of state sets: the items of a text come in, a row for each state set goes out.

ghost use Rattle.std.specs.Prelude.{◌≡◌, ◌<◌, IfOk, IfSome, length, take};
ghost use Rattle.snl_check.specs.Collected.{IsStateSource, over};
ghost use Rattle.snl_check.specs.States.{set_row, set_rows};

use crate::rows::set_copies::set_copy;
use crate::rows::set_scratch::SetScratch;
use crate::rows::state_rows::state_rows;
use crate::rows::state_source::StateSource;
use snl_cut::OutOfMemory;
use snl_tables::{Rows, SetRow};

fn set_row(
    state_source: &StateSource,
    set: usize,
    scratch: &mut SetScratch,
) -> Result<SetRow, OutOfMemory>
    requires state_source { IsStateSource state_source.now }
    requires set { set < length state_source.now.row_source.program.trees.now }
    ensures { IfOk result (λ row. row ≡ over state_source.now.row_source set_row set) }
{
    Ok(SetRow {
        name: state_source.row_source.item_name(set),
        line: state_source.line(set),
        states: Rows::from_vec(state_rows(state_source, set, scratch)?),
    })
}

// The row of a state set: a copy of it, if it is known, or made.
fn known_or_made(
    state_source: &StateSource,
    set: usize,
    known: Option<&SetRow>,
    scratch: &mut SetScratch,
) -> Result<SetRow, OutOfMemory>
    requires state_source { IsStateSource state_source.now }
    requires set { set < length state_source.now.row_source.program.trees.now }
    requires known { IfSome known (λ row. row.now ≡ over state_source.now.row_source set_row set) }
    ensures { IfOk result (λ row. row ≡ over state_source.now.row_source set_row set) }
{
    match known {
        Some(row) => set_copy(state_source.row_source.program.alloc, row),
        None => set_row(state_source, set, scratch),
    }
}

/// The state sets in the order of the text. The rows of the first ones may be known.
pub(crate) fn set_rows(
    state_source: &StateSource,
    known: &[SetRow],
) -> Result<Vec<SetRow>, OutOfMemory>
    requires state_source { IsStateSource state_source.now }
    requires known { known.now
        ≡ take (length known.now) (over state_source.now.row_source set_rows) }
    ensures { IfOk result (λ rows. rows.items ≡ over state_source.now.row_source set_rows) }
{
    let alloc = state_source.row_source.program.alloc;
    let mut scratch = SetScratch::new(alloc);
    let mut rows = Vec::new(alloc);
    for item in 0..state_source.row_source.program.trees.len() {
        if state_source.row_source.links.begins_set(item) {
            let known = known.get(rows.len());
            rows.push(known_or_made(state_source, item, known, &mut scratch)?)?;
        }
    }
    Ok(rows)
}
