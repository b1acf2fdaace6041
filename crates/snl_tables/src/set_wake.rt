//! Tables of which what wakes one state is changed in place. No memory is asked for.

ghost use Rattle.std.specs.Prelude.{◌≡◌};
ghost use Rattle.snl_tables.specs.Shifted as rows;

use crate::row_list::Rows;
use crate::rows::{SetRow, StateRow, Tables, WakeUp};
use sqlite_items::Items;

fn wake_by(state: &mut StateRow, wake: Items<WakeUp>)
    ensures { state.new ≡ rows.with_own_wake wake state.old }
{
    state.wake = wake;
}

// Changes what wakes the state with a number, if there is one.
fn wake_among(states: &mut Rows<StateRow>, number: usize, wake: Items<WakeUp>)
    ensures { states.new ≡ rows.changed_at (rows.with_own_wake wake) number states.old }
{
    if number < states.rows.len() {
        wake_by(&mut states.rows[number], wake);
    }
}

fn wake_in(set: &mut SetRow, number: usize, wake: Items<WakeUp>)
    ensures { set.new ≡ rows.with_wake_in number wake set.old }
{
    wake_among(&mut set.states, number, wake);
}

fn wake_in_sets(sets: &mut Rows<SetRow>, set: usize, number: usize, wake: Items<WakeUp>)
    ensures { sets.new ≡ rows.changed_at (rows.with_wake_in number wake) set sets.old }
{
    if set < sets.rows.len() {
        wake_in(&mut sets.rows[set], number, wake);
    }
}

impl Tables {
    /// Changes what wakes a state, by the number of its set and its own number in the set. Where
    /// there is no such state, nothing changes.
    pub fn set_wake(&mut self, set: usize, number: usize, wake: Items<WakeUp>)
        ensures { self.new ≡ rows.with_wake self.old set number wake }
    {
        wake_in_sets(&mut self.sets, set, number, wake);
    }
}
