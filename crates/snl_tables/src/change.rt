//! Tables of which the body of one state is changed in place. No memory is asked for.

ghost use Rattle.std.specs.Prelude.{◌≡◌};
ghost use Rattle.snl_tables.specs.Shifted as rows;

use crate::row_list::Rows;
use crate::rows::{SetRow, StateBody, StateRow, Tables};

// Gives a state another body.
fn fill(state: &mut StateRow, body: StateBody)
    ensures { state.new ≡ rows.with_own_body body state.old }
{
    state.name = body.name;
    state.line = body.line;
    state.options = body.options;
    state.transitions = body.transitions;
    state.gotos = body.gotos;
}

// Gives another body to the state with a number, if there is one.
fn fill_among(states: &mut Rows<StateRow>, number: usize, body: StateBody)
    ensures { states.new ≡ rows.changed_at (rows.with_own_body body) number states.old }
{
    if number < states.rows.len() {
        fill(&mut states.rows[number], body);
    }
}

fn fill_in(set: &mut SetRow, number: usize, body: StateBody)
    ensures { set.new ≡ rows.with_body_in number body set.old }
{
    fill_among(&mut set.states, number, body);
}

fn fill_in_sets(sets: &mut Rows<SetRow>, set: usize, number: usize, body: StateBody)
    ensures { sets.new ≡ rows.changed_at (rows.with_body_in number body) set sets.old }
{
    if set < sets.rows.len() {
        fill_in(&mut sets.rows[set], number, body);
    }
}

impl Tables {
    /// Gives another body to a state, by the number of its set and its own number in the set. Where
    /// there is no such state, nothing changes.
    pub fn set_body(&mut self, set: usize, number: usize, body: StateBody)
        ensures { self.new ≡ rows.with_body self.old set number body }
    {
        fill_in_sets(&mut self.sets, set, number, body);
    }
}
