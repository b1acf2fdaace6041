//! Tables of which the marks of the states of one set are changed in place. No memory is asked for.

ghost use Rattle.std.specs.Prelude.{◌≡◌};
ghost use Rattle.snl_tables.specs.Shifted as rows;

use crate::row_list::Rows;
use crate::rows::{SetRow, StateMark, StateRow, Tables};

fn mark_by(state: &mut StateRow, mark: StateMark)
    ensures { state.new ≡ rows.with_own_mark mark state.old }
{
    state.mark = mark;
}

fn mark_each(states: &mut [StateRow], marks: &[StateMark])
    ensures { states.new ≡ rows.marked marks.now states.old }
{
    for (number, state) in states.iter_mut().enumerate() {
        if number < marks.len() {
            mark_by(state, marks[number]);
        }
    }
}

fn mark_in(set: &mut SetRow, marks: &[StateMark])
    ensures { set.new ≡ rows.with_marks_in marks.now set.old }
{
    mark_each(&mut set.states.rows, marks);
}

fn mark_in_sets(sets: &mut Rows<SetRow>, set: usize, marks: &[StateMark])
    ensures { sets.new ≡ rows.changed_at (rows.with_marks_in marks.now) set sets.old }
{
    if set < sets.rows.len() {
        mark_in(&mut sets.rows[set], marks);
    }
}

impl Tables {
    /// Changes the marks of the states of a set, by the set's number, one by one, as far as there
    /// are both. Where there is no such set, nothing changes.
    pub fn set_marks(&mut self, set: usize, marks: &[StateMark])
        ensures { self.new ≡ rows.with_marks self.old set marks.now }
    {
        mark_in_sets(&mut self.sets, set, marks);
    }
}
