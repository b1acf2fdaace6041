//! Tables after an edit before line markers, which shifts what their rows point to and the lines up
//! to the next marker: the rows are changed in place. No memory is asked for.

ghost use Rattle.std.specs.Prelude.{◌≡◌, map};
ghost use Rattle.snl_lex.specs.declared.line_shift.LineShift.{LineShift};
ghost use Rattle.snl_lex.specs.LineShift.{moved_line};
ghost use Rattle.snl_tables.specs.Moved.{moved_set, moved_state, moved_tables};
ghost use Rattle.snl_tables.specs.Shifted.{shifted_span};

use crate::row_list::Rows;
use crate::rows::{SetRow, Span, StateRow, Tables};
use crate::shift::{Shifts, shift_any};
use snl_lex::{Line, LineShift};

// What has lines that an edit shifts.
trait ShiftsLines {
    ghost moved: { LineShift → Self → Self };

    fn shift_lines(&mut self, shift: LineShift)
        ensures { self.new ≡ moved shift self.old };
}

impl ShiftsLines for StateRow {
    ghost moved = { λ t row. moved_state t.by (moved_line t) row };

    fn shift_lines(&mut self, shift: LineShift) {
        shift_head(&mut self.name, &mut self.line, shift);
        self.transitions.shift(shift.by);
        self.gotos.shift(shift.by);
    }
}

impl ShiftsLines for SetRow {
    ghost moved = { λ t row. moved_set t.by (moved_line t) row };

    fn shift_lines(&mut self, shift: LineShift) {
        shift_head(&mut self.name, &mut self.line, shift);
        self.states.shift_lines(shift);
    }
}

impl<T: ShiftsLines> ShiftsLines for Rows<T> {
    ghost moved = { λ t rows. map (T.moved t) rows };

    fn shift_lines(&mut self, shift: LineShift) {
        for row in self.rows.iter_mut() {
            row.shift_lines(shift);
        }
    }
}

// The name of an item, and its line, which moves as that of the name does.
fn shift_head(name: &mut Span, line: &mut Line, shift: LineShift)
    ensures name { name.new ≡ shifted_span shift.by name.old }
    ensures line { line.new ≡ moved_line shift name.old.start line.old }
{
    *line = shift.line(name.start, *line);
    name.shift(shift.by);
}

impl Tables {
    /// Shifts what the rows point to, and their lines, as an edit shifts them that changes nothing
    /// else of these tables.
    pub fn shift_lines(&mut self, shift: LineShift)
        ensures { self.new ≡ moved_tables shift.by (moved_line shift) self.old }
    {
        shift_any(&mut self.program, shift.by);
        self.flags.shift(shift.by);
        self.channels.shift(shift.by);
        self.sets.shift_lines(shift);
    }
}
