//! What rows point to after an edit that shifts it: places are changed in place. No memory is asked
//! for.

ghost use Rattle.std.specs.Prelude.{◌≡◌, map, option_map};
ghost use Rattle.snl_lex.specs.declared.shift.Shift.{Shift};
ghost use Rattle.snl_tables.specs.Shifted as rows;

use crate::row_list::Rows;
use crate::rows::{ChannelRow, Destination, FlagRow, NamedState, ScopeName, Span};
use snl_lex::Shift;

/// What an edit shifts.
pub(crate) trait Shifts {
    ghost shifted: { Shift → Self → Self };

    fn shift(&mut self, shift: Shift)
        ensures { self.new ≡ shifted shift self.old };
}

impl Shifts for Span {
    ghost shifted = { rows.shifted_span };

    fn shift(&mut self, shift: Shift) {
        self.start = shift.offset(self.start);
    }
}

impl Shifts for ScopeName {
    ghost shifted = { rows.shifted_scope };

    fn shift(&mut self, shift: Shift) {
        match self {
            ScopeName::Program => {}
            ScopeName::StateSet(set) => set.shift(shift),
            ScopeName::State { set, state } => {
                shift_any(set, shift);
                state.shift(shift);
            }
        }
    }
}

impl Shifts for FlagRow {
    ghost shifted = { rows.shifted_flag };

    fn shift(&mut self, shift: Shift) {
        self.name.shift(shift);
        self.scope.shift(shift);
    }
}

impl Shifts for ChannelRow {
    ghost shifted = { rows.shifted_channel };

    fn shift(&mut self, shift: Shift) {
        self.variable.shift(shift);
        self.scope.shift(shift);
    }
}

impl Shifts for NamedState {
    ghost shifted = { rows.shifted_named };

    fn shift(&mut self, shift: Shift) {
        self.name.shift(shift);
    }
}

impl Shifts for Destination {
    ghost shifted = { rows.shifted_destination };

    fn shift(&mut self, shift: Shift) {
        match self {
            Destination::State(state) => state.shift(shift),
            Destination::Exit => {}
        }
    }
}

pub(crate) fn shift_any(span: &mut Option<Span>, shift: Shift)
    ensures { span.new ≡ option_map (rows.shifted_span shift) span.old }
{
    if let Some(span) = span {
        span.shift(shift);
    }
}

impl<T: Shifts> Shifts for Rows<T> {
    ghost shifted = { λ s rows. map (T.shifted s) rows };

    fn shift(&mut self, shift: Shift) {
        for row in self.rows.iter_mut() {
            row.shift(shift);
        }
    }
}
