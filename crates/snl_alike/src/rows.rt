//! The rows of tables, which become others by replacements in their text.

ghost use Rattle.std.specs.Prelude.{◌≡◌, IsTrue, map, option_map};
ghost use Rattle.snl_alike.specs.Edits.{moved_stop};
ghost use Rattle.snl_alike.specs.Moved as rows;
ghost use Rattle.snl_alike.specs.Moved.{edits_in, moved_file};

use crate::moves::Moves;
use crate::moving::{Moving, Plain, all_become, are_same, becomes_if};
use snl_facts::are_same_bytes;
use snl_lex::{Class, Line};
use snl_tables::{
    ChannelRow, Destination, FlagRow, NamedState, OptionRow, Rows, ScopeName, SetRow, Span,
    StateRow, WakeUp,
};
use sqlite_items::Items;

impl Plain for usize {
    fn is_same(&self, other: &usize) -> bool {
        *self == *other
    }
}

impl Plain for u32 {
    fn is_same(&self, other: &u32) -> bool {
        *self == *other
    }
}

// A place where something ends.
impl Moving for u32 {
    ghost moved = { moved_stop };

    fn becomes(&self, moves: &Moves<'_>, new: &u32) -> bool {
        moves.stops(*self as usize, *new as usize)
    }
}

impl Plain for Class {
    fn is_same(&self, other: &Class) -> bool {
        *self == *other
    }
}

impl Plain for OptionRow {
    fn is_same(&self, other: &OptionRow) -> bool {
        *self == *other
    }
}

impl Plain for WakeUp {
    fn is_same(&self, other: &WakeUp) -> bool {
        *self == *other
    }
}

impl<T: Plain> Plain for Items<T> {
    fn is_same(&self, other: &Items<T>) -> bool {
        are_same(self.as_slice(), other.as_slice())
    }
}

impl Moving for Span {
    ghost moved = { rows.moved_span };

    fn becomes(&self, moves: &Moves<'_>, new: &Span) -> bool {
        moves.span_becomes(*self, *new)
    }
}

fn file_becomes(old: (usize, usize), moves: &Moves<'_>, new: (usize, usize)) -> bool
    ensures { IsTrue result → new ≡ moved_file (edits_in moves.now) old }
{
    moves.span_becomes(
        Span {
            start: old.0,
            len: old.1,
        },
        Span {
            start: new.0,
            len: new.1,
        },
    )
}

/// Whether the name of a file becomes another one.
pub fn file_becomes_if(
    old: Option<(usize, usize)>,
    moves: &Moves<'_>,
    new: Option<(usize, usize)>,
) -> bool
    ensures { IsTrue result → new ≡ option_map (moved_file (edits_in moves.now)) old }
{
    match (old, new) {
        (None, None) => true,
        (Some(old), Some(new)) => file_becomes(old, moves, new),
        _ => false,
    }
}

impl Moving for Line {
    ghost moved = { rows.moved_line };

    fn becomes(&self, moves: &Moves<'_>, new: &Line) -> bool {
        self.number == new.number && file_becomes_if(self.file, moves, new.file)
    }
}

impl Moving for ScopeName {
    ghost moved = { rows.moved_scope };

    fn becomes(&self, moves: &Moves<'_>, new: &ScopeName) -> bool {
        match (self, new) {
            (ScopeName::Program, ScopeName::Program) => true,
            (ScopeName::StateSet(old), ScopeName::StateSet(new)) => old.becomes(moves, new),
            (
                ScopeName::State { set, state },
                ScopeName::State {
                    set: new_set,
                    state: new_state,
                },
            ) => becomes_if(set, moves, new_set) && state.becomes(moves, new_state),
            _ => false,
        }
    }
}

impl Moving for FlagRow {
    ghost moved = { rows.moved_flag };

    fn becomes(&self, moves: &Moves<'_>, new: &FlagRow) -> bool {
        self.name.becomes(moves, &new.name) && self.scope.becomes(moves, &new.scope)
    }
}

impl Moving for ChannelRow {
    ghost moved = { rows.moved_channel };

    fn becomes(&self, moves: &Moves<'_>, new: &ChannelRow) -> bool {
        self.variable.becomes(moves, &new.variable)
            && self.element == new.element
            && self.scope.becomes(moves, &new.scope)
            && are_same_bytes(self.pv.bytes(), new.pv.bytes())
            && self.is_monitored == new.is_monitored
            && self.sync == new.sync
    }
}

impl Moving for NamedState {
    ghost moved = { rows.moved_named };

    fn becomes(&self, moves: &Moves<'_>, new: &NamedState) -> bool {
        self.name.becomes(moves, &new.name) && self.is_known == new.is_known
    }
}

impl Moving for Destination {
    ghost moved = { rows.moved_destination };

    fn becomes(&self, moves: &Moves<'_>, new: &Destination) -> bool {
        match (self, new) {
            (Destination::State(old), Destination::State(new)) => old.becomes(moves, new),
            (Destination::Exit, Destination::Exit) => true,
            _ => false,
        }
    }
}

impl<T: Moving> Moving for Rows<T> {
    ghost moved = { λ es rows. map (T.moved es) rows };

    fn becomes(&self, moves: &Moves<'_>, new: &Rows<T>) -> bool {
        all_become(self.as_slice(), moves, new.as_slice())
    }
}

impl Moving for StateRow {
    ghost moved = { rows.moved_state };

    fn becomes(&self, moves: &Moves<'_>, new: &StateRow) -> bool {
        self.name.becomes(moves, &new.name)
            && self.line.becomes(moves, &new.line)
            && self.mark == new.mark
            && self.options.is_same(&new.options)
            && self.transitions.becomes(moves, &new.transitions)
            && self.gotos.becomes(moves, &new.gotos)
            && self.wake.is_same(&new.wake)
    }
}

impl Moving for SetRow {
    ghost moved = { rows.moved_set };

    fn becomes(&self, moves: &Moves<'_>, new: &SetRow) -> bool {
        self.name.becomes(moves, &new.name)
            && self.line.becomes(moves, &new.line)
            && self.states.becomes(moves, &new.states)
    }
}
