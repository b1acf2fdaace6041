//! Whether tables become others by replacements in their text. In: both tables. Out: the first part
//! that does not, if there is one.

ghost use Rattle.std.specs.Prelude.{◌≡◌, IfNone, IsTrue};
ghost use Rattle.snl_alike.specs.Moved.{edits_in, moved_tables};

use crate::moves::Moves;
use crate::moving::{Moving, Plain, becomes_if};
use snl_tables::Tables;

/// A part of the tables of a text.
#[derive(Clone, Copy, Debug, PartialEq, Eq)]
pub enum TablePart {
    Program,
    Options,
    EventFlags,
    Channels,
    StateSets,
}

/// The first part of tables that does not become that of others, if there is one.
pub fn changed_part(old: &Tables, moves: &Moves<'_>, new: &Tables) -> Option<TablePart>
    ensures { IfNone result (new.now ≡ moved_tables (edits_in moves.now) old.now) }
{
    if !becomes_if(&old.program, moves, &new.program) {
        return Some(TablePart::Program);
    }
    if !old.options.is_same(&new.options) {
        return Some(TablePart::Options);
    }
    if !old.flags.becomes(moves, &new.flags) {
        return Some(TablePart::EventFlags);
    }
    if !old.channels.becomes(moves, &new.channels) || !old.variables.is_same(&new.variables) {
        return Some(TablePart::Channels);
    }
    if !old.sets.becomes(moves, &new.sets) {
        return Some(TablePart::StateSets);
    }
    None
}
