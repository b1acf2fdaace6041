//! Whether two tables have the same rows, with the places of their names.

use snl_session::{ChannelRow, SetRow, StateRow, Tables};
use sqlite_items::Items;

fn same_channels(told: &[ChannelRow], wanted: &[ChannelRow]) -> bool {
    told.len() == wanted.len()
        && told.iter().zip(wanted).all(|(a, b)| {
            a.variable == b.variable
                && a.element == b.element
                && a.scope == b.scope
                && a.pv.bytes() == b.pv.bytes()
                && a.is_monitored == b.is_monitored
                && a.sync == b.sync
        })
}

fn same_variables(told: &[Items<usize>], wanted: &[Items<usize>]) -> bool {
    told.len() == wanted.len()
        && told
            .iter()
            .zip(wanted)
            .all(|(a, b)| a.as_slice() == b.as_slice())
}

fn same_state(told: &StateRow, wanted: &StateRow) -> bool {
    told.name == wanted.name
        && told.line == wanted.line
        && told.mark == wanted.mark
        && told.options.as_slice() == wanted.options.as_slice()
        && told.transitions.as_slice() == wanted.transitions.as_slice()
        && told.gotos.as_slice() == wanted.gotos.as_slice()
        && told.wake.as_slice() == wanted.wake.as_slice()
}

fn same_states(told: &[StateRow], wanted: &[StateRow]) -> bool {
    told.len() == wanted.len() && told.iter().zip(wanted).all(|(a, b)| same_state(a, b))
}

fn same_sets(told: &[SetRow], wanted: &[SetRow]) -> bool {
    told.len() == wanted.len()
        && told.iter().zip(wanted).all(|(a, b)| {
            a.name == b.name
                && a.line == b.line
                && same_states(a.states.as_slice(), b.states.as_slice())
        })
}

/// Whether all rows of two tables are the same.
pub fn same_tables(told: &Tables, wanted: &Tables) -> bool {
    told.program == wanted.program
        && told.options.as_slice() == wanted.options.as_slice()
        && told.flags.as_slice() == wanted.flags.as_slice()
        && same_channels(told.channels.as_slice(), wanted.channels.as_slice())
        && same_variables(told.variables.as_slice(), wanted.variables.as_slice())
        && same_sets(told.sets.as_slice(), wanted.sets.as_slice())
}
