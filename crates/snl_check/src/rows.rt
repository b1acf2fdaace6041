//! The tables of a text: options, flags, channels, state sets, states and their wake-up sets, a row
//! each.

pub(crate) mod body;
pub(crate) mod channel_names;
pub(crate) mod channel_numbers;
pub(crate) mod channel_rows;
pub(crate) mod channels;
pub(crate) mod flag_rows;
pub(crate) mod item_clauses;
pub(crate) mod item_source;
pub(crate) mod known_rows;
pub(crate) mod option_rows;
pub(crate) mod room;
pub(crate) mod row_source;
pub(crate) mod set_copies;
pub(crate) mod set_rows;
pub(crate) mod set_scratch;
pub(crate) mod state_rows;
pub(crate) mod state_source;
pub(crate) mod syncs;
pub(crate) mod tables_of;
pub(crate) mod text_items;
pub(crate) mod wake_ups;
pub(crate) mod wakes_by_rows;
