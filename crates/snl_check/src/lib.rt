//! The tables of a text: its items, their links and what their checks gave come in, rows go out;
//! and which states of a set the walks along targets lead to. It knows no edits, and not how names
//! are found.
#![tactic(auto)]

mod laws;
mod reachability;
mod rows;

pub use laws::walks_of_few_steps;
pub use reachability::marks::{SetMember, state_marks};
pub use reachability::reaching::reach;
pub use rows::body::state_body;
pub use rows::known_rows::KnownRows;
pub use rows::tables_of::{tables, tables_by_tokens};
pub use rows::wakes_by_rows::wakes_by_rows;
pub use snl_item_check::{Checked, ItemFault, check_item};
pub use snl_tables::{
    ChannelRow, Destination, FlagRow, NamedState, OptionRow, Queue, ScopeName, SetRow, Span,
    StateBody, StateMark, StateRow, Synced, Tables, WakeUp,
};
pub use snl_walk::{TargetUse, WakeUse};
