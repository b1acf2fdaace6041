//! The tables of a text, as values: rows of options, event flags, channels, state sets and states,
//! and the wake-up set of a state. It knows no rules: who makes the rows, and who prints them, are
//! other crates.
#![tactic(auto)]

mod change;
mod number_set;
mod row_list;
mod rows;
mod set_marks;
mod set_wake;
mod shift;
mod shift_lines;
mod wake_sets;

pub use number_set::NumberSet;
pub use row_list::Rows;
pub use rows::{
    ChannelRow, Destination, FlagRow, NamedState, OptionRow, Queue, ScopeName, SetRow, Span,
    StateBody, StateMark, StateRow, Synced, Tables, WakeUp,
};
pub use wake_sets::{WakeMarks, wake_channels, wake_flags};
