//! The session layer: a text that is edited by ranges of bytes comes in, its diagnostics, its
//! tables and its listing go out. Whatever edits led to a text, these are those that the text alone
//! defines. It has the text and what is kept of it, tests the range and the size of an edit, and
//! knows nothing of scripts, of files or of how a diagnostic is printed.
#![tactic(auto)]

mod edits;
mod sessions;

pub use edits::Refused;
pub use sessions::Session;
pub use snl_check::{
    ChannelRow, Destination, FlagRow, NamedState, OptionRow, Queue, ScopeName, SetRow, Span,
    StateMark, StateRow, Synced, Tables, WakeUp,
};
pub use snl_codes::Code;
pub use snl_kept::{Diagnostic, Work, found_once, linked_once, rows_have_bytes};
pub use snl_listing::{Lister, Sink};
