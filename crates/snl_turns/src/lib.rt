//! The messages of a client as they come, and how the talk with it ends.
//!
//! Bytes come in, as they were read so far. The message at their front goes out, if it is there
//! whole. The crate knows nothing of what a message asks, of documents and of answers.
//!
//! `turn` is one message, `front` tells the one at the front of bytes, and `faults` names the ends
//! of a run, with the status of the program. `laws` says that bytes are these messages alone.
#![tactic(auto)]

mod faults;
mod front;
mod laws;
mod turn;

pub use faults::{Ending, Fault, status_code};
pub use front::{Next, next_in};
pub use laws::{bodies_are_heard, messages_are_told_once};
pub use turn::Turn;
