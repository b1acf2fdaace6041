//! What is said to a client, in frames.
//!
//! What is said comes in: diagnostics, notices, answers, errors. The bytes of a message go out,
//! after those that are there: its header and its body. The crate knows nothing of documents, and
//! of what is answered to which message.
#![tactic(auto)]

mod replies;

pub use replies::{say_answer, say_error, say_found, say_initialize, say_notice, say_null};
