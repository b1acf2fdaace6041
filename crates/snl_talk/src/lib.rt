//! The talk with a client: messages come from a reader, their answers go to a writer.
//!
//! Whoever answers is told each message, and says what is written. The crate knows nothing of what
//! a message asks, of documents, and of what is answered.
//!
//! `answers` is who answers, `server` has the loop.
#![tactic(auto)]

mod answers;
mod server;

pub use answers::Answers;
pub use server::converse_over;
