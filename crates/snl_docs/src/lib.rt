//! The documents that a language server has open, and what it answers.
//!
//! Messages of a client come in, one after another. The bodies that are answered go out, each with
//! its header, after the bytes that are there. The crate knows nothing of readers and writers, and
//! of where one message ends and the next begins.
//!
//! `docs` answers messages, `requests` those that ask, and `answers` what is asked of a document.
#![tactic(auto)]

mod answers;
mod docs;
mod laws;
mod phase;
mod requests;

pub use docs::Docs;
pub use laws::{answered_by_text, others_stay, published_by_text};
