//! Laws of the language server, whatever texts say. A function here does nothing: its contract is a
//! law, and nothing calls it.
#![tactic(auto)]

mod answer_laws;
mod change_laws;
mod text_laws;

pub use answer_laws::{replies_are_json, requests_are_answered_once, talks_are_answered};
pub use change_laws::{changes_are_published, closings_are_published, openings_are_published};
pub use text_laws::{documents_are_text, messages_are_text, replies_read_back};
