//! The documents that a client has open, and what it is told of them.
//!
//! Texts, changes and URIs come in. What is found in a document, or why it isn't checked, goes out
//! in frames, after the bytes that are there. The crate knows nothing of messages, and of what is
//! answered to a question on a document.
//!
//! `documents` are all of them, `document` is one, `text` its text, where that is known. `checked`
//! is a text that is checked, whoever does that; `drafts` makes changes.
#![tactic(auto)]

mod checked;
mod document;
mod documents;
mod drafts;
mod standing;
mod text;

pub use checked::CheckedText;
pub use document::Document;
pub use documents::{change, close, document_of, lose, lose_all, open};
