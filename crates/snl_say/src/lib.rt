//! What a language server says, as bytes.
//!
//! Places, messages, ids of requests and the like come in. The bytes of a notification or of an
//! answer go out, after those that are there: JSON with no space. No value of JSON is built; the
//! laws say that the bytes are the text of one. The crate knows nothing of documents, and of what
//! is answered to which request.
//!
//! `diagnostics` publishes what is found in a document, of which `written` keeps what was written
//! last, `notices` shows a message to the user,
//! `answers` has the answers to requests but for those on documents: these are in `answer`, by their
//! shapes, which are in `symbols`, `location`, `hover` and `parts`. `frames` puts the header before
//! a body.
#![tactic(auto)]

mod answer;
mod answers;
mod before;
mod bytes;
mod diagnostics;
mod frames;
mod hover;
mod laws;
mod location;
mod notices;
mod parts;
mod places;
mod plain;
mod severity;
mod symbols;
mod written;

pub use answer::{Answer, put_answer};
pub use answers::{ErrorCode, Id, put_error, put_initialize, put_null};
pub use bytes::put_quoted;
pub use diagnostics::{Shown, put_publish};
pub use frames::frame_from;
pub use laws::{
    answers_are_json, error_is_json, hover_is_json, initialize_is_json, location_is_json,
    message_is_json, null_is_json, publish_is_json, symbols_are_json, symbols_are_nested,
};
pub use notices::put_message;
pub use severity::Severity;
pub use symbols::{ShownSymbol, SymbolKind};
pub use written::WrittenItems;
