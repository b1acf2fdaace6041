//! What a client says to a language server.
//!
//! The body of a message comes in, as bytes. What it asks goes out: a request, a notification, or
//! that it is neither. Strings are lent by what was read, so that a document's text is not copied
//! again. The crate knows nothing of documents, of what is answered, and of what may be asked when.
//!
//! `body` reads the bytes as JSON, `values` and `numbers` look into it, `messages` tells what kind of
//! message it is, `requests` and `notifications` tell what it asks, `documents` what its parameters
//! say.
#![tactic(auto)]

mod body;
mod changes;
mod documents;
mod ids;
mod laws;
mod messages;
mod notifications;
mod numbers;
mod ranges;
mod requests;
mod values;

pub use body::Body;
pub use changes::Change;
pub use laws::{
    answers_read_back, ids_are_kept, json_is_shallow, notices_read_back, notifications_are_heard,
    other_members_say_nothing, requests_are_heard, values_read_back,
};
pub use messages::Message;
pub use notifications::Notification;
pub use requests::{Question, Request};
