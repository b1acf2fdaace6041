//! The messages of the Language Server Protocol, as they are in bytes.
//!
//! The bytes that were read so far come in. The message at their front goes out, if it is there
//! whole. The crate knows nothing of JSON, readers and documents.
//!
//! A message is a header and a body. The header is lines that end with LF or CR LF, the last of
//! them empty. Of its fields only `Content-Length` counts, in letters of any case.
#![tactic(auto)]

mod fields;
mod laws;
mod messages;

pub use laws::{headers_read_back, messages_read_back, messages_stay, unfinished_are_bounded};
pub use messages::{Front, message_of};
