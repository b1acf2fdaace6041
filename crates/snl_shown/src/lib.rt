//! What the text of a session says, as a client is shown it.
//!
//! A session comes in, or a place of its text. What is found in the text, its symbols, where a name
//! is declared, what is told of it and where it is named go out, between places. No code here knows
//! of documents and of what is answered to which message; the laws say what that comes to over such
//! texts.
//!
//! `found` has what is found, `symbols` the symbols, `names` what is told of a name, `references`
//! where it is named, and `answers` the answer to each question; `places` counts places in a text,
//! on from one to the next. `shown` hands all that to the server.
#![tactic(auto)]

mod answers;
mod found;
mod laws;
mod names;
mod places;
mod references;
mod shown;
mod source;
mod symbols;

pub use laws::{diagnostics_by_text, limits_agree, questions_by_text};
pub use shown::SessionText;
