//! The codes of what is found in a text, whoever finds it: how each is printed, and what its message
//! quotes. It knows nothing of texts.
#![tactic(auto)]

mod code;

pub use code::Code;
