//! Why a call changed nothing.
#![tactic(auto)]

use thiserror::Error;

/// Why a call changed nothing. An edit tests its range first, then the size, and then asks for
/// memory.
#[derive(Clone, Copy, Debug, PartialEq, Eq, Error)]
pub enum Refused {
    /// The range ends before it begins, or after the text.
    #[error("the range is not within the text")]
    Range,
    /// The new text would have more than 1,048,576 bytes.
    #[error("the text would be too large")]
    Size,
    /// A growth was refused.
    #[error("out of memory")]
    Memory,
}
