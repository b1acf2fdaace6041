//! The severity of what is said.

/// The severity of a diagnostic, and the type of a message. The protocol numbers both alike: 1 is
/// an error, 2 a warning.
#[derive(Clone, Copy, Debug, PartialEq, Eq)]
pub enum Severity {
    Error,
    Warning,
}
