//! What is found at a place of a text, with and without its line.
#![tactic(auto)]

use snl_codes::Code;

/// What is found at a byte offset of the text.
#[derive(Clone, Copy, Debug, PartialEq, Eq)]
pub struct Diagnostic {
    /// The byte offset in the text.
    pub offset: usize,
    /// The number of the line, where the first line has 1.
    pub line: usize,
    /// The start and length, in the text, of the file's name that a line marker set, if one did.
    pub file: Option<(usize, usize)>,
    pub code: Code,
    /// How many bytes at the offset are quoted; 0 quotes nothing.
    pub subject: usize,
}

/// A diagnostic that has no line and file yet.
#[derive(Clone, Copy)]
pub struct Finding {
    pub offset: usize,
    pub code: Code,
    pub subject: usize,
}
