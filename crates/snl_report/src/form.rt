//! The forms of findings.

use crate::paint::Paint;

/// How findings are written: as blocks with their lines, or each on a line that other programs
/// read.
#[derive(Clone, Copy, Debug, PartialEq, Eq)]
pub enum Form {
    Report,
    /// Objects of JSON.
    Json,
    /// Annotations in a workflow of GitHub.
    Github,
    /// Results of SARIF.
    Sarif,
}

/// The form that findings have, and whether a report has colours.
#[derive(Clone, Copy, Debug, PartialEq, Eq)]
pub struct Style {
    pub form: Form,
    pub paint: Paint,
}
