//! The report of a text: what is found in it, each with its column, its line and marks under it.
//! In: a name, and a session over the text. Out: the report, to a writer, block by block.
//! Knows nothing of how anything is found, of files, and of the command line.
//! `extent` says how many bytes a finding marks, `head` puts its first line, `block` the lines of
//! one finding, and `report` all of them.
#![tactic(auto)]

mod block;
mod extent;
mod form;
mod formed;
mod head;
mod note;
mod noted;
mod paint;
mod report;
mod reported;

pub use form::{Form, Style};
pub use paint::Paint;
pub use report::{ReportFault, write_report};
