//! The script engine: a source and a script come in, the answers to the script's commands go out.
//! `document` is edited, `answers` and `listing` say what is asked of it, and `engine` joins them.
//! `source` reads the text that a file holds, and `over_file` runs a script over it.
//! It knows nothing of the command line, of paths and terminals, of how a script is read, and of
//! how anything is found.
#![tactic(auto)]

mod answers;
mod document;
mod engine;
mod faults;
mod listing;
mod over_file;
mod paged;
mod source;

pub use engine::run;
pub use faults::{RunFault, Status};
pub use over_file::{Fault, run_over, status_code};
pub use snl_script::{SourceFault, Watched};
pub use source::read_source;
