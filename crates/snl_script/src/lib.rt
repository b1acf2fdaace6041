//! Scripts and answers, as bytes.
//! In: a reader that gives a script or a file; numbers and bytes that an answer has. Out: the
//! commands of the script, the bytes of the file, and the answer to a writer, in few large writes.
//! Knows nothing of sessions, and of what is answered to which command.
//! `watched` counts calls, `ahead` reads a script, `script` tells its commands, `file` reads a
//! file, `page` writes, and `parts` says what is told by plain values.
#![tactic(auto)]

mod ahead;
mod file;
mod laws;
mod page;
mod parts;
mod script;
mod watched;

pub use ahead::{Ahead, ReadFault};
pub use file::{SourceFault, read_whole};
pub use laws::{commands_read_back, whole_commands_stay};
pub use page::{Page, WriteFault, write_out};
pub use parts::{put_counts, put_file, put_subject, put_sum};
pub use script::{Command, Front, front_of};
pub use watched::Watched;
