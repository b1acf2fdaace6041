//! What is kept of a text that is edited: the lists of its parts, its diagnostics and its tables.
//! Edits come in, what they cost goes out. Whatever edits led to a text, what is kept of it is what
//! the text alone defines. An edit makes the fresh pieces, parses the fresh items and checks these
//! and the items that see the others in another way, and no more; the links, the diagnostics and
//! the tables are made anew, unless the edit leaves all tokens, lines and findings as they are, at
//! their places or shifted: then these are shifted in place; or unless it is inside one item that
//! says what it said: then all is shifted but for that item and the rows of its state set. Private
//! below `kept`: `ways` plans an edit (`editing`) and tells its way, `plan` has the types of a
//! plan, `found` tells what is found in a text, `entries` parses items and sums them up, and
//! `lists` takes over what is made. It doesn't hold the text, and knows nothing of sizes and
//! ranges.
#![tactic(auto)]

mod editing;
mod entries;
mod found;
mod kept;
mod kept_checks;
mod laws;
mod lists;
mod opening;
mod plan;
mod shared;
mod values;
mod ways;
mod work;

pub use found::findings::Diagnostic;
pub use kept::Kept;
pub use laws::once_laws::found_once;
pub use laws::text_laws::{linked_once, rows_have_bytes};
pub use lists::Lists;
pub use work::Work;
