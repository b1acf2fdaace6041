//! Another name for a name of a text. In: what is kept of the text, an offset, and the new name.
//! Out: the edits that put it in the place of each reference, or why there are none. Edits are
//! offered only if the text says after them what it said (snl_alike).
#![tactic(auto)]

mod faulty;
mod foreign;
mod laws;
mod names;
mod near;
mod objections;
mod places;
mod proposed;
mod refusal;
mod renaming;
mod unread;
mod words;

pub use laws::renamed_there_and_back;
pub use names::is_free_name;
pub use near::name_near;
pub use refusal::Refusal;
pub use renaming::{Renaming, rename};
pub use snl_alike::Replacement;
