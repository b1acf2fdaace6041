//! Whether a text says, after some replacements, what it said before. In: a text, what is kept of
//! it, and the replacements. Out: the first thing that differs, if one does. It makes no
//! replacements, changes nothing that is kept, and knows nothing of why they are made.
#![tactic(auto)]

mod differences;
mod edited_text;
mod findings;
mod laws;
mod mentions;
mod moves;
mod moving;
mod replacement;
mod rows;
mod tables;

pub use differences::{Difference, changed_answers, first_difference};
pub use edited_text::{EditedText, edited};
pub use findings::FindingChange;
pub use laws::{edits_are_undone, places_keep_their_order, tokens_move, undone_edits_move};
pub use moves::Moves;
pub use replacement::{Replacement, rise};
pub use tables::{TablePart, changed_part};
