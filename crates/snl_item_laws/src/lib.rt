//! Laws of items that join what lower crates say of them: the walk with the spelling of trees, the
//! cut with the grammar. No program needs them: each is the contract of a function that does
//! nothing.
#![tactic(auto)]

mod cut_laws;
mod depth_laws;
mod walk_laws;

pub use cut_laws::items_are_cut_whole;
pub use depth_laws::few_brackets_are_open;
pub use walk_laws::{changes_are_found, jumps_are_found, names_are_found, targets_are_found};
