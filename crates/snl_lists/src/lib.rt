//! Lists that change in place: a part of one is replaced, places are moved, values stay under their
//! keys. All growth is asked for beforehand, so that no change can fail. The crate knows nothing of
//! what is listed.
#![tactic(auto)]

mod in_place;
mod order;

pub use in_place::{replace, replace_and_shift, shift};
pub use order::Ordered;
