//! What is said where the tokens of an item stop making one. In: the tokens, and the number of the
//! one at fault. Out: where something is wanted, and what may come there, in words. It finds no
//! faults, and knows no items but this one.
#![tactic(auto)]

mod laws;
mod near;
mod note;
mod words;

pub use laws::{missing_after_the_last, near_words_are_nearest, what_is_noted_may_come};
pub use note::{Note, Wanted, note_of};
