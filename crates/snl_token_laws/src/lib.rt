//! Laws over the tokens of a text: facts of the definitions that the contracts of the lexical layer
//! and of the cut cite. A function here does nothing: its contract is the law.
#![tactic(auto)]

mod characters;
mod edits;
mod integers;
mod lines;
mod numbers;
mod punctuators;

pub use characters::pieces_hold_characters;
pub use edits::{edits_have_recuts, edits_meet, pieces_meet};
pub use integers::{
    decimals_read_back, hexadecimals_read_back, integers_have_values, octals_read_back,
};
pub use lines::{lines_after_markers, lines_rise, marker_files_read_back, markers_read_back};
pub use numbers::{numbers_by_form, numbers_read_back};
pub use punctuators::punctuators_by_front;
