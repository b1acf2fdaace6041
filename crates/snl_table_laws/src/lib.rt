//! Laws of the tables of a text and of its listing, beside the crates that make these. A function
//! here does nothing: its contract is a law, and nothing calls it.
#![tactic(auto)]

mod channel_laws;
mod clause_laws;
mod flag_laws;
mod listing_laws;
mod order_laws;

pub use channel_laws::{one_channel_an_element, sound_assigns_apart};
pub use clause_laws::{meeting_monitors_are_found, sound_syncs_apart};
pub use flag_laws::{flags_have_rows, flags_listed_by_number};
pub use listing_laws::{
    lines_are_ascii, listing_in_lines, listing_of_text_in_lines, rows_are_lines,
};
pub use order_laws::{items_with_places_are_ordered, ordered_items_have_places};
