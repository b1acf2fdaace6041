//! Laws of what is found in a text and of what an edit keeps, beside the crates that tell it. A
//! function here does nothing: its contract is a law, and nothing calls it.
#![tactic(auto)]

mod kept_laws;
mod option_laws;
mod order_laws;
mod own_laws;
mod place_laws;

pub use kept_laws::kept_items_spelled_alike;
pub use option_laws::options_withhold_warnings;
pub use order_laws::ordered_texts_have_no_misplaced_item;
pub use own_laws::{faulty_items_have_no_other, one_fault_an_item};
pub use place_laws::{diagnostics_are_shown, diagnostics_lie_in_text, files_lie_in_text};
