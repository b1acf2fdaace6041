//! Laws of the outline of a text, of what its names mean, and of their references. A function here
//! does nothing of its own: its contract is a law, and nothing calls it.
#![tactic(auto)]

mod meaning_laws;
mod outline_laws;
mod reference_laws;

pub use meaning_laws::declared_names_mean_themselves;
pub use outline_laws::tables_are_outlined;
pub use reference_laws::{references_are_apart, references_lead_to_all};
