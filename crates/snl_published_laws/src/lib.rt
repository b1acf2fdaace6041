//! Laws of what the language server publishes and answers of texts that sessions check. A function
//! here calls laws alone: its contract is a law, and nothing calls it.
#![tactic(auto)]

mod diagnostic_laws;
mod range_laws;
mod reference_laws;

pub use diagnostic_laws::first_diagnostics_are_published;
pub use range_laws::token_ranges_lead_back;
pub use reference_laws::reference_ranges_lead_back;
