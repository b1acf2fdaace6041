//! The place that a finding of a text is related to: the first declaration, the declaration of the
//! name, the clause that came before, or the name that is near an unknown one. In: what is kept of
//! a text, and a diagnostic of it. Out: the place, if there is one. It keeps nothing.
#![tactic(auto)]

mod clauses;
mod near;
mod nearest;
mod related;
mod relations;
mod sets;

pub use related::{Related, RelatedKind, words_of};
pub use relations::Relations;
