//! Laws that hold for each list of items or summaries.

pub(crate) mod once_laws;
pub(crate) mod place_laws;
