//! Laws that hold of summaries, and of the trees that they are made of.

pub(crate) mod spelling_laws;
pub(crate) mod summary_laws;
pub(crate) mod token_laws;
