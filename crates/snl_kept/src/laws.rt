//! Laws on edits and on what is found.

pub(crate) mod finding_laws;
pub(crate) mod inside_laws;
pub(crate) mod item_laws;
pub(crate) mod once_laws;
pub(crate) mod shift_laws;
pub(crate) mod text_laws;
