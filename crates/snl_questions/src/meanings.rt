//! What the name at a place of a text means: what is kept of the text and an offset come in, the
//! span of the name there goes out with that of the name that declares it, and the number of the
//! declaration. It knows nothing of editors, but for where their cursors are: a cursor right after a
//! word is on it.

pub(crate) mod items;
pub(crate) mod kept_item;
pub(crate) mod laws;
pub(crate) mod names;
pub(crate) mod near;
pub(crate) mod text_items;
