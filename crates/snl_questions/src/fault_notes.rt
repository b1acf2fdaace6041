//! What is said of the token at fault in a faulty item: what is kept of a text and an offset come
//! in, the place where something is wanted goes out with the words that say what may come there.

pub(crate) mod laws;
pub(crate) mod note_at;
