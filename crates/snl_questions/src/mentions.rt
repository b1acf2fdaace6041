//! The mentions of a text, and the references of a name.
//!
//! What is kept of a text comes in. All tokens that mean something go out, each with the place of
//! what it means; or those alone that mean what the name near an offset means. Each item is walked
//! once, and what is found at its tokens is kept in a slot for each: so the time is that of the
//! text's tokens, however many of them are in one item.

pub(crate) mod laws;
pub(crate) mod mention;
pub(crate) mod prototypes;
pub(crate) mod references;
pub(crate) mod slots;
pub(crate) mod text_mentions;
