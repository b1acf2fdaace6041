//! The symbols of a text, for whoever outlines it: what is kept of the text comes in; the program,
//! its state sets, their states and what items declare go out, each with its name, its extent and
//! its depth.

pub(crate) mod kinds;
pub(crate) mod laws;
pub(crate) mod linked_item;
pub(crate) mod symbol;
pub(crate) mod text_symbols;
