//! What a hover says of the name at a place of a text.
//!
//! What is kept of a text and an offset come in. The span of the name near the offset goes out,
//! with lines: that of the declaration, and what the tables of the text say of what the name means.
//!
//! `declarations` has the line of a declaration, `channels`, `flags` and `states` what the tables
//! say; `first` takes a few of many, and `bytes` puts bytes after bytes.

pub(crate) mod bytes;
pub(crate) mod channels;
pub(crate) mod declarations;
pub(crate) mod first;
pub(crate) mod flags;
pub(crate) mod near;
pub(crate) mod states;
