//! Which states of a set the walks along targets lead to.

pub(crate) mod marks;
pub(crate) mod members;
pub(crate) mod reaching;
