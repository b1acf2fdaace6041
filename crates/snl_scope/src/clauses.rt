//! What clauses claim of variables: channels, event flags, elements.

pub(crate) mod assigned;
pub(crate) mod clause_index;
pub(crate) mod flags;
pub(crate) mod resolved;
pub(crate) mod soundness;
