//! What a name means: the first declaration in the nearest scope that declares it.

pub(crate) mod first_numbers;
pub(crate) mod name_tables;
pub(crate) mod namespaces;
pub(crate) mod scopes;
