//! Where the items are: headers, state sets, the order of the phases.

pub(crate) mod heads;
pub(crate) mod linked_items;
pub(crate) mod order;
pub(crate) mod phases;
pub(crate) mod places;
