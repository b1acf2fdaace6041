//! What is found in a text: by its items, their links and the walks of state sets, in order.
//! `program` has the items with what is kept of each, `seen` has their trees, `summaries` links
//! them; `linked`, `checks` and `walked` find by the links, in each item and by the walks; `order`
//! sorts, `own_findings` takes out those of one item, `warnings` says whether warnings are shown,
//! `diagnose` tells lines, `tables` has the tables made, and `judge` does it all for a text.

pub(crate) mod checks;
pub(crate) mod diagnose;
pub(crate) mod findings;
pub(crate) mod judge;
pub(crate) mod linked;
pub(crate) mod order;
pub(crate) mod own_findings;
pub(crate) mod program;
pub(crate) mod seen;
pub(crate) mod summaries;
pub(crate) mod tables;
pub(crate) mod walked;
pub(crate) mod warnings;
