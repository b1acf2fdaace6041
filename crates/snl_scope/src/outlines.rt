//! What items say to the others, in flat lists, with names as numbers: of these all links are made.

pub(crate) mod clauses_on;
pub(crate) mod cursor;
pub(crate) mod flat;
pub(crate) mod making;
pub(crate) mod outline_list;
