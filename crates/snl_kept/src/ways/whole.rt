//! The way of an edit after which all that the text says is told anew.
//! `whole_plan` makes the plan. For it `relink` tells what becomes of the links, `recheck` checks
//! the items that are to be checked, `edited` tells which names may have another meaning,
//! `kept_rows` which rows stay, and `rejudge` tells what is found.

pub(crate) mod edited;
pub(crate) mod kept_rows;
pub(crate) mod recheck;
pub(crate) mod rejudge;
pub(crate) mod relink;
pub(crate) mod whole_plan;
