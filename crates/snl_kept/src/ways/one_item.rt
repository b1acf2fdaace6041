//! The way of an edit inside one item, after which the others see what they saw.
//! `replaced` tells whether an edit makes one item in the place of one, and `item_plan` makes the
//! plan. `alike` and `touched_rows` tell what stays. `own_links`, `own_rows` with `set_members`,
//! and `own_diagnostics` with `set_findings` make what changes, and `own_parts` puts it together;
//! `numbers` tells where a state has its row. `renamed`, with `renamed_links`, is the way of an
//! item that says by other names what it said, where no item uses one of these.

pub(crate) mod alike;
pub(crate) mod item_plan;
pub(crate) mod numbers;
pub(crate) mod own_diagnostics;
pub(crate) mod own_links;
pub(crate) mod own_parts;
pub(crate) mod own_rows;
pub(crate) mod renamed;
pub(crate) mod renamed_links;
pub(crate) mod replaced;
pub(crate) mod set_findings;
pub(crate) mod set_members;
pub(crate) mod touched_rows;
