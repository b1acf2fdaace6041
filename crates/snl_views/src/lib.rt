//! Whether an item sees of the others after an edit what it saw before it: its check is then the
//! same. It goes by links alone.
#![tactic(auto)]

mod same_views;
mod view;

pub use same_views::{Moved, SameViews};
pub use view::{same_view, views_told_apart};
