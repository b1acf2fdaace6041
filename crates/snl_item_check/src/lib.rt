//! The check of an item: its tokens, its tree and what it sees of the other items come in; what is
//! found in it, at token numbers, and the names in its conditions go out. It knows no edits, no
//! tables, and not how names are found.
#![tactic(auto)]

mod check;
mod conditions;
mod findings;
mod laws;
mod options;
mod view;

pub use check::check_item;
pub use conditions::wakes_alike;
pub use findings::{Checked, ItemFault};
pub use laws::{
    each_item_finding_once, equal_views, faults_have_item_codes, faults_stand_at_tokens,
    faults_stand_in_tokens, outer_names_left_to_links,
};
pub use options::{is_on, warning_setting};
pub use view::View;
