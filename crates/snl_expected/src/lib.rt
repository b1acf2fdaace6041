//! What may come next: the kinds of some tokens come in, the kinds of all tokens that an item can go
//! on with after these go out. The parser is asked of each; it knows no texts.
#![tactic(auto)]

mod description;
mod expected;
mod groups;
mod kinds;
mod laws;

pub use description::{Description, describe};
pub use expected::{Expected, expected_after, may_come};
pub use groups::{GROUPS, Group};
pub use kinds::{KINDS, phrase};
pub use laws::{what_comes_is_viable, what_is_described_may_come};
