//! Reads expressions and types: the tokens of an item come in, and the tree of what begins at one
//! of them goes out. The steps that each reader of the grammar is made of are here too.
#![tactic(auto)]

mod expression;
mod lists;
mod parts;
mod stop;
mod token_steps;
mod types;

pub use expression::{assignx, expr, texts};
pub use lists::{many, until};
pub use parts::{both_boxed, ended, one_boxed, single, with};
pub use stop::Stop;
pub use token_steps::{accept, beside, expect, kind_at, past, turns};
pub use types::{begins_type, stars, type_of};
