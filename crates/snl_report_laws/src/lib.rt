//! Laws of the report of a text, in other words than its definition. A function here does nothing:
//! its contract is the law.
#![tactic(auto)]

mod heads;

pub use heads::heads_are_lines;
