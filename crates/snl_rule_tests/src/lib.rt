//! Tests of the rules on names, on what is inside items and on tables, from the bytes of a text on.
//! There is no code of the product here.
//!
//! Tables hold texts, or items alone, and the answers that the language's rules give, as words,
//! reckoned by hand.
#![tactic(auto)]

#[cfg(test)]
mod clauses;
#[cfg(test)]
mod findings;
#[cfg(test)]
mod inside;
#[cfg(test)]
mod known_views;
#[cfg(test)]
mod names;
#[cfg(test)]
mod order;
#[cfg(test)]
mod outlines;
#[cfg(test)]
mod questions;
#[cfg(test)]
mod reading;
#[cfg(test)]
mod renamed_items;
#[cfg(test)]
mod summaries;
#[cfg(test)]
mod tables;
#[cfg(test)]
mod walks;
#[cfg(test)]
mod words;
