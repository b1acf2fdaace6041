//! Tests of the public calls of the crates below, from the bytes of a text on. There is no code of
//! the product here.
//!
//! Tables hold the words of the language reference and their expected answers, reckoned by hand.
#![tactic(auto)]

#[cfg(test)]
mod cuts;
#[cfg(test)]
mod declarations;
#[cfg(test)]
mod edits;
#[cfg(test)]
mod expected;
#[cfg(test)]
mod expressions;
#[cfg(test)]
mod items;
#[cfg(test)]
mod kept;
#[cfg(test)]
mod lines;
#[cfg(test)]
mod lists;
#[cfg(test)]
mod marks;
#[cfg(test)]
mod names;
#[cfg(test)]
mod nesting;
#[cfg(test)]
mod notes;
#[cfg(test)]
mod numbers;
#[cfg(test)]
mod pieces;
#[cfg(test)]
mod reading;
#[cfg(test)]
mod statements;
#[cfg(test)]
mod trees;
