//! Tests of the language server's libraries. There is no code of the product here.
//!
//! Tables hold bodies of messages, many as editors send them, and what they ask, as words, reckoned
//! by hand.
#![tactic(auto)]

#[cfg(test)]
mod asked;
#[cfg(test)]
mod heard;
#[cfg(test)]
mod questions;
#[cfg(test)]
mod served;
#[cfg(test)]
mod words;
