//! What is found in an item, wherever it is.

mod asked;
mod conditions;
mod findings;
mod items;
mod told;
mod uses;
