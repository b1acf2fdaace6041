//! A book of different names with lasting numbers. It is held in flat lists, so that a copy is a
//! few moves of memory, and names are found by halving, so that no choice of names makes it slow.
#![tactic(auto)]

mod keys;
mod merging;
mod name_book;
mod prints;
mod slots;
mod spellings;

pub use name_book::NameBook;
