//! Numbers that are kept by keys. Those of the first keys are found by a hash, and those of the keys
//! after them by an order of the keys, so that no choice of keys makes the table slow.
#![tactic(auto)]

mod keys;
mod numbers_by_key;

pub use keys::Keys;
pub use numbers_by_key::NumbersByKey;
