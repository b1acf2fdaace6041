//! Facts on booleans, numbers and lists that the proofs of several crates cite, and how names and
//! words are compared, which is all the code that there is.
#![tactic(auto)]

mod bytes;

pub use bytes::are_same_bytes;
