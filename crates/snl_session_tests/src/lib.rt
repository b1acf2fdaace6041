//! Tests of the session's public calls, and of those of the program over it: runs of scripts,
//! sources and words. There is no code of the product here. What is found in whole texts is tested
//! on the built program, by the cases of tests/cases; what long lists of edits lead to, by
//! snl_edits.
#![tactic(auto)]

#[cfg(test)]
mod edits;
#[cfg(test)]
mod fakes;
#[cfg(test)]
mod listings;
#[cfg(test)]
mod places;
#[cfg(test)]
mod run_faults;
#[cfg(test)]
mod runs;
#[cfg(test)]
mod shifted;
#[cfg(test)]
mod sources;
#[cfg(test)]
mod tables;
