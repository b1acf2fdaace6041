//! Findings in the forms that other programs read: JSON, annotations of GitHub, results of SARIF.
//! In: a finding with its place and its message. Out: a line, after bytes that are there.
//! Knows nothing of how anything is found, and of the document that results are put into.
//! `escape` has strings, `told` what all forms say, and each form has a module of its own.
#![tactic(auto)]

mod escape;
mod github;
mod json;
mod sarif;
mod told;

pub use github::put_annotation;
pub use json::put_object;
pub use sarif::put_result;
pub use told::{Other, Place, Told};
