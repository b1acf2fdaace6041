//! The listing: the tables of a text come in, its lines go out, piece by piece, to any sink.
//! All memory is taken before the first byte. It knows nothing of rules, sessions and files.
//! Private below it: `escapes` shows bytes in ASCII, `words` and `parts` make up lines, `lines` and
//! `states` are those of the listing.
#![tactic(auto)]

mod escapes;
mod lines;
mod lister;
mod parts;
mod sink;
mod states;
mod strings;
mod words;

pub use lister::Lister;
pub use sink::Sink;
pub use strings::listing;
