//! The text at the front of the bytes that were read so far.
//! In: bytes. Out: where the name and the text are among them, if all are there.
//! Knows nothing of readers and of what is done with a text.

ghost use Rattle.std.specs.Prelude.{◌≡◌, ◌+◌, ◌==◌, ◌≤◌, ◌<◌, length, take, position};
ghost use Rattle.std.specs.Option.{ForSome};
ghost use Rattle.snl_reporter.specs.Headings.{IsSmall};
ghost use Rattle.snl_reporter.specs.Fronts.{IsInside, front_after, front_of};

use crate::heading::{Heading, heading_in, place_of};

/// A heading line has at most so many bytes without its LF.
const MAX_LINE: usize = 80;

/// What is at the front of the bytes that were read so far.
#[derive(Clone, Copy, Debug, PartialEq, Eq)]
pub enum Front {
    /// More bytes must tell.
    Short,
    /// No heading, whatever follows.
    Malformed,
    /// A heading line of so many bytes with its LF, a name and a text.
    Whole {
        line: usize,
        name: usize,
        text: usize,
    },
}

fn front_after(heading: Option<Heading>, line: usize, length: usize) -> Front
    requires line { line ≤ 81 }
    requires some { 1 ≤ line }
    requires few { ForSome heading IsSmall }
    ensures front { result ≡ front_after heading line length }
    ensures inside { IsInside length result }
{
    match heading {
        None => Front::Malformed,
        Some(heading) => {
            if line + heading.name + heading.text <= length {
                Front::Whole {
                    line,
                    name: heading.name,
                    text: heading.text,
                }
            } else {
                Front::Short
            }
        }
    }
}

/// The first bytes, at most so many.
#[tactic(auto, using(std::proofs::lemmas::List::take_min))]
fn first_of(bytes: &[u8], most: usize) -> &[u8]
    ensures value { result.now ≡ take most bytes.now }
    ensures few { length result.now ≤ most }
    ensures inside { length result.now ≤ length bytes.now }
{
    &bytes[..bytes.len().min(most)]
}

/// What is at the front of these bytes.
pub fn front_of(bytes: &[u8]) -> Front
    ensures front { result ≡ front_of bytes.now }
    ensures inside { IsInside (length bytes.now) result }
{
    match place_of(b'\n', first_of(bytes, MAX_LINE + 1)) {
        Some(end) => front_after(heading_in(&bytes[..end]), end + 1, bytes.len()),
        None if bytes.len() > MAX_LINE => Front::Malformed,
        None => Front::Short,
    }
}
