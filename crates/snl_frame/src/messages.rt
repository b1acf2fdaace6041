//! The message at the front of bytes.
//! In: the bytes that were read so far. Out: the message at their front, if it is there whole.
//! Knows nothing of readers, and of what a body says.

ghost use Rattle.std.specs.Prelude.{◌≡◌, ◌+◌, ◌-◌, ◌==◌, ◌≤◌, ◌<◌, length, take, drop, position};
ghost use Rattle.snl_frame.specs.Frame.{after_header, in_header, length_after, without_return};
ghost use Rattle.snl_frame.specs.Front.{Fits, IsFront, IsFrontBy, TakesBytes, moved};

use crate::fields::{length_after, place_of, without_return};

/// A line of a header has at most so many bytes without its LF.
const MAX_LINE: usize = 256;

/// A header has at most so many lines, the empty one included.
const MAX_LINES: usize = 8;

/// A body has at most so many bytes.
const MAX_BODY: usize = 67_108_864;

/// What is at the front of the bytes that were read so far.
#[derive(Clone, Copy)]
pub enum Front<'a> {
    /// More bytes must tell: the header or the body isn't all there.
    Short,
    /// No message, whatever follows: a line is too long, there are too many, or the body is too
    /// long. Where the next message begins isn't known.
    Malformed,
    /// A header of so many bytes that gives no length, so that there is no body.
    HeaderAlone { length: usize },
    /// A message of so many bytes, header included.
    Whole { body: &'a [u8], length: usize },
}

/// What is at the front of the bytes after a header.
fn after_header(body_length: Option<usize>, after: &[u8]) -> Front<'_>
    ensures { IsFrontBy (after_header body_length) after.now result }
{
    match body_length {
        None => Front::HeaderAlone { length: 0 },
        Some(length) if length > MAX_BODY => Front::Malformed,
        Some(length) if length > after.len() => Front::Short,
        Some(length) => Front::Whole {
            body: &after[..length],
            length,
        },
    }
}

/// What is at the front, as it is told so many bytes further on.
fn moved(by: usize, front: Front<'_>) -> Front<'_>
    requires { Fits by front }
    ensures { result ≡ moved by front.entry }
{
    match front {
        Front::Short => Front::Short,
        Front::Malformed => Front::Malformed,
        Front::HeaderAlone { length } => Front::HeaderAlone {
            length: by + length,
        },
        Front::Whole { body, length } => Front::Whole {
            body,
            length: by + length,
        },
    }
}

/// What is at the front of the bytes of a header, of which so many lines may come.
fn in_header(lines: usize, body_length: Option<usize>, bytes: &[u8]) -> Front<'_>
    ensures front { IsFrontBy (in_header lines body_length) bytes.now result }
    ensures some { TakesBytes result }
{
    if lines == 0 {
        return Front::Malformed;
    }
    let first = &bytes[..bytes.len().min(MAX_LINE + 1)];
    let end = match place_of(b'\n', first) {
        Some(end) => end,
        None if bytes.len() > MAX_LINE => return Front::Malformed,
        None => return Front::Short,
    };
    let line = without_return(&bytes[..end]);
    let after = &bytes[end + 1..];
    let front = if line.is_empty() {
        after_header(body_length, after)
    } else {
        in_header(lines - 1, length_after(body_length, line), after)
    };
    moved(end + 1, front)
}

/// What is at the front of these bytes. It takes the time of the header, whatever the body is.
pub fn message_of(bytes: &[u8]) -> Front<'_>
    ensures front { IsFront bytes.now result }
    ensures some { TakesBytes result }
{
    in_header(MAX_LINES, None, bytes)
}
