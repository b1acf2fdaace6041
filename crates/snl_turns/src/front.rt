//! The message at the front of what was read.
//! In: the bytes that were read and not answered yet. Out: the message at their front, with its
//! length. Knows nothing of documents and answers.

ghost use Rattle.snl_turns.specs.Front.{IsNext};

use crate::turn::Turn;
use snl_frame::{Front, message_of};

/// What is at the front of the bytes.
#[derive(Clone, Copy)]
pub enum Next<'a> {
    /// More bytes must tell.
    Short,
    /// No message can be there, whatever follows.
    Malformed,
    /// A message of so many bytes, header included.
    Message { turn: Turn<'a>, length: usize },
}

pub fn next_in(bytes: &[u8]) -> Next<'_>
    ensures { IsNext bytes.now result }
{
    match message_of(bytes) {
        Front::Short => Next::Short,
        Front::Malformed => Next::Malformed,
        Front::HeaderAlone { length } => Next::Message {
            turn: Turn::HeaderAlone,
            length,
        },
        Front::Whole { body, length } => Next::Message {
            turn: Turn::Body(body),
            length,
        },
    }
}
