//! The body of a message as JSON.
//! In: the bytes of a body. Out: the value that they are, if they are one.
//! Knows nothing of what the value says.

ghost use Rattle.std.specs.Prelude.{◌≡◌, IfOk, option_map};
ghost use Rattle.serde_json.specs.Read.{read};
ghost use Rattle.snl_hear.specs.Heard.{HasSoundId, heard_in, heard_of};
ghost use Rattle.snl_hear.specs.Json.{json_in, json_of};
ghost use Rattle.snl_hear.specs.Values.{seen};

use crate::messages::{Message, message_in};
use crate::ranges::are_in_range;
use json::{Error, Reader, Scratch, Value};
use std::alloc::{AllocError, Global};

/// A value nests so deep at most.
const MAX_DEPTH: usize = 127;

/// A body that was read. It lends the strings of the message from its bytes.
#[derive(Drop)]
pub struct Body<'a> {
    json: Option<Value<'a>>,
}

/// The value that a text is.
fn value_in<'a>(
    alloc: Global,
    text: &'a str,
    scratch: &'a mut Scratch,
) -> Result<Option<Value<'a>>, AllocError>
    ensures { IfOk result (λ value. option_map (λ v. seen v) value ≡ read text.now) }
{
    let mut reader = Reader::new(text, scratch)?;
    let value = match Value::read(alloc, &mut reader, MAX_DEPTH) {
        Ok(value) => value,
        Err(Error::OutOfMemory) => return Err(AllocError),
        Err(_) => return Ok(None),
    };
    let is_alone = reader.next().is_none();
    if is_alone && are_in_range(&value) {
        Ok(Some(value))
    } else {
        Ok(None)
    }
}

impl<'a> Body<'a> {
    /// Bytes that are no UTF-8 or no JSON, or that nest deeper than 127 levels, are read as none.
    /// What is escaped in them is kept in `scratch`. An `Err` is want of memory.
    pub fn read(
        alloc: Global,
        bytes: &'a [u8],
        scratch: &'a mut Scratch,
    ) -> Result<Body<'a>, AllocError>
        ensures { IfOk result (λ body. json_of body ≡ json_in bytes.now) }
    {
        let Ok(text) = simdutf8::basic::from_utf8(bytes) else {
            return Ok(Body { json: None });
        };
        let json = value_in(alloc, text, scratch)?;
        Ok(Body { json })
    }

    /// What the message says. Memory is for the list of changes alone.
    pub fn message(&self, alloc: Global) -> Result<Message<'a>, AllocError>
        ensures heard { IfOk result (λ message. heard_of message ≡ heard_in (json_of self.now)) }
        ensures id { IfOk result (λ message. HasSoundId message) }
    {
        match &self.json {
            Some(value) => message_in(alloc, value),
            None => Ok(Message::NoJson),
        }
    }
}
