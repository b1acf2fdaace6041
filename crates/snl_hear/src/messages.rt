//! What kind of message a value of JSON is.
//! In: the value. Out: a request with its id, a notification, a response, or no message.
//! Knows nothing of what is done for it.

ghost use Rattle.std.specs.Prelude.{◌≡◌, Some, IfOk, option_map};
ghost use Rattle.snl_hear.specs.Heard.{HasSoundId, by_id, heard_in, heard_of, is_response, without_method};
ghost use Rattle.snl_hear.specs.Values.{seen};

use crate::documents::string_at;
use crate::ids::id_in;
use crate::notifications::{Notification, notification_in};
use crate::requests::{Request, request_in};
use crate::values::member_of;
use json::Value;
use snl_say::Id;
use std::alloc::{AllocError, Global};

/// What a message is.
#[derive(Drop)]
pub enum Message<'a> {
    /// The body is no JSON. What it was to say isn't known.
    NoJson,
    /// The body is JSON, but no message, or a request whose id is no id.
    NoMessage,
    /// A response to a request of the server.
    Response,
    /// It is to be answered.
    Request { id: Id<'a>, request: Request<'a> },
    /// It has no id, and is not to be answered.
    Notification(Notification<'a>),
}

/// Whether it has a result or an error.
fn is_response(value: &Value<'_>) -> bool
    ensures { result ≡ is_response (seen value.now) }
{
    member_of(value, "result").is_some() || member_of(value, "error").is_some()
}

fn without_method<'a>(value: &Value<'a>) -> Message<'a>
    ensures heard { heard_of result ≡ without_method (seen value.now) }
    ensures id { HasSoundId result }
{
    if is_response(value) {
        Message::Response
    } else {
        Message::NoMessage
    }
}

fn by_id<'a>(id: &Value<'a>, method: &str, params: Option<&Value<'a>>) -> Message<'a>
    ensures heard { heard_of result
        ≡ by_id (seen id.now) method.now (option_map (λ v. seen v.now) params.entry) }
    ensures id { HasSoundId result }
{
    match id_in(id) {
        Some(id) => Message::Request {
            id,
            request: request_in(method, params),
        },
        None => Message::NoMessage,
    }
}

/// What the message says. Memory is for the list of changes alone.
pub fn message_in<'a>(alloc: Global, value: &Value<'a>) -> Result<Message<'a>, AllocError>
    ensures heard { IfOk result (λ message. heard_of message ≡ heard_in (Some (seen value.now))) }
    ensures id { IfOk result (λ message. HasSoundId message) }
{
    let Some(method) = string_at(value, "method") else {
        return Ok(without_method(value));
    };
    let params = member_of(value, "params");
    match member_of(value, "id") {
        Some(id) => Ok(by_id(id, method, params)),
        None => {
            let told = notification_in(alloc, method, params)?;
            Ok(Message::Notification(told))
        }
    }
}
