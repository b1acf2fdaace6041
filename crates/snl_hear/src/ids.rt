//! The id of a request.
//! In: a value of JSON. Out: the id that it is, if it is one.

ghost use Rattle.std.specs.Prelude.{◌≡◌, IfSome, option_map};
ghost use Rattle.snl_hear.specs.Ids.{IsSoundId, id_in};
ghost use Rattle.snl_hear.specs.Values.{seen};
ghost use Rattle.snl_say.specs.Answers.{id_data};

use crate::values::{negative_of, string_in, unsigned_of};
use json::Value;
use snl_say::Id;

/// A string, or an integer of 64 bits. A float is none, and so is an integer that is greater.
pub fn id_in<'a>(value: &Value<'a>) -> Option<Id<'a>>
    ensures id { option_map (λ id. id_data id) result ≡ id_in (seen value.now) }
    ensures sound { IfSome result (λ id. IsSoundId (id_data id)) }
{
    if let Some(text) = string_in(value) {
        return Some(Id::Text(text.as_bytes()));
    }
    if let Some(number) = unsigned_of(value) {
        return Some(Id::Unsigned(number));
    }
    let number = negative_of(value)?;
    Some(Id::Negative(number))
}
