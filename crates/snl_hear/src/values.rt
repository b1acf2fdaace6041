//! A value of JSON, as a tree over the text that it was read from.
//! In: the tree, and what of it is asked for. Out: that part of it, if it is there.
//! Knows nothing of messages.

ghost use Rattle.std.specs.Prelude.{◌≡◌, IfSome, option_and_then, option_map};
ghost use Rattle.serde_json.specs.Data.{negative};
ghost use Rattle.serde_json.specs.Find.{as_array, as_bool, as_number, as_str, as_u64, get};
ghost use Rattle.snl_hear.specs.Sound.{IsSoundNumber};
ghost use Rattle.snl_hear.specs.Values.{as_negative, seen, seen_all};

use crate::numbers::{negative_in, unsigned_in};
use json::Value;

/// The last member of that name, where the value is an object.
pub fn member_of<'v, 'a>(value: &'v Value<'a>, key: &str) -> Option<&'v Value<'a>>
    ensures { option_map (λ v. seen v.now) result ≡ get key.now (seen value.now) }
{
    value.get(key)
}

pub fn string_in<'a>(value: &Value<'a>) -> Option<&'a str>
    ensures { option_map (λ s. s.now) result ≡ as_str (seen value.now) }
{
    value.as_str()
}

pub fn boolean_in(value: &Value<'_>) -> Option<bool>
    ensures { result ≡ as_bool (seen value.now) }
{
    value.as_bool()
}

/// An integer of 64 bits, from 0 on.
pub fn unsigned_of(value: &Value<'_>) -> Option<u64>
    ensures { result ≡ option_and_then as_u64 (as_number (seen value.now)) }
{
    unsigned_in(value.as_number()?)
}

/// An integer of 64 bits that is below 0.
pub fn negative_of(value: &Value<'_>) -> Option<i64>
    ensures value { result ≡ option_and_then as_negative (as_number (seen value.now)) }
    ensures sound { IfSome result (λ n. IsSoundNumber (negative n)) }
{
    negative_in(value.as_number()?)
}

/// The items of an array.
pub fn items_of<'v, 'a>(value: &'v Value<'a>) -> Option<&'v [Value<'a>]>
    ensures { option_map (λ all. seen_all all.now) result ≡ as_array (seen value.now) }
{
    match value {
        Value::Array(items) => Some(items.as_slice()),
        _ => None,
    }
}
