//! Whether each number of a value is in range.
//! In: a value of JSON, as a tree. Out: whether each of its numbers is.

ghost use Rattle.std.specs.Prelude.{◌≡◌};
ghost use Rattle.json.specs.Value.{items_view, members_view, value_view};
ghost use Rattle.snl_hear.specs.Values.{are_in_range, items_in_range, members_in_range};

use crate::numbers::is_in_range;
use json::Value;

#[cycle(ranges)]
pub fn are_in_range(value: &Value<'_>) -> bool
    ensures { result ≡ are_in_range (value_view value.now) }
{
    match value {
        Value::Number(text) => is_in_range(text),
        Value::Array(items) => items_in_range(items),
        Value::Object(members) => members_in_range(members),
        Value::Null | Value::Bool(_) | Value::String(_) => true,
    }
}

#[cycle(ranges)]
fn items_in_range(items: &[Value<'_>]) -> bool
    ensures { result ≡ items_in_range (items_view items.now) }
{
    for item in items {
        if !are_in_range(item) {
            return false;
        }
    }
    true
}

#[cycle(ranges)]
fn members_in_range(members: &[(&str, Value<'_>)]) -> bool
    ensures { result ≡ members_in_range (members_view members.now) }
{
    for member in members {
        if !are_in_range(&member.1) {
            return false;
        }
    }
    true
}
