//! The changes of a document's text.
//! In: the parameters of `textDocument/didChange`. Out: their changes, if all are well formed.
//! Knows nothing of the text that they change.

ghost use Rattle.std.specs.Prelude.{◌≡◌, IfOk, map, option_map};
ghost use Rattle.snl_hear.specs.Changes.{change_in, changed_of, changes_in, range_in};
ghost use Rattle.snl_hear.specs.Values.{seen, seen_all};

use crate::documents::{place_in, string_at};
use crate::values::member_of;
use json::Value;
use snl_place::Place;
use std::alloc::{AllocError, Global};

/// A change of a text, as the client tells it. The places need not be in the text, nor in order.
#[derive(Clone, Copy)]
pub enum Change<'a> {
    /// This text comes in the place of the whole one.
    Whole(&'a str),
    /// `text` comes in the place of what is from `start` up to `stop`.
    Part {
        start: Place,
        stop: Place,
        text: &'a str,
    },
}

/// `{"start": PLACE, "end": PLACE}`
fn range_in(value: &Value<'_>) -> Option<(Place, Place)>
    ensures { result ≡ range_in (seen value.now) }
{
    let start = place_in(member_of(value, "start")?)?;
    let stop = place_in(member_of(value, "end")?)?;
    Some((start, stop))
}

/// `{"range": RANGE, "text": TEXT}`, or without a range.
fn change_in<'a>(value: &Value<'a>) -> Option<Change<'a>>
    ensures { option_map (λ change. changed_of change) result ≡ change_in (seen value.now) }
{
    let text = string_at(value, "text")?;
    let Some(range) = member_of(value, "range") else {
        return Some(Change::Whole(text));
    };
    let (start, stop) = range_in(range)?;
    Some(Change::Part { start, stop, text })
}

/// None where a change is not well formed: those before it may not be made alone.
pub fn changes_in<'a>(
    alloc: Global,
    values: &[Value<'a>],
) -> Result<Option<Vec<Change<'a>>>, AllocError>
    ensures { IfOk result (λ told. option_map (λ v. map (λ change. changed_of change) v.items) told
        ≡ changes_in (seen_all values.now)) }
{
    let mut changes = Vec::with_capacity(alloc, values.len())?;
    for value in values {
        let Some(change) = change_in(value) else {
            return Ok(None);
        };
        changes.push(change)?;
    }
    Ok(Some(changes))
}
