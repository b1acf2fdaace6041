//! Parts of a document in an array, as the answers to `textDocument/references` and
//! `textDocument/documentHighlight`.
//! In: the id of the request, places, and for locations a URI. Out: the bytes of the answer, after
//! those that are there. Knows nothing of names, and of what they mean.

ghost use Rattle.std.specs.Prelude.{◌≡◌, ◌++◌, IfOk, OnOk, codes, flat_map};
ghost use Rattle.snl_say.specs.Answers.{id_data};
ghost use Rattle.snl_say.specs.Parts.{after_comma, location_end, locations_with, part_text, parts_after, parts_text, parts_with, ranges_text};

use crate::answers::{Id, put_id};
use crate::places::put_range;
use snl_place::Place;
use std::alloc::{AllocError, Global};

/// A part, with what comes after its range.
#[tactic(auto, unfolding(crate::specs::Parts::part_text))]
fn put_part(out: &mut Vec<u8>, part: &(Place, Place), end: &[u8]) -> Result<(), AllocError>
    ensures { OnOk result (out.new.items ≡ out.old.items ++ part_text end.now part.now) }
{
    out.extend_from_slice(b"{\"range\":")?;
    put_range(out, part.0, part.1)?;
    out.extend_from_slice(end)?;
    Ok(())
}

/// The parts after the first, each with a comma before it, and the bracket that closes them.
fn put_rest(out: &mut Vec<u8>, rest: &[(Place, Place)], end: &[u8]) -> Result<(), AllocError>
    ensures { OnOk result (out.new.items ≡ out.old.items ++ parts_after end.now rest.now) }
{
    for part in rest {
        out.extend_from_slice(b",")?;
        put_part(out, part, end)?;
    }
    out.extend_from_slice(b"]")?;
    Ok(())
}

/// The parts and the bracket that closes them.
fn put_parts(out: &mut Vec<u8>, parts: &[(Place, Place)], end: &[u8]) -> Result<(), AllocError>
    ensures { OnOk result (out.new.items ≡ out.old.items ++ parts_text end.now parts.now) }
{
    match parts.split_first() {
        Some((first, rest)) => {
            put_part(out, first, end)?;
            put_rest(out, rest, end)?;
        }
        None => out.extend_from_slice(b"]")?,
    }
    Ok(())
}

#[tactic(auto, unfolding(crate::specs::Parts::parts_with))]
fn put_answer_with(
    out: &mut Vec<u8>,
    id: Id<'_>,
    parts: &[(Place, Place)],
    end: &[u8],
) -> Result<(), AllocError>
    ensures { OnOk result (out.new.items ≡ out.old.items
        ++ parts_with (id_data id.entry) end.now parts.now) }
{
    out.extend_from_slice(b"{\"id\":")?;
    put_id(out, id)?;
    out.extend_from_slice(b",\"jsonrpc\":\"2.0\",\"result\":[")?;
    put_parts(out, parts, end)?;
    out.extend_from_slice(b"}")?;
    Ok(())
}

/// What comes after the range of a location.
fn location_end(alloc: Global, quoted_uri: &[u8]) -> Result<Vec<u8>, AllocError>
    ensures { IfOk result (λ end. end.items ≡ location_end quoted_uri.now) }
{
    let mut end = Vec::from_slice(alloc, b",\"uri\":")?;
    end.extend_from_slice(quoted_uri)?;
    end.extend_from_slice(b"}")?;
    Ok(end)
}

/// Parts as locations. `quoted_uri` is the URI of the document as `put_quoted` writes it. An `Err`,
/// of memory, may leave a front of the bytes.
pub fn put_locations(
    out: &mut Vec<u8>,
    id: Id<'_>,
    quoted_uri: &[u8],
    parts: &[(Place, Place)],
) -> Result<(), AllocError>
    ensures { OnOk result (out.new.items ≡ out.old.items
        ++ locations_with (id_data id.entry) quoted_uri.now parts.now) }
{
    let end = location_end(*out.allocator(), quoted_uri)?;
    put_answer_with(out, id, parts, &end)
}

/// Parts by their ranges alone. An `Err`, of memory, may leave a front of the bytes.
pub fn put_ranges(out: &mut Vec<u8>, id: Id<'_>, parts: &[(Place, Place)]) -> Result<(), AllocError>
    ensures { OnOk result (out.new.items ≡ out.old.items
        ++ ranges_text (id_data id.entry) parts.now) }
{
    put_answer_with(out, id, parts, b"}")
}
