//! A part of a document, as the answer to `textDocument/definition`.
//! In: the id of the request, a URI and two places. Out: the bytes of the answer, after those that
//! are there. Knows nothing of names, and of what they mean.

ghost use Rattle.std.specs.Prelude.{◌≡◌, ◌++◌, OnOk};
ghost use Rattle.snl_say.specs.Answers.{id_data, location_with};

use crate::answers::{Id, put_id};
use crate::places::put_range;
use snl_place::Place;
use std::alloc::AllocError;

/// The part of a document from `start` up to `stop`. `quoted_uri` is the URI of the document as
/// `put_quoted` writes it. An `Err`, of memory, may leave a front of the bytes.
#[tactic(auto, unfolding(crate::specs::Answers::location_with))]
pub fn put_location(
    out: &mut Vec<u8>,
    id: Id<'_>,
    quoted_uri: &[u8],
    start: Place,
    stop: Place,
) -> Result<(), AllocError>
    ensures { OnOk result (out.new.items ≡ out.old.items
        ++ location_with (id_data id.entry) quoted_uri.now start stop) }
{
    out.extend_from_slice(b"{\"id\":")?;
    put_id(out, id)?;
    out.extend_from_slice(b",\"jsonrpc\":\"2.0\",\"result\":{\"range\":")?;
    put_range(out, start, stop)?;
    out.extend_from_slice(b",\"uri\":")?;
    out.extend_from_slice(quoted_uri)?;
    out.extend_from_slice(b"}}")?;
    Ok(())
}
