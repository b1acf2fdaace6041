//! What is told of a part of a document, as the answer to `textDocument/hover`.
//! In: the id of the request, what is told, and two places. Out: the bytes of the answer, after
//! those that are there. Knows nothing of names, and of what they mean.

ghost use Rattle.std.specs.Prelude.{◌≡◌, ◌++◌, OnOk};
ghost use Rattle.snl_say.specs.Answers.{hover_head, hover_text, id_data};

use crate::answers::{Id, put_id};
use crate::bytes::put_quoted;
use crate::places::put_range;
use snl_place::Place;
use std::alloc::AllocError;

/// What is between the id and what is told.
#[tactic(auto, unfolding(crate::specs::Answers::hover_head))]
fn hover_head() -> &'static [u8]
    ensures { result.now ≡ hover_head }
{
    b",\"jsonrpc\":\"2.0\",\"result\":{\"contents\":{\"kind\":\"plaintext\",\"value\":"
}

/// What is told of the part from `start` up to `stop`, as plain text of one line or more. An `Err`,
/// of memory, may leave a front of the bytes.
#[tactic(auto, unfolding(crate::specs::Answers::hover_text))]
pub fn put_hover(
    out: &mut Vec<u8>,
    id: Id<'_>,
    contents: &[u8],
    start: Place,
    stop: Place,
) -> Result<(), AllocError>
    ensures { OnOk result (out.new.items ≡ out.old.items
        ++ hover_text (id_data id.entry) contents.now start stop) }
{
    out.extend_from_slice(b"{\"id\":")?;
    put_id(out, id)?;
    out.extend_from_slice(hover_head())?;
    put_quoted(out, contents)?;
    out.extend_from_slice(b"},\"range\":")?;
    put_range(out, start, stop)?;
    out.extend_from_slice(b"}}")?;
    Ok(())
}
