//! The answers to requests between `initialize` and `shutdown`.
//! In: the documents that are open, and a request. Out: its answer, after the bytes that are there.
//! Knows nothing of what is kept from one message to the next.

ghost use Rattle.std.specs.Prelude.{◌≡◌, ◌++◌, OnOk};
ghost use Rattle.snl_hear.specs.Requests.{asked_of};
ghost use Rattle.snl_say.specs.Answers.{id_data};
ghost use Rattle.snl_replies.specs.Replies.{framed_reply};
ghost use Rattle.snl_docs.specs.Served.{answer_ready};

use crate::answers::answer;
use snl_cut::OutOfMemory;
use snl_document::{CheckedText, Document};
use snl_hear::Request;
use snl_place::Encoding;
use snl_replies::{say_error, say_null};
use snl_say::{ErrorCode, Id};

/// Answers a request between `initialize` and `shutdown`. None of them changes a document.
pub fn answer_ready<C: CheckedText + Drop>(
    documents: &[Document<C>],
    encoding: Encoding,
    id: Id<'_>,
    request: Request<'_>,
    said: &mut Vec<u8>,
) -> Result<(), OutOfMemory>
    ensures { OnOk result (said.new.items ≡ said.old.items
        ++ framed_reply (answer_ready C.says encoding documents.now (id_data id.entry)
        (asked_of request.entry))) }
{
    match request {
        Request::Shutdown => say_null(said, id)?,
        Request::OfDocument { uri, question } => {
            answer(documents, encoding, uri, question, id, said)?;
        }
        Request::Initialize(_) => say_error(said, Some(id), ErrorCode::InvalidRequest)?,
        Request::InvalidParams => say_error(said, Some(id), ErrorCode::InvalidParams)?,
        Request::MethodNotFound => say_error(said, Some(id), ErrorCode::MethodNotFound)?,
    }
    Ok(())
}
