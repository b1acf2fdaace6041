//! The answers to what is asked of a document, by its text.
//! In: the documents, how places are counted, and the question. Out: the answer, after the bytes
//! that are there. Knows nothing of requests, and of what may be asked when.

ghost use Rattle.std.specs.Prelude.{◌≡◌, ◌++◌, IfOk, OnOk};
ghost use Rattle.snl_say.specs.Answered.{answered_of};
ghost use Rattle.snl_say.specs.Answers.{id_data};
ghost use Rattle.snl_hear.specs.Requests.{query_of};
ghost use Rattle.snl_docs.specs.Asked.{answer_by, answer_of, answer_on};
ghost use Rattle.snl_replies.specs.Replies.{framed_reply};

use snl_cut::OutOfMemory;
use snl_document::{CheckedText, Document, document_of};
use snl_hear::Question;
use snl_place::Encoding;
use snl_replies::{say_answer, say_error};
use snl_say::{Answer, ErrorCode, Id};
use std::alloc::Global;

/// The answer by the text of a document: nothing, where that isn't checked.
fn answer_by<C: CheckedText + Drop>(
    alloc: Global,
    document: &Document<C>,
    encoding: Encoding,
    question: Question,
) -> Result<Answer<'_>, OutOfMemory>
    ensures { IfOk result (λ answer. answered_of answer
        ≡ answer_by C.says encoding (query_of question) document.now.text) }
{
    match document.checked() {
        Some(checked) => checked.answer(alloc, encoding, question),
        None => Ok(Answer::Nothing),
    }
}

/// Answers a question on a document.
#[tactic(auto, using(snl_replies::specs::ReplyLaws::answer_framed), unfolding(crate::specs::Asked::answer_of))]
fn answer_of<C: CheckedText + Drop>(
    document: &Document<C>,
    encoding: Encoding,
    question: Question,
    id: Id<'_>,
    said: &mut Vec<u8>,
) -> Result<(), OutOfMemory>
    ensures { OnOk result (said.new.items ≡ said.old.items ++ framed_reply
        (answer_of C.says encoding (id_data id.entry) (query_of question) document.now)) }
{
    let answer = answer_by(*said.allocator(), document, encoding, question)?;
    say_answer(said, id, document.quoted_uri(), &answer)?;
    Ok(())
}

/// Answers a question on the document of this URI, or that it isn't open.
pub fn answer<C: CheckedText + Drop>(
    documents: &[Document<C>],
    encoding: Encoding,
    uri: &str,
    question: Question,
    id: Id<'_>,
    said: &mut Vec<u8>,
) -> Result<(), OutOfMemory>
    ensures { OnOk result (said.new.items ≡ said.old.items
        ++ framed_reply (answer_on C.says encoding documents.now (id_data id.entry) uri.now
        (query_of question))) }
{
    match document_of(documents, uri) {
        Some(document) => answer_of(document, encoding, question, id, said)?,
        None => say_error(said, Some(id), ErrorCode::InvalidParams)?,
    }
    Ok(())
}
