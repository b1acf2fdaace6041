//! What is said to a client: bodies in their frames, after the bytes that are there.
//! Knows nothing of documents, and of what is answered to which message.

ghost use Rattle.std.specs.Prelude.{◌≡◌, ◌++◌, OnOk, map};
ghost use Rattle.snl_say.specs.Answered.{answered_of};
ghost use Rattle.snl_say.specs.Answers.{id_data, some_id_data};
ghost use Rattle.snl_say.specs.Publish.{found_of};
ghost use Rattle.snl_replies.specs.Replies.{AnswerError, AnswerInitialize, AnswerNull, Notice, framed_answer, framed_publish, framed_reply};

use snl_place::Encoding;
use snl_say::{
    Answer, ErrorCode, Id, Severity, Shown, WrittenItems, frame_from, put_answer, put_error,
    put_initialize, put_message, put_null, put_publish,
};
use std::alloc::AllocError;

/// Publishes what is found in a document. `written` has its items as they were written last.
#[tactic(auto, unfolding(crate::specs::Replies::framed_publish))]
pub fn say_found(
    said: &mut Vec<u8>,
    quoted_uri: &[u8],
    version: Option<u64>,
    found: &[Shown<'_>],
    written: &mut WrittenItems,
) -> Result<(), AllocError>
    ensures { OnOk result (said.new.items ≡ said.old.items
        ++ framed_publish (map (λ s. found_of s) found.now) quoted_uri.now version) }
{
    written.update(*said.allocator(), found)?;
    let begin = said.len();
    put_publish(said, quoted_uri, version, written)?;
    frame_from(said, begin)
}

/// Shows the user a notice of a document.
#[tactic(auto, unfolding(crate::specs::Replies::framed_reply))]
pub fn say_notice(
    said: &mut Vec<u8>,
    severity: Severity,
    uri: &[u8],
    notice: &[u8],
) -> Result<(), AllocError>
    ensures { OnOk result (said.new.items ≡ said.old.items
        ++ framed_reply (Notice severity (uri.now ++ notice.now))) }
{
    let mut message = Vec::from_slice(*said.allocator(), uri)?;
    message.extend_from_slice(notice)?;
    let begin = said.len();
    put_message(said, severity, &message)?;
    frame_from(said, begin)
}

/// Answers that there is an error.
#[tactic(auto, unfolding(crate::specs::Replies::framed_reply))]
pub fn say_error(said: &mut Vec<u8>, id: Option<Id<'_>>, code: ErrorCode) -> Result<(), AllocError>
    ensures { OnOk result (said.new.items ≡ said.old.items
        ++ framed_reply (AnswerError (some_id_data id.entry) code)) }
{
    let begin = said.len();
    put_error(said, id, code)?;
    frame_from(said, begin)
}

/// Answers `initialize`.
#[tactic(auto, unfolding(crate::specs::Replies::framed_reply))]
pub fn say_initialize(said: &mut Vec<u8>, id: Id<'_>, encoding: Encoding) -> Result<(), AllocError>
    ensures { OnOk result (said.new.items ≡ said.old.items
        ++ framed_reply (AnswerInitialize (id_data id.entry) encoding)) }
{
    let begin = said.len();
    put_initialize(said, id, encoding)?;
    frame_from(said, begin)
}

/// Answers `null`, of no document.
#[tactic(auto, unfolding(crate::specs::Replies::framed_reply))]
pub fn say_null(said: &mut Vec<u8>, id: Id<'_>) -> Result<(), AllocError>
    ensures { OnOk result (said.new.items ≡ said.old.items
        ++ framed_reply (AnswerNull (id_data id.entry))) }
{
    let begin = said.len();
    put_null(said, id)?;
    frame_from(said, begin)
}

/// Answers a question on a document, whose URI this is as a string of JSON.
#[tactic(auto, unfolding(crate::specs::Replies::framed_answer))]
pub fn say_answer(
    said: &mut Vec<u8>,
    id: Id<'_>,
    quoted_uri: &[u8],
    answer: &Answer<'_>,
) -> Result<(), AllocError>
    ensures { OnOk result (said.new.items ≡ said.old.items
        ++ framed_answer (id_data id.entry) quoted_uri.now (answered_of answer.now)) }
{
    let begin = said.len();
    put_answer(said, id, quoted_uri, answer)?;
    frame_from(said, begin)
}
