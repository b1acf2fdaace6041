//! The answers to questions on the text of a session.
//! In: a session and a question. Out: the answer.
//! Knows nothing of documents, and of how an answer is written.

ghost use Rattle.std.specs.Prelude.{◌≡◌, IfOk};
ghost use Rattle.snl_say.specs.Answered.{answered_of};
ghost use Rattle.snl_hear.specs.Requests.{query_of};
ghost use Rattle.snl_shown.specs.Shown.{answer_in};

use crate::names::{definition_at, told_at};
use crate::references::{locations_at, ranges_at};
use crate::symbols::symbols_in;
use snl_cut::OutOfMemory;
use snl_hear::Question;
use snl_place::Encoding;
use snl_say::Answer;
use snl_session::Session;
use std::alloc::Global;

/// The answer to a question on the text of a session.
pub fn answer_in(
    alloc: Global,
    encoding: Encoding,
    session: &Session,
    question: Question,
) -> Result<Answer<'_>, OutOfMemory>
    ensures { IfOk result (λ answer. answered_of answer
        ≡ answer_in encoding session.now (query_of question)) }
{
    match question {
        Question::Symbols => {
            let symbols = symbols_in(alloc, encoding, session)?;
            Ok(Answer::Symbols(symbols))
        }
        Question::Definition(place) => definition_at(alloc, encoding, session, place),
        Question::Hover(place) => told_at(alloc, encoding, session, place),
        Question::References {
            place,
            includes_declaration,
        } => locations_at(alloc, encoding, session, place, includes_declaration),
        Question::Highlights(place) => ranges_at(alloc, encoding, session, place),
    }
}
