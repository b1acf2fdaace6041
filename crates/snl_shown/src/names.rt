//! What is told of the name at a place.
//! In: a session and a place of its text. Out: where the name is declared, or what is told of it.
//! Knows nothing of documents.

ghost use Rattle.std.specs.Prelude.{◌≡◌, IfOk};
ghost use Rattle.snl_say.specs.Answered.{answered_of, location_answer};
ghost use Rattle.snl_shown.specs.Shown.{declared_at, hover_answer, told_at};

use crate::places::{offset_at, places_of, source_of};
use snl_cut::OutOfMemory;
use snl_place::{Encoding, Place};
use snl_questions::{hover_at, meaning_near};
use snl_say::Answer;
use snl_session::Session;
use std::alloc::Global;

/// Where the name is declared that the name at a place means, if it means one.
pub fn definition_at(
    alloc: Global,
    encoding: Encoding,
    session: &Session,
    place: Place,
) -> Result<Answer<'_>, OutOfMemory>
    ensures { IfOk result (λ answer. answered_of answer
        ≡ location_answer (declared_at encoding session.now place)) }
{
    let offset = offset_at(encoding, session, place);
    let lists = &session.kept().lists;
    let Some(meaning) = meaning_near(alloc, session.text(), lists, offset)? else {
        return Ok(Answer::Nothing);
    };
    let source = source_of(encoding, session);
    let (start, stop) = places_of(&source, meaning.declared);
    Ok(Answer::Location { start, stop })
}

/// What is told of the name at a place, if it means something.
pub fn told_at(
    alloc: Global,
    encoding: Encoding,
    session: &Session,
    place: Place,
) -> Result<Answer<'_>, OutOfMemory>
    ensures { IfOk result (λ answer. answered_of answer
        ≡ hover_answer (told_at encoding session.now place)) }
{
    let offset = offset_at(encoding, session, place);
    let Some(hover) = hover_at(alloc, session.text(), session.kept(), offset)? else {
        return Ok(Answer::Nothing);
    };
    let source = source_of(encoding, session);
    let (start, stop) = places_of(&source, hover.name);
    Ok(Answer::Hover {
        contents: hover.lines,
        start,
        stop,
    })
}
