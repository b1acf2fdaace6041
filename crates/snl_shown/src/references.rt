//! The references of the name at a place, as they are shown.
//! In: a session and a place of its text. Out: the references, each with its places.
//! Knows nothing of documents. A reference costs its own line of the text, or less.

ghost use Rattle.std.specs.Prelude.{◌≡◌, IfOk};
ghost use Rattle.snl_say.specs.Answered.{answered_of};
ghost use Rattle.snl_shown.specs.References.{locations_answer, part_of, parts_of, ranges_answer, references_asked, references_at};
ghost use Rattle.snl_shown.specs.Sources.{IsMark, IsSource};

use crate::places::{begin_of, mark_after, offset_at, source_of};
use crate::source::{Mark, Source};
use snl_cut::OutOfMemory;
use snl_place::{Encoding, Place};
use snl_questions::{Reference, references};
use snl_say::Answer;
use snl_session::Session;
use std::alloc::Global;

/// Takes the name where it is declared out, unless it is asked for too.
fn keep_asked(includes_declaration: bool, references: &mut Vec<Reference>)
    ensures { references.new.items ≡ references_asked includes_declaration references.old.items }
{
    if !includes_declaration {
        references.retain(|reference| !reference.is_declaration);
    }
}

/// The part that a reference is, and where it stops.
fn part_after(source: &Source<'_>, from: Mark, reference: &Reference) -> (Mark, (Place, Place))
    requires source { IsSource source.now }
    requires mark { IsMark source.now from }
    ensures mark { IsMark source.now result.0 }
    ensures part { result.1 ≡ part_of source.now.encoding source.now.text.now reference.now }
{
    let span = reference.span;
    let start = mark_after(source, from, span.start, 0);
    let stop = mark_after(source, start, span.start, span.len);
    (stop, (start.place, stop.place))
}

/// References by their places, which are counted on from one to the next.
fn parts_of(
    alloc: Global,
    encoding: Encoding,
    session: &Session,
    references: &[Reference],
) -> Result<Vec<(Place, Place)>, OutOfMemory>
    ensures { IfOk result (λ parts. parts.items ≡ parts_of encoding session.now references.now) }
{
    let source = source_of(encoding, session);
    let mut parts = Vec::with_capacity(alloc, references.len())?;
    let mut mark = begin_of(&source);
    for reference in references {
        let (stop, part) = part_after(&source, mark, reference);
        parts.push(part)?;
        mark = stop;
    }
    Ok(parts)
}

/// The references of the name near a place.
fn references_at(
    alloc: Global,
    encoding: Encoding,
    session: &Session,
    place: Place,
) -> Result<Vec<Reference>, OutOfMemory>
    ensures { IfOk result (λ found. found.items
        ≡ references_at encoding session.now place) }
{
    let offset = offset_at(encoding, session, place);
    references(alloc, session.text(), &session.kept().lists, offset)
}

/// The references of the name at a place, if it means something, with the name where it is declared
/// or without.
pub fn locations_at(
    alloc: Global,
    encoding: Encoding,
    session: &Session,
    place: Place,
    includes_declaration: bool,
) -> Result<Answer<'_>, OutOfMemory>
    ensures { IfOk result (λ answer. answered_of answer
        ≡ locations_answer encoding session.now includes_declaration
        (references_at encoding session.now place)) }
{
    let mut found = references_at(alloc, encoding, session, place)?;
    if found.is_empty() {
        return Ok(Answer::Nothing);
    }
    keep_asked(includes_declaration, &mut found);
    let parts = parts_of(alloc, encoding, session, &found)?;
    Ok(Answer::Locations(parts))
}

/// All references of the name at a place, if it means something, by their ranges.
pub fn ranges_at(
    alloc: Global,
    encoding: Encoding,
    session: &Session,
    place: Place,
) -> Result<Answer<'_>, OutOfMemory>
    ensures { IfOk result (λ answer. answered_of answer
        ≡ ranges_answer encoding session.now (references_at encoding session.now place)) }
{
    let found = references_at(alloc, encoding, session, place)?;
    if found.is_empty() {
        return Ok(Answer::Nothing);
    }
    let parts = parts_of(alloc, encoding, session, &found)?;
    Ok(Answer::Ranges(parts))
}
