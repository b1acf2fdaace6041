//! Places in the text of a session.
//! In: a text with what is kept of it, and offsets, places or spans. Out: the places, counted on
//! from one to the next, or the offsets.
//! Knows nothing of what is at a place.

ghost use Rattle.std.specs.Prelude.{◌≡◌, ◌+◌, ◌≤◌, length, take};
ghost use Rattle.snl_place.specs.Places.{place_in};
ghost use Rattle.snl_script.specs.Parts.{slice_of};
ghost use Rattle.snl_shown.specs.Spans.{offset_at, place_at, start_of, stop_of};
ghost use Rattle.snl_shown.specs.Sources.{IsMark, IsSource};

use crate::source::{Mark, Source};
use snl_place::{Encoding, Place, offset_by, place_from};
use snl_session::Session;
use snl_tables::Span;

/// What is told of a text from what is kept of it.
pub fn source_of(encoding: Encoding, session: &Session) -> Source<'_>
    ensures source { IsSource result }
    ensures text { result.text.now ≡ session.now }
    ensures encoding { result.encoding ≡ encoding }
{
    let lists = &session.kept().lists;
    Source {
        encoding,
        text: session.text(),
        ends: lists.lines.ends.as_slice(),
        pieces: &lists.pieces,
    }
}

/// So many bytes of a text from an offset on, or those that there are.
pub fn slice_of(text: &[u8], start: usize, len: usize) -> &[u8]
    ensures { result.now ≡ slice_of text.now start len }
{
    let after = &text[start.min(text.len())..];
    &after[..len.min(after.len())]
}

/// So many bytes after an offset of a text, or the text's end.
pub fn offset_after(text: &[u8], offset: usize, len: usize) -> usize
    ensures inside { result ≤ length text.now }
    ensures same { take result text.now ≡ take (offset + len) text.now }
{
    let start = offset.min(text.len());
    start + len.min(text.len() - start)
}

/// The begin of a text.
pub fn begin_of(source: &Source<'_>) -> Mark
    ensures { IsMark source.now result }
{
    Mark {
        offset: 0,
        place: Place {
            line: 0,
            character: 0,
        },
    }
}

/// The place of an offset, counted on from another one.
pub fn mark_from(source: &Source<'_>, from: Mark, offset: usize) -> Mark
    requires source { IsSource source.now }
    requires mark { IsMark source.now from }
    requires inside { offset ≤ length source.now.text.now }
    ensures mark { IsMark source.now result }
    ensures offset { result.offset ≡ offset }
{
    let place = place_from(
        source.encoding,
        source.text,
        source.ends,
        from.offset,
        from.place,
        offset,
    );
    Mark { offset, place }
}

/// The place so many bytes after an offset, counted on from another one.
pub fn mark_after(source: &Source<'_>, from: Mark, offset: usize, len: usize) -> Mark
    requires source { IsSource source.now }
    requires mark { IsMark source.now from }
    ensures mark { IsMark source.now result }
    ensures place { result.place
        ≡ place_in source.now.encoding (take (offset + len) source.now.text.now) }
{
    let offset = offset_after(source.text, offset, len);
    mark_from(source, from, offset)
}

/// Where a span begins and where it stops.
pub fn places_of(source: &Source<'_>, span: Span) -> (Place, Place)
    requires { IsSource source.now }
    ensures start { result.0 ≡ start_of source.now.encoding source.now.text.now span }
    ensures stop { result.1 ≡ stop_of source.now.encoding source.now.text.now span }
{
    let start = mark_after(source, begin_of(source), span.start, 0);
    let stop = mark_after(source, start, span.start, span.len);
    (start.place, stop.place)
}

/// The offset of a place in the text of a session.
pub fn offset_at(encoding: Encoding, session: &Session, place: Place) -> usize
    ensures { result ≡ offset_at encoding session.now place }
{
    let ends = session.kept().lists.lines.ends.as_slice();
    offset_by(encoding, session.text(), ends, place)
}
