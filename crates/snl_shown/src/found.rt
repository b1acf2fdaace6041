//! What is found in a text, as it is published.
//! In: a session. Out: its diagnostics, each with its places and its message.
//! Knows nothing of documents. A diagnostic costs its own line of the text, or less.

ghost use Rattle.std.specs.Prelude.{◌≡◌, ◌+◌, IfOk, map, take};
ghost use Rattle.snl_place.specs.Places.{place_in};
ghost use Rattle.snl_say.specs.Publish.{found_of};
ghost use Rattle.snl_shown.specs.Found.{extent, found_at, found_between, found_in, severity_of};
ghost use Rattle.snl_shown.specs.Sources.{IsMark, IsSource};

use crate::places::{begin_of, mark_after, slice_of, source_of};
use crate::source::{Mark, Source};
use snl_cut::OutOfMemory;
use snl_kept::Diagnostic;
use snl_place::{Encoding, Place};
use snl_questions::token_at;
use snl_say::{Severity, Shown};
use snl_session::Session;
use std::alloc::Global;

/// At most so many diagnostics are published.
const MOST_PUBLISHED: usize = 1000;

fn severity_of(is_error: bool) -> Severity
    ensures { result ≡ severity_of is_error }
{
    if is_error {
        Severity::Error
    } else {
        Severity::Warning
    }
}

/// How many bytes a diagnostic is about.
fn extent(source: &Source<'_>, diagnostic: &Diagnostic) -> usize
    requires { IsSource source.now }
    ensures { result ≡ extent source.now.text.now diagnostic.now }
{
    if diagnostic.subject > 0 {
        return diagnostic.subject;
    }
    match token_at(source.pieces, diagnostic.offset) {
        Some(token) => token.len,
        None => 0,
    }
}

/// Where a diagnostic begins and where it stops.
fn range_of(source: &Source<'_>, from: Mark, diagnostic: &Diagnostic) -> (Mark, Mark)
    requires source { IsSource source.now }
    requires mark { IsMark source.now from }
    ensures start { IsMark source.now result.0 }
    ensures begins { result.0.place ≡ place_in source.now.encoding
        (take diagnostic.now.offset source.now.text.now) }
    ensures stops { result.1.place ≡ place_in source.now.encoding
        (take (diagnostic.now.offset + extent source.now.text.now diagnostic.now)
        source.now.text.now) }
{
    let len = extent(source, diagnostic);
    let start = mark_after(source, from, diagnostic.offset, 0);
    let stop = mark_after(source, start, diagnostic.offset, len);
    (start, stop)
}

/// A diagnostic as it is published, between two places.
fn shown_between<'a>(
    text: &'a [u8],
    diagnostic: &Diagnostic,
    start: Place,
    stop: Place,
) -> Shown<'a>
    ensures { found_of result ≡ found_between start stop text.now diagnostic.now }
{
    Shown {
        start,
        stop,
        severity: severity_of(diagnostic.code.is_error()),
        code: diagnostic.code.name().as_bytes(),
        message: diagnostic.code.message().as_bytes(),
        quoted: slice_of(text, diagnostic.offset, diagnostic.subject),
    }
}

/// A diagnostic as it is published, and where it begins.
fn shown_after<'a>(source: &Source<'a>, from: Mark, diagnostic: &Diagnostic) -> (Mark, Shown<'a>)
    requires source { IsSource source.now }
    requires mark { IsMark source.now from }
    ensures mark { IsMark source.now result.0 }
    ensures shown { found_of result.1
        ≡ found_at source.now.encoding source.now.text.now diagnostic.now }
{
    let (start, stop) = range_of(source, from, diagnostic);
    let shown = shown_between(source.text, diagnostic, start.place, stop.place);
    (start, shown)
}

/// Diagnostics as they are published. Their places are counted on from one to the next.
fn shown_all<'a>(
    alloc: Global,
    source: &Source<'a>,
    diagnostics: &[Diagnostic],
) -> Result<Vec<Shown<'a>>, OutOfMemory>
    requires { IsSource source.now }
    ensures { IfOk result (λ shown. map (λ s. found_of s) shown.items
        ≡ map (found_at source.now.encoding source.now.text.now) diagnostics.now) }
{
    let mut shown = Vec::with_capacity(alloc, diagnostics.len())?;
    let mut mark = begin_of(source);
    for diagnostic in diagnostics {
        let (start, next) = shown_after(source, mark, diagnostic);
        shown.push(next)?;
        mark = start;
    }
    Ok(shown)
}

/// What is found in the text of a session, as it is published: the first of it, where it is much.
#[tactic(auto, using(std::proofs::lemmas::List::take_min))]
pub fn found_in(
    alloc: Global,
    encoding: Encoding,
    session: &Session,
) -> Result<Vec<Shown<'_>>, OutOfMemory>
    ensures { IfOk result (λ shown. map (λ s. found_of s) shown.items
        ≡ found_in encoding session.now) }
{
    let source = source_of(encoding, session);
    let all = session.diagnostics();
    shown_all(alloc, &source, &all[..MOST_PUBLISHED.min(all.len())])
}
