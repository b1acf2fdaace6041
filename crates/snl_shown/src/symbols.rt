//! The symbols of a text, as they are shown.
//! In: a session. Out: its symbols, each with its places.
//! Knows nothing of documents.

ghost use Rattle.std.specs.Prelude.{◌≡◌, ◌≤◌, IfOk, length, map};
ghost use Rattle.snl_say.specs.Symbols.{symbol_of};
ghost use Rattle.snl_shown.specs.Symbols.{kind_of, symbol_at, symbols_in};
ghost use Rattle.snl_shown.specs.Marks.{AreMarks};
ghost use Rattle.snl_shown.specs.Spans.{start_of, stop_of};
ghost use Rattle.snl_shown.specs.Sources.{IsMark, IsSource};

use crate::places::{begin_of, mark_after, mark_from, offset_after, slice_of, source_of};
use crate::source::{Mark, Source};
use snl_cut::OutOfMemory;
use snl_place::Encoding;
use snl_questions::{DocumentSymbol, DocumentSymbolKind, symbols};
use snl_say::{ShownSymbol, SymbolKind};
use snl_session::Session;
use snl_tables::Span;
use std::alloc::Global;

/// Where a symbol begins and stops, and where its name does.
#[derive(Clone, Copy)]
struct SymbolMarks {
    start: Mark,
    stop: Mark,
    name_start: Mark,
    name_stop: Mark,
}

fn kind_of(kind: DocumentSymbolKind) -> SymbolKind
    ensures { result ≡ kind_of kind }
{
    match kind {
        DocumentSymbolKind::Program => SymbolKind::Program,
        DocumentSymbolKind::StateSet => SymbolKind::StateSet,
        DocumentSymbolKind::State => SymbolKind::State,
        DocumentSymbolKind::Variable => SymbolKind::Variable,
        DocumentSymbolKind::EventFlag => SymbolKind::EventFlag,
        DocumentSymbolKind::Function => SymbolKind::Function,
    }
}

/// Where the extent of a symbol stops, counted on from the stop before it, or from its name's where
/// that is nearer: many variables have one extent, and a state set has many states in it.
fn stop_after(source: &Source<'_>, last: Mark, name: Mark, extent: Span) -> Mark
    requires source { IsSource source.now }
    requires last { IsMark source.now last }
    requires name { IsMark source.now name }
    ensures mark { IsMark source.now result }
    ensures place { result.place ≡ stop_of source.now.encoding source.now.text.now extent }
{
    let offset = offset_after(source.text, extent.start, extent.len);
    if name.offset <= last.offset && last.offset <= offset {
        mark_from(source, last, offset)
    } else {
        mark_from(source, name, offset)
    }
}

/// The marks of a symbol, counted on from those of the one before it.
fn marks_after(source: &Source<'_>, from: SymbolMarks, symbol: &DocumentSymbol) -> SymbolMarks
    requires source { IsSource source.now }
    requires from { AreMarks source.now from }
    ensures marks { AreMarks source.now result }
    ensures start { result.start.place
        ≡ start_of source.now.encoding source.now.text.now symbol.now.extent }
    ensures stop { result.stop.place
        ≡ stop_of source.now.encoding source.now.text.now symbol.now.extent }
    ensures name_start { result.name_start.place
        ≡ start_of source.now.encoding source.now.text.now symbol.now.name }
    ensures name_stop { result.name_stop.place
        ≡ stop_of source.now.encoding source.now.text.now symbol.now.name }
{
    let (extent, name) = (symbol.extent, symbol.name);
    let start = mark_after(source, from.start, extent.start, 0);
    let name_start = mark_after(source, from.name_stop, name.start, 0);
    let name_stop = mark_after(source, name_start, name.start, name.len);
    let stop = stop_after(source, from.stop, name_stop, extent);
    SymbolMarks {
        start,
        stop,
        name_start,
        name_stop,
    }
}

/// A symbol as it is shown, and its marks.
fn shown_after<'a>(
    source: &Source<'a>,
    from: SymbolMarks,
    symbol: &DocumentSymbol,
) -> (SymbolMarks, ShownSymbol<'a>)
    requires source { IsSource source.now }
    requires from { AreMarks source.now from }
    ensures marks { AreMarks source.now result.0 }
    ensures shown { symbol_of result.1
        ≡ symbol_at source.now.encoding source.now.text.now symbol.now }
{
    let marks = marks_after(source, from, symbol);
    let shown = ShownSymbol {
        kind: kind_of(symbol.kind),
        name: slice_of(source.text, symbol.name.start, symbol.name.len),
        start: marks.start.place,
        stop: marks.stop.place,
        name_start: marks.name_start.place,
        name_stop: marks.name_stop.place,
        depth: symbol.depth,
    };
    (marks, shown)
}

/// Symbols as they are shown. Their places are counted on from one to the next.
fn shown_all<'a>(
    alloc: Global,
    source: &Source<'a>,
    symbols: &[DocumentSymbol],
) -> Result<Vec<ShownSymbol<'a>>, OutOfMemory>
    requires { IsSource source.now }
    ensures { IfOk result (λ shown. map (λ s. symbol_of s) shown.items
        ≡ map (symbol_at source.now.encoding source.now.text.now) symbols.now) }
{
    let mut shown = Vec::with_capacity(alloc, symbols.len())?;
    let begin = begin_of(source);
    let mut marks = SymbolMarks {
        start: begin,
        stop: begin,
        name_start: begin,
        name_stop: begin,
    };
    for symbol in symbols {
        let (its_marks, next) = shown_after(source, marks, symbol);
        shown.push(next)?;
        marks = its_marks;
    }
    Ok(shown)
}

/// The symbols of the text of a session, as they are shown.
pub fn symbols_in(
    alloc: Global,
    encoding: Encoding,
    session: &Session,
) -> Result<Vec<ShownSymbol<'_>>, OutOfMemory>
    ensures { IfOk result (λ shown. map (λ s. symbol_of s) shown.items
        ≡ symbols_in encoding session.now) }
{
    let source = source_of(encoding, session);
    let all = symbols(alloc, session.text(), &session.kept().lists)?;
    shown_all(alloc, &source, &all)
}
