//! Parts of lines.
#![tactic(auto)]

ghost use Rattle.std.specs.Prelude.{◌≡◌, ℕ, List};
ghost use Rattle.std.specs.List.{flat_map};
ghost use Rattle.snl_listing.specs.Listing.{bytes_of, element_text, file_text, flag_text, name_or_none, queue_text, scope_text, sync_text};
ghost use Rattle.snl_listing.specs.Parts.{part_text, word_text};
ghost use Rattle.snl_listing.specs.Sink.{Put};

use crate::escapes::{put_byte, put_escaped};
use crate::sink::Sink;
use crate::words::{Word, put_number, put_words};
use snl_tables::{Queue, ScopeName, Span, Synced};

/// A part of a line.
#[derive(Clone, Copy)]
pub(crate) enum Part<'a> {
    /// As it is.
    Plain(&'a str),
    /// Bytes of a text, shown in ASCII.
    Escaped(&'a [u8]),
    /// A byte of a text, shown in ASCII.
    Letter(u8),
    /// In decimal.
    Number(u64),
    /// The scope that declares a name.
    Scope {
        text: &'a [u8],
        scope: ScopeName,
    },
    /// The file of a line, if it has one.
    File {
        text: &'a [u8],
        file: Option<(usize, usize)>,
    },
    /// The number of an element, if it is one.
    Element(Option<u64>),
    /// How a channel is synced, if it is.
    Sync(Option<Synced>),
}

/// So many bytes of a text from a place on, or those that there are.
pub(crate) fn bytes_of(text: &[u8], start: usize, len: usize) -> &[u8]
    ensures { result.now ≡ bytes_of text.now start len }
{
    let after = &text[start.min(text.len())..];
    &after[..len.min(after.len())]
}

/// The bytes of a name.
pub(crate) fn name(text: &[u8], name: Span) -> &[u8]
    ensures { result.now ≡ bytes_of text.now name.start name.len }
{
    bytes_of(text, name.start, name.len)
}

fn name_or_none(text: &[u8], name: Option<Span>) -> Word<'_>
    ensures { word_text result ≡ name_or_none text.now name }
{
    match name {
        None => Word::Plain("-"),
        Some(name) => Word::Escaped(bytes_of(text, name.start, name.len)),
    }
}

fn put_scope<S: Sink>(sink: &mut S, text: &[u8], scope: ScopeName) -> Result<(), S::Error>
    ensures { Put result (S.Took sink.old sink.new) (S.Broke sink.old sink.new)
        (scope_text text.now scope) }
{
    match scope {
        ScopeName::Program => sink.put("program"),
        ScopeName::StateSet(set) => put_escaped(sink, name(text, set)),
        ScopeName::State { set, state } => put_words(
            sink,
            &[
                name_or_none(text, set),
                Word::Plain("."),
                Word::Escaped(name(text, state)),
            ],
        ),
    }
}

fn put_file<S: Sink>(
    sink: &mut S,
    text: &[u8],
    file: Option<(usize, usize)>,
) -> Result<(), S::Error>
    ensures { Put result (S.Took sink.old sink.new) (S.Broke sink.old sink.new)
        (file_text text.now file) }
{
    match file {
        None => sink.put(""),
        Some((start, len)) => put_words(
            sink,
            &[
                Word::Plain(" in \""),
                Word::Escaped(bytes_of(text, start, len)),
                Word::Plain("\""),
            ],
        ),
    }
}

fn put_element<S: Sink>(sink: &mut S, element: Option<u64>) -> Result<(), S::Error>
    ensures { Put result (S.Took sink.old sink.new) (S.Broke sink.old sink.new)
        (element_text element) }
{
    match element {
        None => sink.put(""),
        Some(element) => put_words(
            sink,
            &[Word::Plain("["), Word::Number(element), Word::Plain("]")],
        ),
    }
}

fn flag_or_none(flag: Option<usize>) -> Word<'static>
    ensures { word_text result ≡ flag_text flag }
{
    match flag {
        None => Word::Plain("-"),
        Some(flag) => Word::Number(flag as u64),
    }
}

fn put_sync<S: Sink>(sink: &mut S, sync: Option<Synced>) -> Result<(), S::Error>
    ensures { Put result (S.Took sink.old sink.new) (S.Broke sink.old sink.new) (sync_text sync) }
{
    match sync {
        None => sink.put(""),
        Some(sync) => put_queue(sink, flag_or_none(sync.flag), sync.queue),
    }
}

fn put_queue<S: Sink>(sink: &mut S, flag: Word<'_>, queue: Queue) -> Result<(), S::Error>
    ensures { Put result (S.Took sink.old sink.new) (S.Broke sink.old sink.new)
        (queue_text (word_text flag.entry) queue) }
{
    match queue {
        Queue::Unqueued => put_words(sink, &[Word::Plain(" sync "), flag]),
        Queue::Default => put_words(
            sink,
            &[Word::Plain(" syncq "), flag, Word::Plain(" default")],
        ),
        Queue::Length(slots) => put_words(
            sink,
            &[
                Word::Plain(" syncq "),
                flag,
                Word::Plain(" "),
                Word::Number(slots),
            ],
        ),
    }
}

fn put_part<S: Sink>(sink: &mut S, part: Part<'_>) -> Result<(), S::Error>
    ensures { Put result (S.Took sink.old sink.new) (S.Broke sink.old sink.new)
        (part_text part.entry) }
{
    match part {
        Part::Plain(text) => sink.put(text),
        Part::Escaped(bytes) => put_escaped(sink, bytes),
        Part::Letter(byte) => put_byte(sink, byte),
        Part::Number(number) => put_number(sink, number),
        Part::Scope { text, scope } => put_scope(sink, text, scope),
        Part::File { text, file } => put_file(sink, text, file),
        Part::Element(element) => put_element(sink, element),
        Part::Sync(sync) => put_sync(sink, sync),
    }
}

/// Puts the parts of a line, one after another.
pub(crate) fn put_line<S: Sink>(sink: &mut S, parts: &[Part<'_>]) -> Result<(), S::Error>
    ensures { Put result (S.Took sink.old sink.new) (S.Broke sink.old sink.new)
        (flat_map part_text parts.now) }
{
    for part in parts {
        put_part(sink, *part)?;
    }
    Ok(())
}
