//! Words: the simplest parts of lines.
#![tactic(auto)]

ghost use Rattle.std.specs.Prelude.{◌≡◌, ℕ, List, decimal};
ghost use Rattle.std.specs.List.{flat_map};
ghost use Rattle.snl_listing.specs.Parts.{word_text};
ghost use Rattle.snl_listing.specs.Sink.{Put};

use crate::escapes::put_escaped;
use crate::sink::Sink;
use itoa::Buffer;

/// A part of a line that is made of no others.
#[derive(Clone, Copy)]
pub(crate) enum Word<'a> {
    /// As it is.
    Plain(&'a str),
    /// Bytes of a text, shown in ASCII.
    Escaped(&'a [u8]),
    /// In decimal.
    Number(u64),
}

/// Puts a number in decimal.
pub(crate) fn put_number<S: Sink>(sink: &mut S, number: u64) -> Result<(), S::Error>
    ensures { Put result (S.Took sink.old sink.new) (S.Broke sink.old sink.new) (decimal number) }
{
    sink.put(Buffer::new().format(number))
}

fn put_word<S: Sink>(sink: &mut S, word: Word<'_>) -> Result<(), S::Error>
    ensures { Put result (S.Took sink.old sink.new) (S.Broke sink.old sink.new)
        (word_text word.entry) }
{
    match word {
        Word::Plain(text) => sink.put(text),
        Word::Escaped(bytes) => put_escaped(sink, bytes),
        Word::Number(number) => put_number(sink, number),
    }
}

/// Puts words, one after another.
pub(crate) fn put_words<S: Sink>(sink: &mut S, words: &[Word<'_>]) -> Result<(), S::Error>
    ensures { Put result (S.Took sink.old sink.new) (S.Broke sink.old sink.new)
        (flat_map word_text words.now) }
{
    for word in words {
        put_word(sink, *word)?;
    }
    Ok(())
}
