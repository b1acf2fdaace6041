//! The lines of the program: its name, its options, its event flags and its channels.
#![tactic(auto)]

ghost use Rattle.std.specs.Prelude.{◌≡◌, ℕ, ◌+◌, List};
ghost use Rattle.std.specs.List.{flat_map};
ghost use Rattle.snl_listing.specs.Listing.{channel_line, flag_line, monitor_text, name_or_none, numbered, option_line, program_line};
ghost use Rattle.snl_listing.specs.Parts.{part_text};
ghost use Rattle.snl_listing.specs.Sink.{Put};

use crate::parts::{Part, bytes_of, name, put_line};
use crate::sink::Sink;
use snl_tables::{ChannelRow, FlagRow, OptionRow, Span};

fn name_or_none(text: &[u8], name: Option<Span>) -> Part<'_>
    ensures { part_text result ≡ name_or_none text.now name }
{
    match name {
        None => Part::Plain("-"),
        Some(name) => Part::Escaped(bytes_of(text, name.start, name.len)),
    }
}

pub(crate) fn put_program<S: Sink>(
    sink: &mut S,
    text: &[u8],
    program: Option<Span>,
) -> Result<(), S::Error>
    ensures { Put result (S.Took sink.old sink.new) (S.Broke sink.old sink.new)
        (program_line text.now program) }
{
    put_line(
        sink,
        &[
            Part::Plain("program "),
            name_or_none(text, program),
            Part::Plain("\n"),
        ],
    )
}

fn put_option<S: Sink>(sink: &mut S, indent: &str, row: OptionRow) -> Result<(), S::Error>
    ensures { Put result (S.Took sink.old sink.new) (S.Broke sink.old sink.new)
        (option_line indent.now row) }
{
    let setting = if row.is_set { "option +" } else { "option -" };
    put_line(
        sink,
        &[
            Part::Plain(indent),
            Part::Plain(setting),
            Part::Letter(row.letter),
            Part::Plain("\n"),
        ],
    )
}

/// Puts the lines of options.
pub(crate) fn put_options<S: Sink>(
    sink: &mut S,
    indent: &str,
    rows: &[OptionRow],
) -> Result<(), S::Error>
    ensures { Put result (S.Took sink.old sink.new) (S.Broke sink.old sink.new)
        (flat_map (option_line indent.now) rows.now) }
{
    for row in rows {
        put_option(sink, indent, *row)?;
    }
    Ok(())
}

fn put_flag<S: Sink>(
    sink: &mut S,
    text: &[u8],
    number: usize,
    row: &FlagRow,
) -> Result<(), S::Error>
    ensures { Put result (S.Took sink.old sink.new) (S.Broke sink.old sink.new)
        (flag_line text.now number row.now) }
{
    put_line(
        sink,
        &[
            Part::Plain("flag "),
            Part::Number(number as u64),
            Part::Plain(" "),
            Part::Escaped(name(text, row.name)),
            Part::Plain(" "),
            Part::Scope {
                text,
                scope: row.scope,
            },
            Part::Plain("\n"),
        ],
    )
}

/// Puts the lines of event flags.
pub(crate) fn put_flags<S: Sink>(
    sink: &mut S,
    text: &[u8],
    rows: &[FlagRow],
) -> Result<(), S::Error>
    ensures { Put result (S.Took sink.old sink.new) (S.Broke sink.old sink.new)
        (numbered (flag_line text.now) 1 rows.now) }
{
    for (place, row) in rows.iter().enumerate() {
        put_flag(sink, text, place + 1, row)?;
    }
    Ok(())
}

fn monitor(is_monitored: bool) -> &'static str
    ensures { result.now ≡ monitor_text is_monitored }
{
    if is_monitored { " monitor" } else { "" }
}

fn put_channel<'a, S: Sink>(
    sink: &mut S,
    text: &'a [u8],
    number: usize,
    row: &'a ChannelRow,
) -> Result<(), S::Error>
    ensures { Put result (S.Took sink.old sink.new) (S.Broke sink.old sink.new)
        (channel_line text.now number row.now) }
{
    put_line(
        sink,
        &[
            Part::Plain("channel "),
            Part::Number(number as u64),
            Part::Plain(" "),
            Part::Escaped(name(text, row.variable)),
            Part::Element(row.element),
            Part::Plain(" "),
            Part::Scope {
                text,
                scope: row.scope,
            },
            Part::Plain(" \""),
            Part::Escaped(row.pv.bytes()),
            Part::Plain("\""),
            Part::Plain(monitor(row.is_monitored)),
            Part::Sync(row.sync),
            Part::Plain("\n"),
        ],
    )
}

/// Puts the lines of channels.
pub(crate) fn put_channels<S: Sink>(
    sink: &mut S,
    text: &[u8],
    rows: &[ChannelRow],
) -> Result<(), S::Error>
    ensures { Put result (S.Took sink.old sink.new) (S.Broke sink.old sink.new)
        (numbered (channel_line text.now) 0 rows.now) }
{
    for (number, row) in rows.iter().enumerate() {
        put_channel(sink, text, number, row)?;
    }
    Ok(())
}
