//! The channels of a variable.
//! In: a text, its tables, and the number of the variable's declaration. Out: a line for each of
//! its first channels, after those that are there.

ghost use Rattle.std.specs.Prelude.{◌≡◌, ◌++◌, ◌∷◌, OnOk, flat_map, take};
ghost use Rattle.snl_questions.specs.Hover.{channel_line, channel_lines, channel_text, channels_with};
ghost use Rattle.snl_questions.specs.Hover.{element_text, further, index_text, monitored_text};
ghost use Rattle.snl_questions.specs.Hover.{named_flag, size_text, sync_text, sync_word};

use crate::hovers::bytes::{put_all, put_number};
use crate::hovers::first::{first_of, put_more};
use crate::hovers::flags::flag_name;
use snl_tables::{ChannelRow, FlagRow, Queue, Synced, Tables};
use std::alloc::AllocError;

/// `[I]`, of an element.
pub fn put_index(out: &mut Vec<u8>, element: Option<u64>) -> Result<(), AllocError>
    ensures { OnOk result (out.new.items ≡ out.old.items ++ index_text element) }
{
    if let Some(element) = element {
        out.extend_from_slice(b"[")?;
        put_number(out, element)?;
        out.extend_from_slice(b"]")?;
    }
    Ok(())
}

// The element whose channel it is.
fn put_element(out: &mut Vec<u8>, element: Option<u64>) -> Result<(), AllocError>
    ensures { OnOk result (out.new.items ≡ out.old.items ++ element_text element) }
{
    if element.is_none() {
        return Ok(());
    }
    out.extend_from_slice(b" ")?;
    put_index(out, element)
}

fn monitored_text(is_monitored: bool) -> &'static [u8]
    ensures { result.now ≡ monitored_text is_monitored }
{
    if is_monitored { b" monitored" } else { b"" }
}

fn put_named_flag(
    out: &mut Vec<u8>,
    text: &[u8],
    flags: &[FlagRow],
    flag: Option<usize>,
) -> Result<(), AllocError>
    ensures { OnOk result (out.new.items ≡ out.old.items ++ named_flag text.now flags.now flag) }
{
    match flag {
        Some(number) => put_all(out, &[b" ", flag_name(text, flags, number)]),
        None => Ok(()),
    }
}

fn sync_word(queue: Queue) -> &'static [u8]
    ensures { result.now ≡ sync_word queue }
{
    match queue {
        Queue::Unqueued => b", sync",
        Queue::Default | Queue::Length(_) => b", syncq",
    }
}

fn put_size(out: &mut Vec<u8>, queue: Queue) -> Result<(), AllocError>
    ensures { OnOk result (out.new.items ≡ out.old.items ++ size_text queue) }
{
    match queue {
        Queue::Unqueued | Queue::Default => Ok(()),
        Queue::Length(size) => {
            out.extend_from_slice(b" ")?;
            put_number(out, size)
        }
    }
}

fn put_sync(
    out: &mut Vec<u8>,
    text: &[u8],
    flags: &[FlagRow],
    sync: Option<Synced>,
) -> Result<(), AllocError>
    ensures { OnOk result (out.new.items ≡ out.old.items ++ sync_text text.now flags.now sync) }
{
    let Some(sync) = sync else {
        return Ok(());
    };
    out.extend_from_slice(sync_word(sync.queue))?;
    put_named_flag(out, text, flags, sync.flag)?;
    put_size(out, sync.queue)
}

// The line of the channel with a number.
#[tactic(auto, unfolding(crate::specs::Hover::channel_text))]
fn put_row(
    out: &mut Vec<u8>,
    text: &[u8],
    flags: &[FlagRow],
    number: usize,
    row: &ChannelRow,
) -> Result<(), AllocError>
    ensures { OnOk result (out.new.items ≡ out.old.items
        ++ channel_text text.now flags.now number row.now) }
{
    out.extend_from_slice(b"channel ")?;
    put_number(out, number as u64)?;
    put_element(out, row.element)?;
    put_all(out, &[b" \"", row.pv.bytes(), b"\""])?;
    out.extend_from_slice(monitored_text(row.is_monitored))?;
    put_sync(out, text, flags, row.sync)
}

fn put_channel(
    out: &mut Vec<u8>,
    text: &[u8],
    tables: &Tables,
    number: usize,
) -> Result<(), AllocError>
    ensures { OnOk result (out.new.items ≡ out.old.items
        ++ channel_line text.now tables.now number) }
{
    match tables.channels.get(number) {
        Some(row) => put_row(out, text, tables.flags.as_slice(), number, row),
        None => Ok(()),
    }
}

// A line for each of these channels.
fn put_each(
    out: &mut Vec<u8>,
    text: &[u8],
    tables: &Tables,
    channels: &[usize],
) -> Result<(), AllocError>
    ensures { OnOk result (out.new.items ≡ out.old.items
        ++ flat_map (λ number. 10 ∷ channel_line text.now tables.now number) channels.now) }
{
    for number in channels {
        out.extend_from_slice(b"\n")?;
        put_channel(out, text, tables, *number)?;
    }
    Ok(())
}

// The channels of the variable that is the declaration with a number.
fn channels_with(tables: &Tables, declaration: Option<usize>) -> &[usize]
    ensures { result.now ≡ channels_with tables.now declaration }
{
    let Some(declaration) = declaration else {
        return &[];
    };
    match tables.variables.as_slice().get(declaration) {
        Some(channels) => channels.as_slice(),
        None => &[],
    }
}

/// The lines of the first channels of the variable that is the declaration with a number.
#[tactic(auto, unfolding(crate::specs::Hover::channel_lines), using(crate::proofs::Lines::each_first))]
pub fn put_channels(
    out: &mut Vec<u8>,
    text: &[u8],
    tables: &Tables,
    declaration: Option<usize>,
) -> Result<(), AllocError>
    ensures { OnOk result (out.new.items ≡ out.old.items
        ++ further (channel_lines text.now tables.now declaration)) }
{
    let channels = channels_with(tables, declaration);
    put_each(out, text, tables, first_of(channels))?;
    put_more(out, channels)
}
