//! The rows of channels, and the channels of each declaration.

ghost use Rattle.std.specs.Prelude.{◌≡◌, ◌++◌, ◌∷◌, [], IfOk, IfSome, OnOk, map};
ghost use Rattle.snl_check.specs.Channels.{variables_before};
ghost use Rattle.snl_check.specs.Collected.{IsRowSource, assigned, over};
ghost use Rattle.snl_check.specs.Tables.{channel_row};

use crate::rows::channel_names::joined;
use crate::rows::channels::AssignedChannel;
use crate::rows::room::with_room;
use crate::rows::row_source::RowSource;
use crate::rows::syncs::sync_of;
use snl_cut::OutOfMemory;
use snl_scope::Name;
use snl_tables::ChannelRow;
use sqlite_items::Items;
use std::alloc::Global;

fn channel_row(row_source: &RowSource, channel: AssignedChannel) -> Result<ChannelRow, OutOfMemory>
    requires { IsRowSource row_source.now }
    ensures { IfOk result (λ row. row ≡ over row_source.now channel_row (assigned channel.entry)) }
{
    Ok(ChannelRow {
        variable: row_source.program.span(channel.item, channel.token),
        element: channel.element,
        scope: row_source.scope_of_variable(channel.variable),
        pv: joined(&row_source.program.source(channel.item), channel.strings)?,
        is_monitored: row_source
            .links
            .is_monitored(channel.variable, channel.element),
        sync: sync_of(row_source, channel.variable, channel.element),
    })
}

// The rows of channels.
fn channel_rows(
    row_source: &RowSource,
    channels: &[AssignedChannel],
) -> Result<Vec<ChannelRow>, OutOfMemory>
    requires { IsRowSource row_source.now }
    ensures { IfOk result (λ rows. rows.items
        ≡ map (over row_source.now channel_row) (map assigned channels.now)) }
{
    let mut rows = with_room(row_source.program.alloc, channels.len())?;
    for channel in channels {
        rows.push(channel_row(row_source, *channel)?)?;
    }
    Ok(rows)
}

fn copy_of(alloc: Global, row: &ChannelRow) -> Result<ChannelRow, OutOfMemory>
    ensures { IfOk result (λ copy. copy ≡ row.now) }
{
    Ok(ChannelRow {
        variable: row.variable,
        element: row.element,
        scope: row.scope,
        pv: Name::new(alloc, row.pv.bytes())?,
        is_monitored: row.is_monitored,
        sync: row.sync,
    })
}

// Copies of rows.
fn copies_of(alloc: Global, rows: &[ChannelRow]) -> Result<Vec<ChannelRow>, OutOfMemory>
    ensures { IfOk result (λ copies. copies.items ≡ rows.now) }
{
    let mut copies = with_room(alloc, rows.len())?;
    for row in rows {
        copies.push(copy_of(alloc, row)?)?;
    }
    Ok(copies)
}

/// The rows of channels: copies of those that are known, or made.
pub(crate) fn known_or_made(
    row_source: &RowSource,
    channels: &[AssignedChannel],
    known: Option<&[ChannelRow]>,
) -> Result<Vec<ChannelRow>, OutOfMemory>
    requires row_source { IsRowSource row_source.now }
    requires known { IfSome known (λ rows. rows.now
        ≡ map (over row_source.now channel_row) (map assigned channels.now)) }
    ensures { IfOk result (λ rows. rows.items
        ≡ map (over row_source.now channel_row) (map assigned channels.now)) }
{
    match known {
        Some(rows) => copies_of(row_source.program.alloc, rows),
        None => channel_rows(row_source, channels),
    }
}

// A list for each declaration, of which there are so many.
fn no_channels(alloc: Global, count: usize) -> Result<Vec<Items<usize>>, OutOfMemory>
    ensures { IfOk result (λ lists. lists.items ≡ variables_before [] count) }
{
    let mut lists = with_room(alloc, count)?;
    for _ in 0..count {
        lists.push(Items::new(alloc))?;
    }
    Ok(lists)
}

fn add_number(list: &mut Items<usize>, number: usize) -> Result<(), OutOfMemory>
    ensures { OnOk result (list.new ≡ list.old ++ number ∷ []) }
{
    list.push(number).map_err(|_| OutOfMemory)
}

/// The channels of each declaration, of which there are so many.
pub(crate) fn variables(
    alloc: Global,
    count: usize,
    channels: &[AssignedChannel],
) -> Result<Vec<Items<usize>>, OutOfMemory>
    ensures { IfOk result (λ lists. lists.items
        ≡ variables_before (map assigned channels.now) count) }
{
    let mut lists = no_channels(alloc, count)?;
    for (number, channel) in channels.iter().enumerate() {
        if channel.variable < lists.len() {
            add_number(&mut lists[channel.variable], number)?;
        }
    }
    Ok(lists)
}
