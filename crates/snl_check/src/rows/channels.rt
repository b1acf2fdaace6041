//! The channels of a text: its clauses come in, each channel that a sound `assign` names goes out,
//! in the order of the text.

ghost use Rattle.std.specs.Prelude.{◌≡◌, ◌++◌, IfOk, OnOk, map};
ghost use Rattle.snl_check.specs.Channels.{assigned_channel, assigned_channels, by_element, channels_in, channels_of_clause};
ghost use Rattle.snl_check.specs.Collected.{IsRowSource, assigned, items_in, over, resolved};
ghost use Rattle.snl_item_check.specs.Items.{tokens_in};

use crate::rows::item_clauses::ResolvedClause;
use crate::rows::room::with_room;
use crate::rows::row_source::RowSource;
use snl_cut::OutOfMemory;
use snl_grammar::tree::clause::{Channel, Clause};
use sqlite_items::Items;

/// A channel: the item of its clause, the token that names the variable there, the number of the
/// variable's declaration, the element, if it is that of one, and the strings of its name.
#[derive(Clone, Copy)]
pub(crate) struct AssignedChannel<'a> {
    pub item: usize,
    pub token: usize,
    pub variable: usize,
    pub element: Option<u64>,
    pub strings: &'a [usize],
}

// An `assign`: its item, the token that names its variable, and the number of the variable's
// declaration.
#[derive(Clone, Copy)]
struct Assign {
    item: usize,
    token: usize,
    variable: usize,
}

impl Assign {
    fn channel<'a>(self, element: Option<u64>, strings: &'a [usize]) -> AssignedChannel<'a>
        ensures { assigned result
            ≡ assigned_channel self.item self.token self.variable
            (record { element = element; strings = strings.now }) }
    {
        AssignedChannel {
            item: self.item,
            token: self.token,
            variable: self.variable,
            element,
            strings,
        }
    }
}

// Adds the channels of a list, by element.
fn add_list<'a>(
    assign: Assign,
    lists: &'a [Items<usize>],
    channels: &mut Vec<AssignedChannel<'a>>,
) -> Result<(), OutOfMemory>
    ensures { OnOk result (map assigned channels.new.items
        ≡ map assigned channels.old.items
        ++ map (assigned_channel assign.item assign.token assign.variable)
        (by_element 0 lists.now)) }
{
    for (element, strings) in lists.iter().enumerate() {
        channels.push(assign.channel(Some(element as u64), strings.as_slice()))?;
    }
    Ok(())
}

// Adds the channels that an `assign` names.
fn add_channels<'a>(
    row_source: &RowSource<'a>,
    assign: Assign,
    channel: &'a Channel,
    channels: &mut Vec<AssignedChannel<'a>>,
) -> Result<(), OutOfMemory>
    requires { IsRowSource row_source.now }
    ensures { OnOk result (map assigned channels.new.items
        ≡ map assigned channels.old.items
        ++ map (assigned_channel assign.item assign.token assign.variable)
        (channels_in row_source.now.program.text.now
        (tokens_in (items_in row_source.now.program) assign.item) channel.now)) }
{
    match channel {
        Channel::Anonymous => channels.push(assign.channel(None, &[]))?,
        Channel::Whole { to: _, text } => channels.push(assign.channel(None, text.as_slice()))?,
        Channel::Element {
            subscript,
            to: _,
            text,
        } => {
            let source = row_source.program.source(assign.item);
            let element = source.value(*subscript).unwrap_or(0);
            channels.push(assign.channel(Some(element), text.as_slice()))?;
        }
        Channel::Elements {
            to: _,
            texts,
            trailing: _,
        } => add_list(assign, texts.as_slice(), channels)?,
    }
    Ok(())
}

// Adds the channels of a clause: a sound `assign` has them.
fn add_clause<'a>(
    row_source: &RowSource<'a>,
    clause: ResolvedClause<'a>,
    channels: &mut Vec<AssignedChannel<'a>>,
) -> Result<(), OutOfMemory>
    requires { IsRowSource row_source.now }
    ensures { OnOk result (map assigned channels.new.items
        ≡ map assigned channels.old.items
        ++ channels_of_clause row_source.now.program.text.now (items_in row_source.now.program)
        (resolved clause.entry)) }
{
    if !clause.link.is_sound {
        return Ok(());
    }
    match (clause.clause, clause.link.variable) {
        (Clause::Assign { name, channel }, Some(variable)) => {
            let assign = Assign {
                item: clause.item,
                token: *name,
                variable,
            };
            add_channels(row_source, assign, channel, channels)
        }
        _ => Ok(()),
    }
}

/// The channels in the order of the text.
pub(crate) fn assigned_channels<'a>(
    row_source: &RowSource<'a>,
) -> Result<Vec<AssignedChannel<'a>>, OutOfMemory>
    requires { IsRowSource row_source.now }
    ensures { IfOk result (λ channels. map assigned channels.items
        ≡ over row_source.now assigned_channels) }
{
    let mut channels = with_room(row_source.program.alloc, row_source.clauses.len())?;
    for clause in row_source.clauses {
        add_clause(row_source, *clause, &mut channels)?;
    }
    Ok(channels)
}
