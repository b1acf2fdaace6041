//! What wakes a state up: the uses of names in its conditions come in, the event flags, channels
//! and variables that they mean go out.

ghost use Rattle.std.specs.Prelude.{◌≡◌, IfOk, Some, is_some};
ghost use Rattle.std.specs.List.{filter_map};
ghost use Rattle.std.specs.Map.{lookup};
ghost use Rattle.snl_walk.specs.Tokens.{IsSource};
ghost use Rattle.snl_check.specs.ItemTokens.{own_tokens};
ghost use Rattle.snl_check.specs.Channels.{assigned_channels};
ghost use Rattle.snl_check.specs.Collected.{IsStateSource, items_in, over};
ghost use Rattle.snl_check.specs.Conditions as conditions;
ghost use Rattle.snl_check.specs.Numbered as numbered;

use crate::rows::channel_numbers::{ChannelNumbers, ElementKey, Which};
use crate::rows::item_source::ItemSource;
use crate::rows::room::with_room;
use crate::rows::state_source::StateSource;
use snl_cut::OutOfMemory;
use snl_scope::Links;
use snl_tables::WakeUp;
use snl_walk::WakeUse;

// Whether elements of a variable are assigned.
fn covers_elements(numbers: &ChannelNumbers, variable: usize) -> bool
    ensures { result ≡ is_some (lookup (numbered.same_key (numbered.any_of variable)) numbers.now) }
{
    let any = ElementKey {
        variable,
        which: Which::Any,
    };
    numbers.number(any).is_some()
}

// The channel of an element.
fn element_number(numbers: &ChannelNumbers, variable: usize, element: u64) -> Option<usize>
    ensures { result ≡ lookup (numbered.same_key (numbered.one_of variable element)) numbers.now }
{
    numbers.number(ElementKey {
        variable,
        which: Which::Element(element),
    })
}

// What a variable means, with the subscript that directly follows it.
fn on_variable(numbers: &ChannelNumbers, subscript: Option<u64>, variable: usize) -> Option<WakeUp>
    ensures { result ≡ numbered.variable_by numbers.now subscript variable }
{
    match subscript {
        Some(element) => {
            if covers_elements(numbers, variable) {
                element_number(numbers, variable, element).map(WakeUp::Channel)
            } else {
                Some(WakeUp::Variable(variable))
            }
        }
        None => Some(WakeUp::Variable(variable)),
    }
}

// What a use of a name in an item means.
fn wake_up(
    source: &ItemSource,
    links: &Links,
    numbers: &ChannelNumbers,
    item: usize,
    used: WakeUse,
) -> Option<WakeUp>
    requires { IsSource source.now.text.now (own_tokens source.now) }
    ensures { result
        ≡ numbered.wake_by source.now.text.now (own_tokens source.now)
        links.now.outlines numbers.now item used }
{
    let declaration = links.declaration(item, source.bytes(used.token))?;
    match links.flag_number(declaration) {
        Some(flag) => Some(WakeUp::Flag(flag)),
        None => on_variable(numbers, used.subscript, declaration),
    }
}

/// What the uses of names in the conditions of an item mean, in the order of the text, by the
/// numbers of channels.
pub(crate) fn wakes_by(
    source: &ItemSource,
    links: &Links,
    numbers: &ChannelNumbers,
    item: usize,
    uses: &[WakeUse],
) -> Result<Vec<WakeUp>, OutOfMemory>
    requires { IsSource source.now.text.now (own_tokens source.now) }
    ensures { IfOk result (λ wake. wake.items
        ≡ filter_map (numbered.wake_by source.now.text.now (own_tokens source.now)
        links.now.outlines numbers.now item) uses.now) }
{
    let mut wake = with_room(source.alloc, uses.len())?;
    for used in uses {
        if let Some(meant) = wake_up(source, links, numbers, item, *used) {
            wake.push(meant)?;
        }
    }
    Ok(wake)
}

/// What the uses of names in the conditions of an item mean, in the order of the text.
pub(crate) fn wake_ups(state_source: &StateSource, item: usize) -> Result<Vec<WakeUp>, OutOfMemory>
    requires { IsStateSource state_source.now }
    ensures { IfOk result (λ wake. wake.items ≡ over state_source.now.row_source conditions.wake_ups
        (over state_source.now.row_source assigned_channels) item
        (conditions.uses_in state_source.now.row_source.program.text.now
        (items_in state_source.now.row_source.program) item)) }
{
    let source = state_source.row_source.program.source(item);
    let uses = state_source.wake_uses(item);
    let wake = wakes_by(
        &source,
        state_source.row_source.links,
        state_source.numbers,
        item,
        uses,
    )?;
    Ok(wake)
}
