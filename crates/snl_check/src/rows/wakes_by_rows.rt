//! What wakes a state up, by rows of channels that there are: its tokens, the uses in its conditions
//! and the rows come in, the event flags, channels and variables that they mean go out. It asks no
//! clause.

ghost use Rattle.std.specs.Prelude.{◌≡◌, ◌<◌, IfOk, List, length, map, true};
ghost use Rattle.std.specs.List.{list_any};
ghost use Rattle.snl_scope.specs.Names.{entries};
ghost use Rattle.snl_walk.specs.Tokens.{IsSource};
ghost use Rattle.snl_item_check.specs.Items.{ProgramItem, tokens_in};
ghost use Rattle.snl_check.specs.Channels.{AssignedChannel, variables_before};
ghost use Rattle.snl_check.specs.Conditions.{wake_ups};
ghost use Rattle.snl_check.specs.Numbered.{HoldsRows, has_subscript};

use crate::rows::channel_numbers::{ChannelNumbers, numbers_by_rows};
use crate::rows::item_source::ItemSource;
use crate::rows::wake_ups::wakes_by;
use snl_cut::OutOfMemory;
use snl_items::TokenList;
use snl_lex::Piece;
use snl_scope::Links;
use snl_tables::{Tables, WakeUp};
use snl_walk::WakeUse;
use std::alloc::Global;

fn some_subscript(uses: &[WakeUse]) -> bool
    ensures { result ≡ list_any has_subscript uses.now }
{
    uses.iter().any(|used| used.subscript.is_some())
}

// The numbers of the channels of tables, if the uses ask for them.
fn numbers_for(
    alloc: Global,
    uses: &[WakeUse],
    tables: &Tables,
) -> Result<ChannelNumbers, OutOfMemory>
    ensures { IfOk result (λ numbers. list_any has_subscript uses.now ≡ true
        → HoldsRows numbers tables.now) }
{
    if !some_subscript(uses) {
        return Ok(ChannelNumbers::new(alloc));
    }
    let numbers = numbers_by_rows(
        alloc,
        tables.channels.as_slice(),
        tables.variables.as_slice(),
    )?;
    Ok(numbers)
}

/// What the uses of names in the conditions of an item mean, in the order of the text, where the rows
/// of channels in the tables are those of the channels that are assigned, by their elements and by
/// the lists of each declaration. The tokens `own` are the item's.
pub fn wakes_by_rows(
    alloc: Global,
    text: &[u8],
    own: &[Piece],
    links: &Links,
    item: usize,
    uses: &[WakeUse],
    tables: &Tables,
) -> Result<Vec<WakeUp>, OutOfMemory>
    requires { IsSource text.now own.now }
    ensures { (xs : List ProgramItem) (cs : List AssignedChannel) → own.now ≡ tokens_in xs item
        → map (λ row. row.element) tables.now.channels ≡ map (λ c. c.element) cs
        → tables.now.variables ≡ variables_before cs (length (entries links.now.outlines))
        → IfOk result (λ wake. wake.items
        ≡ wake_ups text.now xs links.now.outlines cs item uses.now) }
{
    let tokens = TokenList::listed(own);
    let source = ItemSource::of(text, &tokens, alloc);
    let numbers = numbers_for(alloc, uses, tables)?;
    let wake = wakes_by(&source, links, &numbers, item, uses)?;
    Ok(wake)
}
