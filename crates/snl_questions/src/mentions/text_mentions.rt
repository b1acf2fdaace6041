//! The mentions of a text. In: the lists that are kept of it. Out: its mentions, item by item.

ghost use Rattle.std.specs.Prelude.{◌≡◌, ◌++◌, IfOk, OnOk, length, option_map, option_to_list};
ghost use Rattle.snl_walk.specs.Tokens.{IsSource};
ghost use Rattle.snl_kept.specs.Kept.{IsListed};
ghost use Rattle.snl_questions.specs.KeptItems.{mentioned_in_item};
ghost use Rattle.snl_questions.specs.Mentions.{mention_by, mentions_at, mentions_before, mentions_in};
ghost use Rattle.snl_questions.specs.Slots.{AreSlotsOf};

use crate::meanings::items::TokenPlace;
use crate::meanings::kept_item::{KeptItem, kept_item};
use crate::meanings::text_items::TextItems;
use crate::mentions::mention::Mention;
use crate::mentions::slots::Slots;
use crate::tokens::item_tokens::ItemTokens;
use crate::tokens::text_tokens::all_tokens;
use snl_cut::OutOfMemory;
use snl_kept::Lists;
use std::alloc::Global;

// The mention at a token, if that means something.
fn mention_at(item: usize, token: usize, means: Option<TokenPlace>) -> Option<Mention>
    ensures { result ≡ option_map (mention_by item token) means }
{
    let means = means?;
    Some(Mention {
        at: TokenPlace { item, token },
        means,
    })
}

// Adds a mention, if there is one.
fn add_mention(mention: Option<Mention>, mentions: &mut Vec<Mention>) -> Result<(), OutOfMemory>
    ensures { OnOk result (mentions.new.items ≡ mentions.old.items ++ option_to_list mention) }
{
    if let Some(mention) = mention {
        mentions.push(mention)?;
    }
    Ok(())
}

// Adds the mentions at the tokens of an item, by their slots.
fn add_mentions(
    item: &KeptItem,
    slots: &Slots,
    mentions: &mut Vec<Mention>,
) -> Result<(), OutOfMemory>
    requires source { IsSource item.now.source.text.now item.now.source.tokens.now }
    requires slots { AreSlotsOf item.now slots.now }
    ensures { OnOk result (mentions.new.items ≡ mentions.old.items
        ++ mentions_before item.now.linked.item (mentioned_in_item item.now)
        (length item.now.source.tokens.now)) }
{
    for token in 0..item.source.tokens.len() {
        let means = slots.mentioned(item, token);
        add_mention(mention_at(item.linked.item, token, means), mentions)?;
    }
    Ok(())
}

// Adds the mentions in the item with a number.
fn add_item(
    alloc: Global,
    lists: &Lists,
    items: &TextItems,
    number: usize,
    mentions: &mut Vec<Mention>,
) -> Result<(), OutOfMemory>
    requires { IsListed items.now.text.now lists.now }
    ensures { OnOk result (mentions.new.items ≡ mentions.old.items
        ++ mentions_at items.now.text.now number) }
{
    let Some(item) = kept_item(alloc, lists, items, number) else {
        return Ok(());
    };
    let slots = Slots::of_item(&item)?;
    add_mentions(&item, &slots, mentions)
}

/// The mentions of a text that is cut into items.
pub fn mentions_by_items(
    alloc: Global,
    lists: &Lists,
    items: &TextItems,
) -> Result<Vec<Mention>, OutOfMemory>
    requires { IsListed items.now.text.now lists.now }
    ensures { IfOk result (λ v. v.items ≡ mentions_in items.now.text.now) }
{
    let mut mentions = Vec::new(alloc);
    for number in 0..items.items.ends.len() {
        add_item(alloc, lists, items, number, &mut mentions)?;
    }
    Ok(mentions)
}

/// All tokens of a text that mean something, in its order, each with the place of what it means:
/// names in blocks, of declarations, of clauses, of targets, of states and state sets, and those of
/// prototypes of functions with a body. The only error is want of memory; the time is that of the
/// text's tokens.
pub fn all_mentions<'a>(
    alloc: Global,
    text: &'a [u8],
    lists: &'a Lists,
) -> Result<Vec<Mention>, OutOfMemory>
    requires { IsListed text.now lists.now }
    ensures { IfOk result (λ v. v.items ≡ mentions_in text.now) }
{
    let tokens = all_tokens(alloc, &lists.pieces)?;
    let items = TextItems {
        text,
        items: ItemTokens::of_text(text, &tokens, &lists.items.ends),
    };
    mentions_by_items(alloc, lists, &items)
}
