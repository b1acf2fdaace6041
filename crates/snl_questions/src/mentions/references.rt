//! The references of a name. In: the lists that are kept of a text, and an offset. Out: the
//! mentions of what the name near it means, by their spans.

ghost use Rattle.std.specs.Prelude.{◌≡◌, ◌++◌, IfOk, OnOk, option_to_list};
ghost use Rattle.std.specs.List.{filter_map};
ghost use Rattle.snl_walk.specs.Tokens.{IsSource};
ghost use Rattle.snl_kept.specs.Kept.{IsListed};
ghost use Rattle.snl_kept.specs.Program.{item_tokens};
ghost use Rattle.snl_questions.specs.KeptItems.{mentioned_in_item};
ghost use Rattle.snl_questions.specs.Mentions.{mentioned_at, mentioned_near, mentioned_of, reference_at};
ghost use Rattle.snl_questions.specs.Mentions.{reference_to, references_near, same_place};

use crate::meanings::items::TokenPlace;
use crate::meanings::kept_item::{KeptItem, kept_item};
use crate::meanings::names::meant_in;
use crate::meanings::text_items::TextItems;
use crate::mentions::mention::{Mention, Reference};
use crate::mentions::prototypes::prototype_of;
use crate::mentions::text_mentions::mentions_by_items;
use crate::tokens::item_tokens::ItemTokens;
use crate::tokens::text_tokens::all_tokens;
use snl_cut::OutOfMemory;
use snl_kept::Lists;
use std::alloc::Global;

// What a token of an item mentions.
#[tactic(auto, unfolding(crate::specs::Mentions::mentioned_in))]
fn mentioned_in(item: &KeptItem, token: usize) -> Result<Option<TokenPlace>, OutOfMemory>
    requires { IsSource item.now.source.text.now item.now.source.tokens.now }
    ensures { IfOk result (λ m. m ≡ mentioned_in_item item.now token) }
{
    let source = item.source;
    if let Some(meant) = meant_in(&item.linked, &source, item.tree, item.outline, token)? {
        return Ok(Some(meant));
    }
    let name = source.bytes(token);
    Ok(
        item.linked
            .meant_by_prototype(name, prototype_of(item.tree), token),
    )
}

// What a token of the text mentions.
fn mentioned_at(
    alloc: Global,
    lists: &Lists,
    items: &TextItems,
    place: TokenPlace,
) -> Result<Option<TokenPlace>, OutOfMemory>
    requires { IsListed items.now.text.now lists.now }
    ensures { IfOk result (λ m. m ≡ mentioned_at items.now.text.now place) }
{
    let Some(item) = kept_item(alloc, lists, items, place.item) else {
        return Ok(None);
    };
    mentioned_in(&item, place.token)
}

// What the name at an offset mentions.
#[tactic(auto, unfolding(crate::specs::Mentions::mentioned_of))]
fn mentioned_of(
    alloc: Global,
    lists: &Lists,
    items: &TextItems,
    offset: usize,
) -> Result<Option<TokenPlace>, OutOfMemory>
    requires { IsListed items.now.text.now lists.now }
    ensures { IfOk result (λ m. m ≡ mentioned_of items.now.text.now offset) }
{
    let Some(name) = items.place_at(offset) else {
        return Ok(None);
    };
    mentioned_at(alloc, lists, items, name)
}

// The same of the name near an offset.
#[tactic(auto, unfolding(crate::specs::Mentions::mentioned_near))]
fn mentioned_near(
    alloc: Global,
    lists: &Lists,
    items: &TextItems,
    offset: usize,
) -> Result<Option<TokenPlace>, OutOfMemory>
    requires { IsListed items.now.text.now lists.now }
    ensures { IfOk result (λ m. m ≡ mentioned_near items.now.text.now offset) }
{
    if let Some(declared) = mentioned_of(alloc, lists, items, offset)? {
        return Ok(Some(declared));
    }
    if offset == 0 {
        return Ok(None);
    }
    mentioned_of(alloc, lists, items, offset - 1)
}

fn same_place(one: TokenPlace, other: TokenPlace) -> bool
    ensures { result ≡ same_place one other }
{
    one.item == other.item && one.token == other.token
}

// A mention, by its span.
fn reference_at(items: &TextItems, mention: &Mention) -> Option<Reference>
    ensures { result ≡ reference_at (item_tokens items.now.text.now) mention.now }
{
    let span = items.span_at(mention.at)?;
    Some(Reference {
        span,
        is_declaration: same_place(mention.at, mention.means),
    })
}

// The same, where it means what is at a place.
fn reference_to(items: &TextItems, declared: TokenPlace, mention: &Mention) -> Option<Reference>
    ensures { result ≡ reference_to (item_tokens items.now.text.now) declared mention.now }
{
    if same_place(mention.means, declared) {
        reference_at(items, mention)
    } else {
        None
    }
}

// Adds a reference, if there is one.
fn add_reference(
    reference: Option<Reference>,
    references: &mut Vec<Reference>,
) -> Result<(), OutOfMemory>
    ensures { OnOk result (references.new.items ≡ references.old.items
        ++ option_to_list reference) }
{
    if let Some(reference) = reference {
        references.push(reference)?;
    }
    Ok(())
}

// Adds those of the mentions that mean what is at a place.
fn add_references(
    items: &TextItems,
    mentions: &[Mention],
    declared: TokenPlace,
    references: &mut Vec<Reference>,
) -> Result<(), OutOfMemory>
    ensures { OnOk result (references.new.items ≡ references.old.items
        ++ filter_map (reference_to (item_tokens items.now.text.now) declared) mentions.now) }
{
    for mention in mentions {
        add_reference(reference_to(items, declared, mention), references)?;
    }
    Ok(())
}

/// All references of the name that a cursor at an offset is on, in the order of the text: the
/// tokens that mean what it means, itself and its declaration among them. A cursor right after a
/// word's last letter is on that word. There are none where the name means nothing. The only error
/// is want of memory; the time is that of the text's tokens.
#[tactic(auto, unfolding(crate::specs::Mentions::references_near))]
pub fn references<'a>(
    alloc: Global,
    text: &'a [u8],
    lists: &'a Lists,
    offset: usize,
) -> Result<Vec<Reference>, OutOfMemory>
    requires { IsListed text.now lists.now }
    ensures { IfOk result (λ v. v.items ≡ references_near text.now offset) }
{
    let tokens = all_tokens(alloc, &lists.pieces)?;
    let items = TextItems {
        text,
        items: ItemTokens::of_text(text, &tokens, &lists.items.ends),
    };
    let Some(declared) = mentioned_near(alloc, lists, &items, offset)? else {
        return Ok(Vec::new(alloc));
    };
    let mentions = mentions_by_items(alloc, lists, &items)?;
    let mut references = Vec::new(alloc);
    add_references(&items, &mentions, declared, &mut references)?;
    Ok(references)
}
