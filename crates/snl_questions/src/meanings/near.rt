//! What the name at an offset of a text means, and what the one near it. In: what is kept of the
//! text. Out: the spans of the name and of the one that declares it, and the declaration's number.

ghost use Rattle.std.specs.Prelude.{◌≡◌, IfOk};
ghost use Rattle.snl_kept.specs.Checks.{outlines_in};
ghost use Rattle.snl_kept.specs.Kept.{IsListed};
ghost use Rattle.snl_questions.specs.Meanings.{meaning_between, meaning_near, meaning_of, meant_at};

use crate::meanings::items::{TokenPlace, span_bytes};
use crate::meanings::kept_item::kept_item;
use crate::meanings::names::{LinkedItem, meant_in};
use crate::meanings::text_items::TextItems;
use crate::tokens::item_tokens::ItemTokens;
use crate::tokens::text_tokens::all_tokens;
use snl_cut::OutOfMemory;
use snl_kept::Lists;
use snl_scope::Links;
use snl_tables::Span;
use std::alloc::Global;

/// What a name means: the span of the name, that of the name that declares it, and the number of
/// the declaration, by which `Tables::variables` lists the channels of a variable. What a block
/// declares has no number, nor has a state set or a state.
#[derive(Clone, Copy, Debug, PartialEq, Eq)]
pub struct Meaning {
    pub name: Span,
    pub declared: Span,
    pub number: Option<usize>,
}

// What a token of the text means.
fn meant_at(
    alloc: Global,
    lists: &Lists,
    items: &TextItems,
    place: TokenPlace,
) -> Result<Option<TokenPlace>, OutOfMemory>
    requires { IsListed items.now.text.now lists.now }
    ensures { IfOk result (λ m. m ≡ meant_at items.now.text.now place) }
{
    let Some(item) = kept_item(alloc, lists, items, place.item) else {
        return Ok(None);
    };
    meant_in(
        &item.linked,
        &item.source,
        item.tree,
        item.outline,
        place.token,
    )
}

// The meaning of the name at a place, where it means the name at another one.
fn meaning_between(
    links: &Links,
    items: &TextItems,
    name: TokenPlace,
    declared: TokenPlace,
) -> Option<Meaning>
    requires { links.now.outlines ≡ outlines_in items.now.text.now }
    ensures { result ≡ meaning_between items.now.text.now name declared }
{
    let linked = LinkedItem {
        links,
        item: declared.item,
    };
    let name = items.span_at(name)?;
    let span = items.span_at(declared)?;
    Some(Meaning {
        name,
        declared: span,
        number: linked.number_at(declared.token, span_bytes(items.text, span)),
    })
}

/// What the name that has the byte at an offset means, by the tokens of the text: none where no
/// token has it, or the token means nothing. The only error is want of memory.
#[tactic(auto, unfolding(crate::specs::Meanings::meaning_of))]
pub fn meaning_of(
    alloc: Global,
    lists: &Lists,
    items: &TextItems,
    offset: usize,
) -> Result<Option<Meaning>, OutOfMemory>
    requires { IsListed items.now.text.now lists.now }
    ensures { IfOk result (λ m. m ≡ meaning_of items.now.text.now offset) }
{
    let Some(name) = items.place_at(offset) else {
        return Ok(None);
    };
    let Some(declared) = meant_at(alloc, lists, items, name)? else {
        return Ok(None);
    };
    Ok(meaning_between(&lists.links, items, name, declared))
}

// The same of the name near an offset.
#[tactic(auto, unfolding(crate::specs::Meanings::meaning_near))]
fn meaning_near_among(
    alloc: Global,
    lists: &Lists,
    items: &TextItems,
    offset: usize,
) -> Result<Option<Meaning>, OutOfMemory>
    requires { IsListed items.now.text.now lists.now }
    ensures { IfOk result (λ m. m ≡ meaning_near items.now.text.now offset) }
{
    if let Some(meaning) = meaning_of(alloc, lists, items, offset)? {
        return Ok(Some(meaning));
    }
    if offset == 0 {
        return Ok(None);
    }
    meaning_of(alloc, lists, items, offset - 1)
}

/// What the name means that a cursor at an offset is on: that which has the byte there, and where
/// it means nothing that which has the byte before. So a cursor right after a word's last letter is
/// on that word. None where no token has these bytes, or they name nothing that the text declares.
/// A name of an item that the grammar has no tree for means nothing, but for that of a state. The
/// time is that of the text's tokens, which are listed once for both offsets.
pub fn meaning_near<'a>(
    alloc: Global,
    text: &'a [u8],
    lists: &'a Lists,
    offset: usize,
) -> Result<Option<Meaning>, OutOfMemory>
    requires { IsListed text.now lists.now }
    ensures { IfOk result (λ m. m ≡ meaning_near text.now offset) }
{
    let tokens = all_tokens(alloc, &lists.pieces)?;
    let items = TextItems {
        text,
        items: ItemTokens::of_text(text, &tokens, &lists.items.ends),
    };
    meaning_near_among(alloc, lists, &items, offset)
}
