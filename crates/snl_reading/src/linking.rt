//! The items of a text come in; what each says to the others, and what names mean among them, go
//! out.

ghost use Rattle.std.specs.Prelude.{◌≡◌, All, IfOk, length, map};
ghost use Rattle.snl_item_check.specs.Items.{EndsWithin, outlines_of, summary_of_item};
ghost use Rattle.snl_lex.specs.Pieces.{LiesIn};
ghost use Rattle.snl_reading.specs.ItemsRead.{ReadFrom, items_read};
ghost use Rattle.snl_scope.specs.LinkedItems.{linked_items};

use crate::items::{ReadItem, items_of, trees_of};
use snl_cut::OutOfMemory;
use snl_lex::Piece;
use snl_scope::{Links, Summary, link, summary_of};
use std::alloc::Global;

/// The summaries of items.
pub fn summaries_of(
    alloc: Global,
    text: &[u8],
    items: &[ReadItem],
) -> Result<Vec<Summary>, OutOfMemory>
    requires { All (ReadFrom text.now) items.now }
    ensures summaries { IfOk result (λ summaries. summaries.items ≡ map (summary_of_item text.now) (items_read items.now)) }
    ensures outlines { IfOk result (λ summaries. map (λ s. s.outline) summaries.items ≡ outlines_of text.now (items_read items.now)) }
{
    let mut summaries = Vec::new(alloc);
    for item in items {
        summaries.push(summary_of(alloc, text, item.tokens, item.tree)?)?;
    }
    Ok(summaries)
}

/// The summaries of the items that end at these tokens.
pub fn summaries_along(
    alloc: Global,
    text: &[u8],
    tokens: &[Piece],
    ends: &[usize],
) -> Result<Vec<Summary>, OutOfMemory>
    requires inside { All (LiesIn text.now) tokens.now }
    requires ends { EndsWithin 0 ends.now (length tokens.now) }
{
    let trees = trees_of(alloc, text, tokens, ends)?;
    let items = items_of(alloc, tokens, ends, &trees)?;
    summaries_of(alloc, text, &items)
}

/// What names mean among the items that these summaries tell of.
pub fn links_of(alloc: Global, summaries: &[Summary]) -> Result<Links, OutOfMemory>
    ensures { IfOk result (λ links. links ≡ linked_items summaries.now) }
{
    let mut all = Vec::new(alloc);
    for summary in summaries {
        all.push(summary)?;
    }
    link(alloc, &all)
}

/// What names mean among items.
pub fn links_among(alloc: Global, text: &[u8], items: &[ReadItem]) -> Result<Links, OutOfMemory>
    requires { All (ReadFrom text.now) items.now }
    ensures { IfOk result (λ links. links.outlines ≡ outlines_of text.now (items_read items.now)) }
{
    let summaries = summaries_of(alloc, text, items)?;
    links_of(alloc, &summaries)
}
