//! The links of a program: its items come in, what names mean among them goes out.
//! It knows nothing of what is found by the links.
#![tactic(auto)]

ghost use Rattle.std.specs.Prelude.{◌≡◌, All, IfOk, map};
ghost use Rattle.snl_kept.specs.Linked.{linked_of, outlines_of, summaries_of};
ghost use Rattle.snl_kept.specs.Parts.{IsPart, item_of_part};

use crate::found::program::Part;
use snl_cut::OutOfMemory;
use snl_items::TokenList;
use snl_scope::{ItemKind, Links, Summary, link};
use std::alloc::Global;

// The summary of each item.
fn summaries_of<'a>(
    alloc: Global,
    text: &[u8],
    tokens: &TokenList,
    parts: &[Part<'a>],
) -> Result<Vec<&'a Summary>, OutOfMemory>
    requires parts { All (IsPart text.now tokens.now) parts.now }
    ensures { IfOk result (λ v. map (λ s. s.now) v.items ≡ summaries_of text.now (map (item_of_part tokens.now) parts.now)) }
{
    let mut summaries = Vec::with_capacity(alloc, parts.len())?;
    for part in parts {
        summaries.push(&part.entry.summary)?;
    }
    Ok(summaries)
}

/// What names mean among the items of a program.
pub fn links_of(
    alloc: Global,
    text: &[u8],
    tokens: &TokenList,
    parts: &[Part],
) -> Result<Links, OutOfMemory>
    requires parts { All (IsPart text.now tokens.now) parts.now }
    ensures links { IfOk result (λ links. links ≡ linked_of text.now (map (item_of_part tokens.now) parts.now)) }
    ensures outlines { IfOk result (λ links. links.outlines ≡ outlines_of text.now (map (item_of_part tokens.now) parts.now)) }
{
    let summaries = summaries_of(alloc, text, tokens, parts)?;
    let links = link(alloc, &summaries)?;
    Ok(links)
}

/// What each item of a program is.
pub fn kinds_of(
    alloc: Global,
    text: &[u8],
    tokens: &TokenList,
    parts: &[Part],
) -> Result<Vec<ItemKind>, OutOfMemory>
    requires parts { All (IsPart text.now tokens.now) parts.now }
    ensures { IfOk result (λ v. v.items ≡ (linked_of text.now (map (item_of_part tokens.now) parts.now)).kinds) }
{
    let mut kinds = Vec::with_capacity(alloc, parts.len())?;
    for part in parts {
        kinds.push(part.entry.summary.kind)?;
    }
    Ok(kinds)
}
