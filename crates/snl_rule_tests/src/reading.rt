//! What the tests share to read a text: its summaries and its links.

use snl_cut::Count;
use snl_reading::{item_ends_of, links_of, summaries_along, tokens_of, tree_of};
use snl_scope::{Links, Summary, summary_of};
use std::alloc::Global;
use std::test::Fail;

/// The summaries of the items of a text.
pub fn summaries(alloc: Global, text: &[u8]) -> Result<Vec<Summary>, Fail> {
    let tokens = tokens_of(alloc, text)?;
    let ends = item_ends_of(alloc, text, &tokens)?;
    Ok(summaries_along(alloc, text, &tokens, &ends)?)
}

/// The links of the items of a text.
pub fn links(alloc: Global, text: &[u8]) -> Result<Links, Fail> {
    let summaries = summaries(alloc, text)?;
    Ok(links_of(alloc, &summaries)?)
}

/// The summary of a text that is taken as one item, also where it isn't one.
pub fn summary(alloc: Global, text: &[u8]) -> Result<Summary, Fail> {
    let tokens = tokens_of(alloc, text)?;
    let tree = tree_of(alloc, text, &tokens, &mut Count::new())?;
    Ok(summary_of(alloc, text, &tokens, tree.as_ref())?)
}
