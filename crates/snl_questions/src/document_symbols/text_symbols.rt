//! The symbols of a text. In: the lists that are kept of it. Out: its symbols, item by item.

ghost use Rattle.std.specs.Prelude.{◌≡◌, ◌<◌, ◌++◌, IfOk, OnOk, length, map};
ghost use Rattle.snl_kept.specs.Kept.{IsListed};
ghost use Rattle.snl_questions.specs.Items.{tokens_by_item};
ghost use Rattle.snl_questions.specs.Symbols.{symbols_at, symbols_of};

use crate::document_symbols::linked_item::LinkedItem;
use crate::document_symbols::symbol::DocumentSymbol;
use crate::tokens::item_tokens::ItemTokens;
use crate::tokens::text_tokens::all_tokens;
use snl_cut::OutOfMemory;
use snl_grammar::{outcome_told, same_spelling_same_tree};
use snl_kept::Lists;
use snl_scope::same_spelling_same_summary;
use std::alloc::Global;

// Adds the symbols of the item with a number.
fn add_item(
    lists: &Lists,
    items: &ItemTokens,
    item: usize,
    symbols: &mut Vec<DocumentSymbol>,
) -> Result<(), OutOfMemory>
    requires outlines { map (λ e. e.summary.outline) lists.now.entries.values
        ≡ lists.now.links.outlines }
    requires as_many { length items.now.ends.now ≡ length lists.now.links.outlines }
    requires inside { item < length items.now.ends.now }
    ensures { OnOk result (symbols.new.items ≡ symbols.old.items
        ++ symbols_at (tokens_by_item items.now) lists.now.links.outlines item) }
{
    let Some(entry) = lists.entries.get(item) else {
        return Ok(());
    };
    let entry = entry.get();
    let linked = LinkedItem {
        items: *items,
        links: &lists.links,
        item,
        outline: &entry.summary.outline,
    };
    linked.add_symbols(symbols)
}

/// The symbols of a text, in its order: the program, state sets, states, and what items
/// declare outside blocks. What belongs to a symbol follows it and is deeper. Parameters,
/// prototypes, structs and options are none. A faulty item declares nothing, but it may be the
/// program or a state. The time is that of the text's tokens.
#[tactic(auto, unfolding(crate::specs::Symbols::symbols_of))]
pub fn symbols(
    alloc: Global,
    text: &[u8],
    lists: &Lists,
) -> Result<Vec<DocumentSymbol>, OutOfMemory>
    requires { IsListed text.now lists.now }
    ensures { IfOk result (λ v. v.items ≡ symbols_of text.now) }
{
    outcome_told();
    same_spelling_same_tree();
    same_spelling_same_summary();
    let tokens = all_tokens(alloc, &lists.pieces)?;
    let items = ItemTokens::of_text(text, &tokens, &lists.items.ends);
    let mut symbols = Vec::new(alloc);
    for item in 0..items.ends.len() {
        add_item(lists, &items, item, &mut symbols)?;
    }
    Ok(symbols)
}
