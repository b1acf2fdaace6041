//! An item of a text, with what is kept of it. In: what is kept of the text, and the number of the
//! item. Out: its tokens, what names mean there, its tree and its outline.

ghost use Rattle.std.specs.Prelude.{◌≡◌, MatchOption, None, slice_get};
ghost use Rattle.snl_kept.specs.Kept.{IsListed};
ghost use Rattle.snl_kept.specs.Program.{item_tokens};
ghost use Rattle.snl_questions.specs.KeptItems.{IsItem};

use crate::meanings::names::LinkedItem;
use crate::meanings::text_items::TextItems;
use snl_grammar::tree::item::Item;
use snl_grammar::{outcome_told, same_spelling_same_tree};
use snl_kept::Lists;
use snl_lex::text_in_pieces;
use snl_scope::{Outline, Source, same_spelling_same_summary};
use std::alloc::Global;

/// An item with what is kept of it. A faulty item has no tree.
#[derive(Clone, Copy)]
pub struct KeptItem<'a> {
    pub source: Source<'a>,
    pub linked: LinkedItem<'a>,
    pub tree: Option<&'a Item>,
    pub outline: &'a Outline,
}

/// The item with a number, if there are as many.
pub fn kept_item<'a>(
    alloc: Global,
    lists: &'a Lists,
    items: &TextItems<'a>,
    number: usize,
) -> Option<KeptItem<'a>>
    requires { IsListed items.now.text.now lists.now }
    ensures { MatchOption result (slice_get (item_tokens items.now.text.now) number ≡ None)
        (IsItem items.now.text.now number) }
{
    text_in_pieces();
    outcome_told();
    same_spelling_same_tree();
    same_spelling_same_summary();
    let Some(tokens) = items.tokens_of(number) else {
        return None;
    };
    let Some(entry) = lists.entries.get(number) else {
        return None;
    };
    let entry = entry.get();
    let tree = entry.parsed.tree();
    Some(KeptItem {
        source: Source {
            text: items.text,
            tokens,
            alloc,
        },
        linked: LinkedItem {
            links: &lists.links,
            item: number,
        },
        tree,
        outline: &entry.summary.outline,
    })
}
