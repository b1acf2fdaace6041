//! Tokens come in, with where items end among them; the items go out, each with its tree. A faulty
//! item has none.

ghost use Rattle.std.specs.Prelude.{◌≡◌, ℕ, All, IfOk, List, length};
ghost use Rattle.snl_item_check.specs.Items.{EndsWithin, program_items};
ghost use Rattle.snl_lex.specs.Pieces.{LiesIn, tokens_of};
ghost use Rattle.snl_reading.specs.ItemsRead.{AreItems, ReadFrom, items_read};

use snl_cut::{Count, OutOfMemory};
use snl_grammar::tree::item::Item;
use snl_lex::{Piece, text_in_pieces};
use snl_syntax::{ParseFault, parse_item};
use std::alloc::Global;

/// An item of a text: its tokens, and its tree, which a faulty one has not.
#[derive(Clone, Copy)]
pub struct ReadItem<'a> {
    pub tokens: &'a [Piece],
    pub tree: Option<&'a Item>,
}

/// The tree of the item that consists of these tokens. A faulty one has none.
pub fn tree_of(
    alloc: Global,
    text: &[u8],
    tokens: &[Piece],
    work: &mut Count,
) -> Result<Option<Item>, OutOfMemory>
    requires { All (LiesIn text.now) tokens.now }
{
    if tokens.is_empty() {
        return Ok(None);
    }
    match parse_item(alloc, text, tokens, work) {
        Ok(tree) => Ok(Some(tree)),
        Err(ParseFault::OutOfMemory) => Err(OutOfMemory),
        Err(_) => Ok(None),
    }
}

/// The trees of the items that end at these tokens.
pub fn trees_of(
    alloc: Global,
    text: &[u8],
    tokens: &[Piece],
    ends: &[usize],
) -> Result<Vec<Option<Item>>, OutOfMemory>
    requires { All (LiesIn text.now) tokens.now }
    ensures { IfOk result (λ trees. length trees.items ≡ length ends.now) }
{
    let mut work = Count::new();
    let mut trees = Vec::new(alloc);
    let mut start = 0;
    for end in ends {
        let own = tokens.get(start..*end).unwrap_or(&[]);
        trees.push(tree_of(alloc, text, own, &mut work)?)?;
        start = *end;
    }
    Ok(trees)
}

/// The items that end at these tokens and have these trees.
pub fn items_of<'a>(
    alloc: Global,
    tokens: &'a [Piece],
    ends: &[usize],
    trees: &'a [Option<Item>],
) -> Result<Vec<ReadItem<'a>>, OutOfMemory>
    requires within { EndsWithin 0 ends.now (length tokens.now) }
    requires each { length trees.now ≡ length ends.now }
    ensures along { IfOk result (λ items. items_read items.items ≡ program_items tokens.now ends.now trees.now) }
    ensures items { IfOk result (λ items. (text : List ℕ) → tokens.now ≡ tokens_of text → AreItems text ends.now (items_read items.items)) }
    ensures inside { IfOk result (λ items. (text : List ℕ) → All (LiesIn text) tokens.now → All (ReadFrom text) items.items) }
{
    text_in_pieces();
    let mut items = Vec::new(alloc);
    let mut start = 0;
    for (number, end) in ends.iter().enumerate() {
        items.push(ReadItem {
            tokens: &tokens[start..*end],
            tree: trees[number].as_ref(),
        })?;
        start = *end;
    }
    Ok(items)
}
