//! The items of a text, their links and their checks come in; the tables of the text go out.

ghost use Rattle.std.specs.Prelude.{◌≡◌, All, IfOk, length, map, option_copied};
ghost use Rattle.snl_item_check.specs.Items.{EndsWithin, outlines_of};
ghost use Rattle.snl_check.specs.Tables.{tables_of};
ghost use Rattle.snl_item_check.specs.Told.{told_in_item, told_kept, told_seen};
ghost use Rattle.snl_lex.specs.Pieces.{LiesIn, pieces_of, tokens_of};
ghost use Rattle.snl_reading.specs.ItemsRead.{AreItems, ReadFrom, items_read, trees_of_items};

use crate::checking::checks_of;
use crate::cutting::{item_ends_of, pieces_of, tokens_of};
use crate::items::{ReadItem, items_of, trees_of};
use crate::linking::links_among;
use snl_check::{Tables, tables};
use snl_cut::OutOfMemory;
use snl_grammar::tree::item::Item;
use snl_item_check::Checked;
use snl_lex::Piece;
use snl_scope::Links;
use std::alloc::Global;

/// The trees of items. A faulty one has none.
pub fn trees_among<'a>(
    alloc: Global,
    items: &[ReadItem<'a>],
) -> Result<Vec<Option<&'a Item>>, OutOfMemory>
    ensures { IfOk result (λ trees. map option_copied trees.items ≡ trees_of_items (items_read items.now)) }
{
    let mut trees = Vec::new(alloc);
    for item in items {
        trees.push(item.tree)?;
    }
    Ok(trees)
}

/// The checks, borrowed.
pub fn borrowed_checks(
    alloc: Global,
    checks: &[Option<Checked>],
) -> Result<Vec<Option<&Checked>>, OutOfMemory>
    ensures { IfOk result (λ borrowed. map told_seen borrowed.items ≡ map told_kept checks.now) }
{
    let mut borrowed = Vec::new(alloc);
    for checked in checks {
        borrowed.push(checked.as_ref())?;
    }
    Ok(borrowed)
}

/// The tables of a text, by its pieces, and by its items, which end at these tokens, their links
/// and their checks.
pub fn tables_of(
    alloc: Global,
    text: &[u8],
    pieces: &[Piece],
    ends: &[usize],
    items: &[ReadItem],
    links: &Links,
    checks: &[Option<Checked>],
) -> Result<Tables, OutOfMemory>
    requires pieces { pieces.now ≡ pieces_of text.now }
    requires items { AreItems text.now ends.now (items_read items.now) }
    requires links { links.now.outlines ≡ outlines_of text.now (items_read items.now) }
    requires checks { map told_kept checks.now ≡ map (told_in_item text.now) (items_read items.now) }
    ensures { IfOk result (λ t. t ≡ tables_of text.now (items_read items.now)) }
{
    let trees = trees_among(alloc, items)?;
    let checks = borrowed_checks(alloc, checks)?;
    let tables = tables(alloc, text, pieces, ends, &trees, links, &checks)?;
    Ok(tables)
}

// The tables of a text that has these items, and links among them.
fn tables_by_links(
    alloc: Global,
    text: &[u8],
    pieces: &[Piece],
    ends: &[usize],
    items: &[ReadItem],
    links: &Links,
) -> Result<Tables, OutOfMemory>
    requires pieces { pieces.now ≡ pieces_of text.now }
    requires items { AreItems text.now ends.now (items_read items.now) }
    requires inside { All (ReadFrom text.now) items.now }
    requires links { links.now.outlines ≡ outlines_of text.now (items_read items.now) }
    ensures { IfOk result (λ t. t ≡ tables_of text.now (items_read items.now)) }
{
    let checks = checks_of(alloc, text, items, links)?;
    tables_of(alloc, text, pieces, ends, items, links, &checks)
}

// The tables of a text that has these items.
fn tables_by_items(
    alloc: Global,
    text: &[u8],
    pieces: &[Piece],
    ends: &[usize],
    items: &[ReadItem],
) -> Result<Tables, OutOfMemory>
    requires pieces { pieces.now ≡ pieces_of text.now }
    requires items { AreItems text.now ends.now (items_read items.now) }
    requires inside { All (ReadFrom text.now) items.now }
    ensures { IfOk result (λ t. t ≡ tables_of text.now (items_read items.now)) }
{
    let links = links_among(alloc, text, items)?;
    tables_by_links(alloc, text, pieces, ends, items, &links)
}

// The tables of a text that has these tokens, and items that end at these of them.
fn tables_by_ends(
    alloc: Global,
    text: &[u8],
    pieces: &[Piece],
    tokens: &[Piece],
    ends: &[usize],
) -> Result<Tables, OutOfMemory>
    requires pieces { pieces.now ≡ pieces_of text.now }
    requires tokens { tokens.now ≡ tokens_of text.now }
    requires inside { All (LiesIn text.now) tokens.now }
    requires ends { EndsWithin 0 ends.now (length tokens.now) }
{
    let trees = trees_of(alloc, text, tokens, ends)?;
    let items = items_of(alloc, tokens, ends, &trees)?;
    tables_by_items(alloc, text, pieces, ends, &items)
}

/// The tables of a text, read from its bytes.
pub fn tables_in(alloc: Global, text: &[u8]) -> Result<Tables, OutOfMemory> {
    let pieces = pieces_of(alloc, text)?;
    let tokens = tokens_of(alloc, text)?;
    let ends = item_ends_of(alloc, text, &tokens)?;
    tables_by_ends(alloc, text, &pieces, &tokens, &ends)
}
