//! The items of a text and their links come in; what is found in each item by itself goes out.

ghost use Rattle.std.specs.Prelude.{◌≡◌, All, IfOk, map};
ghost use Rattle.snl_reading.specs.ItemsRead.{ReadFrom, item_read, items_read};
ghost use Rattle.snl_item_check.specs.Told.{told_in_item, told_kept};

use crate::items::ReadItem;
use snl_cut::{Count, OutOfMemory};
use snl_item_check::{Checked, check_item};
use snl_scope::Links;
use std::alloc::Global;

// The check of an item that has this number among the linked ones. A faulty one isn't checked.
fn check_of(
    alloc: Global,
    text: &[u8],
    item: &ReadItem,
    links: &Links,
    number: usize,
    work: &mut Count,
) -> Result<Option<Checked>, OutOfMemory>
    requires { ReadFrom text.now item.now }
    ensures { IfOk result (λ checked. told_kept checked ≡ told_in_item text.now (item_read item.now)) }
{
    let Some(tree) = item.tree else {
        return Ok(None);
    };
    let checked = check_item(alloc, text, item.tokens, tree, links, number, work)?;
    Ok(Some(checked))
}

/// The checks of items.
pub fn checks_of(
    alloc: Global,
    text: &[u8],
    items: &[ReadItem],
    links: &Links,
) -> Result<Vec<Option<Checked>>, OutOfMemory>
    requires { All (ReadFrom text.now) items.now }
    ensures { IfOk result (λ checks. map told_kept checks.items ≡ map (told_in_item text.now) (items_read items.now)) }
{
    let mut work = Count::new();
    let mut checks = Vec::new(alloc);
    for (number, item) in items.iter().enumerate() {
        let checked = check_of(alloc, text, item, links, number, &mut work)?;
        checks.push(checked)?;
    }
    Ok(checks)
}
