//! Names that `foreign` declares. In: what is kept of a text, and an offset. Out: whether the name
//! near it is one.

ghost use Rattle.snl_kept.specs.Kept.{IsListed};

use snl_cut::OutOfMemory;
use snl_kept::Lists;
use snl_questions::{Meaning, meaning_near};
use snl_scope::{Links, SymbolKind};
use std::alloc::Global;

fn declares_foreign(links: &Links, meaning: Meaning) -> Option<bool> {
    let number = meaning.number?;
    let declaration = links.declared(number)?;
    Some(matches!(declaration.variable.symbol_kind, SymbolKind::Foreign))
}

/// Whether the name near an offset means one that `foreign` declares.
pub fn is_foreign(
    alloc: Global,
    text: &[u8],
    lists: &Lists,
    offset: usize,
) -> Result<bool, OutOfMemory>
    requires { IsListed text.now lists.now }
{
    let Some(meaning) = meaning_near(alloc, text, lists, offset)? else {
        return Ok(false);
    };
    Ok(declares_foreign(&lists.links, meaning).unwrap_or(false))
}
