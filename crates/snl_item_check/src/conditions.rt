//! The conditions of a state: its uses of names before an edit and its tree after it come in,
//! whether they say the same goes out.

ghost use Rattle.std.specs.Prelude.{◌≡◌, ◌↔◌, IfOk, IsTrue, map, option_copied};
ghost use Rattle.snl_walk.specs.Tokens.{IsSource, token_bytes};
ghost use Rattle.snl_item_check.specs.Told.{told_in_item, used_by, wakes_of};

use snl_cut::OutOfMemory;
use snl_facts::are_same_bytes;
use snl_grammar::tree::item::Item;
use snl_lex::Piece;
use snl_walk::{Source, WakeUse, occurrences, wake_uses};
use std::alloc::Global;

// The uses of names in the conditions of an item. A faulty one has none.
fn uses_in(source: &Source, tree: Option<&Item>) -> Result<Vec<WakeUse>, OutOfMemory>
    requires { IsSource source.now.text.now source.now.tokens.now }
    ensures { IfOk result (λ v. v.items
        ≡ (told_in_item source.now.text.now
        (record { tokens = source.now.tokens.now; tree = option_copied tree.entry })).wake_uses) }
{
    match tree {
        Some(tree) => wake_uses(source, &occurrences(source, tree)?),
        None => Ok(Vec::new(source.alloc)),
    }
}

// Whether two uses, each in an item of its own, are of one name with one subscript.
fn same_use(other: &Source, use_there: WakeUse, own: &Source, used: WakeUse) -> bool
    requires other { IsSource other.now.text.now other.now.tokens.now }
    requires own { IsSource own.now.text.now own.now.tokens.now }
    ensures { IsTrue result ↔
        (used_by (token_bytes own.now.text.now own.now.tokens.now) used
        ≡ used_by (token_bytes other.now.text.now other.now.tokens.now) use_there) }
{
    are_same_bytes(own.bytes(used.token), other.bytes(use_there.token))
        && used.subscript == use_there.subscript
}

fn same_uses(other: &Source, uses_there: &[WakeUse], own: &Source, uses: &[WakeUse]) -> bool
    requires other { IsSource other.now.text.now other.now.tokens.now }
    requires own { IsSource own.now.text.now own.now.tokens.now }
    ensures { IsTrue result ↔
        (map (used_by (token_bytes own.now.text.now own.now.tokens.now)) uses.now
        ≡ map (used_by (token_bytes other.now.text.now other.now.tokens.now)) uses_there.now) }
{
    if uses.len() != uses_there.len() {
        return false;
    }
    for (number, used) in uses.iter().enumerate() {
        if !same_use(other, uses_there[number], own, *used) {
            return false;
        }
    }
    true
}

/// Whether the conditions of an item use the names that another item used, each with the subscript
/// that it had. `uses` are those of the other's conditions, as its check told them. A faulty item
/// has no tree.
pub fn wakes_alike(
    alloc: Global,
    old: &[u8],
    old_tokens: &[Piece],
    uses: &[WakeUse],
    text: &[u8],
    tokens: &[Piece],
    tree: Option<&Item>,
) -> Result<bool, OutOfMemory>
    requires old { IsSource old.now old_tokens.now }
    requires source { IsSource text.now tokens.now }
    ensures { IfOk result (λ alike. IsTrue alike
        ↔ (wakes_of text.now (record { tokens = tokens.now; tree = option_copied tree.entry })
        ≡ map (used_by (token_bytes old.now old_tokens.now)) uses.now)) }
{
    let other = Source {
        text: old,
        tokens: old_tokens,
        alloc,
    };
    let own = Source {
        text,
        tokens,
        alloc,
    };
    let own_uses = uses_in(&own, tree)?;
    Ok(same_uses(&other, uses, &own, &own_uses))
}
