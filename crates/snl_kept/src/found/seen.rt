//! The trees of the items of a text: the parts of the text come in, and what each item is; a list
//! goes out. What is kept of an item may be far away in memory: its kind says whether it has a
//! tree, so nobody looks there for that.
#![tactic(auto)]

ghost use Rattle.std.specs.Prelude.{◌≡◌, IfOk, Some, is_some, map, option_copied, true};
ghost use Rattle.snl_grammar.specs.Outcome.{sound_tree};
ghost use Rattle.snl_scope.specs.Order.{is_faulty};
ghost use Rattle.snl_kept.specs.Parts.{AreSeen, kind_of_part, tree_of_part};

use crate::found::program::Part;
use snl_cut::OutOfMemory;
use snl_grammar::Parsed;
use snl_grammar::tree::item::Item;
use snl_scope::ItemKind;
use std::alloc::Global;

/// The trees of the items of a text, and what each is. A faulty one has no tree.
#[derive(Drop)]
pub struct SeenItems<'a> {
    pub trees: Vec<Option<&'a Item>>,
    pub kinds: &'a [ItemKind],
}

// The tree of an item that has one: nothing is read to find that out.
fn known_tree(parsed: &Parsed) -> &Item
    requires { is_some (sound_tree parsed.now) ≡ true }
    ensures { sound_tree parsed.now ≡ Some result.now }
{
    match parsed {
        Parsed::Sound(tree) => tree,
        Parsed::BadToken(_) | Parsed::NoItem(_) => unreachable!(),
    }
}

fn is_faulty(kind: ItemKind) -> bool
    ensures { result ≡ is_faulty kind }
{
    matches!(kind, ItemKind::Faulty)
}

// The tree of an item, by its kind.
fn tree_by_kind<'a>(part: &Part<'a>, kind: ItemKind) -> Option<&'a Item>
    requires { kind ≡ kind_of_part part.now }
    ensures { option_copied result ≡ tree_of_part part.now }
{
    if is_faulty(kind) {
        None
    } else {
        Some(known_tree(&part.entry.parsed))
    }
}

/// The trees of items of these kinds.
pub fn seen_items<'a>(
    alloc: Global,
    parts: &[Part<'a>],
    kinds: &'a [ItemKind],
) -> Result<SeenItems<'a>, OutOfMemory>
    requires { kinds.now ≡ map kind_of_part parts.now }
    ensures { IfOk result (AreSeen parts.now) }
{
    let mut trees = Vec::with_capacity(alloc, parts.len())?;
    for (number, part) in parts.iter().enumerate() {
        trees.push(tree_by_kind(part, kinds[number]))?;
    }
    Ok(SeenItems { trees, kinds })
}
