//! What an edit inside one item makes of the links: the links and what is kept of the items come
//! in, with what is kept of the one that is made; what is to be put in place goes out. Names mean
//! what they meant, and the item may be of another kind.
#![tactic(auto)]

ghost use Rattle.std.specs.Prelude.{◌≡◌, ◌<◌, IfOk, IfSome, IsTrue, length, slice_set};
ghost use Rattle.snl_scope.specs.Linked.{faults_of};
ghost use Rattle.snl_kept.specs.ItemPlan.{IsWas, kinds_kept};
ghost use Rattle.snl_kept.specs.Kept.{IsListed};
ghost use Rattle.snl_kept.specs.OwnLinks.{AreOwnLinks};

use crate::entries::Entry;
use crate::lists::Lists;
use crate::plan::{NewKinds, NewLinks};
use crate::shared::Shared;
use crate::ways::one_item::alike::is_same_kind;
use crate::ways::one_item::replaced::OldItem;
use snl_cut::OutOfMemory;
use snl_grammar::{outcome_told, same_spelling_same_tree};
use snl_lists::Ordered;
use snl_scope::{ItemKind, LinkFault, Links, same_spelling_same_summary};
use std::alloc::Global;

// What each item is, as it is kept.
fn kinds_kept(alloc: Global, entries: &Ordered<Shared<Entry>>) -> Result<Vec<ItemKind>, OutOfMemory>
    ensures { IfOk result (λ v. v.items ≡ kinds_kept entries.now.values) }
{
    let mut kinds = Vec::with_capacity(alloc, entries.len())?;
    for number in 0..entries.len() {
        if let Some(entry) = entries.get(number) {
            kinds.push(entry.get().summary.kind)?;
        }
    }
    Ok(kinds)
}

// The same, where one item is of another kind.
fn with_kind(
    alloc: Global,
    entries: &Ordered<Shared<Entry>>,
    item: usize,
    kind: ItemKind,
) -> Result<Vec<ItemKind>, OutOfMemory>
    ensures { IfOk result (λ v. v.items ≡ slice_set (kinds_kept entries.now.values) item kind) }
{
    let mut kinds = kinds_kept(alloc, entries)?;
    if item < kinds.len() {
        kinds[item] = kind;
    }
    Ok(kinds)
}

fn is_same_fault(one: &LinkFault, other: &LinkFault) -> bool
    ensures { IsTrue result → one.now ≡ other.now }
{
    one.item == other.item && one.token == other.token && one.code == other.code
}

// Whether the same is found, in the same order.
fn same_faults(ones: &[LinkFault], others: &[LinkFault]) -> bool
    ensures { IsTrue result → ones.now ≡ others.now }
{
    if ones.len() != others.len() {
        return false;
    }
    for (number, one) in ones.iter().enumerate() {
        if !is_same_fault(one, &others[number]) {
            return false;
        }
    }
    true
}

// Other kinds of the items, if the links find the same by them.
fn kinds_if_same(
    alloc: Global,
    links: &Links,
    kinds: Vec<ItemKind>,
) -> Result<Option<NewKinds>, OutOfMemory>
    requires { length kinds.items ≡ length links.now.outlines }
    ensures kinds { IfOk result (λ o. IfSome o (λ n. n.kinds.items ≡ kinds.items)) }
    ensures faults { IfOk result (λ o. IfSome o (λ n. n.faults.items ≡ faults_of (record { outlines = links.now.outlines; kinds = kinds.items }))) }
    ensures same { IfOk result (λ o. IfSome o (λ n. n.faults.items ≡ faults_of links.now)) }
{
    let faults = links.order_faults_for(alloc, &kinds)?;
    if same_faults(&faults, links.faults()) {
        Ok(Some(NewKinds { kinds, faults }))
    } else {
        Ok(None)
    }
}

/// What becomes of the links, if they find what they found: they stay where the item that is made
/// is of the kind of the one in the place of which it is.
pub fn own_links(
    alloc: Global,
    lists: &Lists,
    text: &[u8],
    item: usize,
    was: OldItem,
    made: &Entry,
) -> Result<Option<NewLinks>, OutOfMemory>
    requires lists { IsListed text.now lists.now }
    requires was { IsWas text.now item was }
    ensures { IfOk result (λ o. IfSome o (AreOwnLinks lists.now.links item made.now.summary.kind)) }
{
    outcome_told();
    same_spelling_same_tree();
    same_spelling_same_summary();
    let kind = made.summary.kind;
    if is_same_kind(kind, was.entry.summary.kind) {
        return Ok(Some(NewLinks::Same));
    }
    let kinds = with_kind(alloc, &lists.entries, item, kind)?;
    match kinds_if_same(alloc, &lists.links, kinds)? {
        Some(new) => Ok(Some(NewLinks::Kinds(new))),
        None => Ok(None),
    }
}
