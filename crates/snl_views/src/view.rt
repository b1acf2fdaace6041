//! Whether an item sees of the others by some links what it sees by other ones. It is asked after
//! an edit that made links anew, of the items that were kept, and takes no memory.

ghost use Rattle.std.specs.Prelude.{◌≡◌, ◌↔◌, IsTrue, List, ℕ};
ghost use Rattle.std.specs.List.{list_all};
ghost use Rattle.snl_scope.specs.Linked.{fact_of, has_target};
ghost use Rattle.snl_summary.specs.declared.summary.Outline.{Outline};
ghost use Rattle.snl_summary.specs.declared.summary.Summary.{Summary};
ghost use Rattle.snl_scope.specs.View.{view};
ghost use Rattle.snl_views.specs.SameView.{same_assigned, same_name_kind, same_bool, same_dims, same_facts, same_known, same_level, same_view};

use snl_scope::{Assigned, Dims, Fact, Level, Links, Name, NameKind, NameRef, Summary};

fn is_same(one: bool, other: bool) -> bool
    ensures { result ≡ same_bool one other }
{
    if one { other } else { !other }
}

fn is_same_dims(one: Dims, other: Dims) -> bool
    ensures { result ≡ same_dims one other }
{
    match (one, other) {
        (Dims::Plain, Dims::Plain) | (Dims::Unknown, Dims::Unknown) => true,
        (Dims::Known(one), Dims::Known(other)) => one == other,
        _ => false,
    }
}

fn is_same_level(one: Level, other: Level) -> bool
    ensures { result ≡ same_level one other }
{
    match one {
        Level::Program => matches!(other, Level::Program),
        Level::StateSet => matches!(other, Level::StateSet),
    }
}

fn is_same_name_kind(one: NameKind, other: NameKind) -> bool
    ensures { result ≡ same_name_kind one other }
{
    match one {
        NameKind::EventFlag => matches!(other, NameKind::EventFlag),
        NameKind::Foreign => matches!(other, NameKind::Foreign),
        NameKind::Function => matches!(other, NameKind::Function),
        NameKind::Other => matches!(other, NameKind::Other),
    }
}

fn is_same_assigned(one: Assigned, other: Assigned) -> bool
    ensures { result ≡ same_assigned one other }
{
    match one {
        Assigned::Unassigned => matches!(other, Assigned::Unassigned),
        Assigned::Whole => matches!(other, Assigned::Whole),
        Assigned::Elements => matches!(other, Assigned::Elements),
    }
}

fn is_same_fact(one: Fact, other: Fact) -> bool
    ensures { result ≡ same_facts one other }
{
    is_same_dims(one.dims, other.dims)
        && is_same_level(one.level, other.level)
        && is_same_name_kind(one.kind, other.kind)
        && is_same_assigned(one.assigned, other.assigned)
}

pub(crate) fn is_same_known(one: Option<Fact>, other: Option<Fact>) -> bool
    ensures { result ≡ same_known one other }
{
    match (one, other) {
        (None, None) => true,
        (Some(one), Some(other)) => is_same_fact(one, other),
        _ => false,
    }
}

// An item, and the links by which it sees the others.
#[derive(Clone, Copy)]
struct Viewpoint<'a> {
    links: &'a Links,
    item: usize,
}

fn knows_the_same(old: Viewpoint, new: Viewpoint, names: &[Name]) -> bool
    ensures { result
        ≡ list_all (λ name. same_known
        (fact_of old.entry.links.now.outlines old.entry.item name)
        (fact_of new.entry.links.now.outlines new.entry.item name)) names.now }
{
    names.iter().all(|name| {
        let before = old.links.fact(old.item, name.bytes());
        let after = new.links.fact(new.item, name.bytes());
        is_same_known(before, after)
    })
}

fn leads_to_the_same(old: Viewpoint, new: Viewpoint, targets: &[NameRef]) -> bool
    ensures { result
        ≡ list_all (λ t. same_bool
        (has_target old.entry.links.now.outlines old.entry.item t.name)
        (has_target new.entry.links.now.outlines new.entry.item t.name)) targets.now }
{
    targets.iter().all(|target| {
        let before = old.links.has_target(old.item, target.name.bytes());
        let after = new.links.has_target(new.item, target.name.bytes());
        is_same(before, after)
    })
}

fn sees_the_same(old: Viewpoint, new: Viewpoint, summary: &Summary) -> bool
    ensures { result
        ≡ same_view old.entry.links.now.outlines old.entry.item
        new.entry.links.now.outlines new.entry.item summary.now }
{
    is_same(
        old.links.enclosing_set(old.item).is_some(),
        new.links.enclosing_set(new.item).is_some(),
    ) && knows_the_same(old, new, summary.uses.as_slice())
        && leads_to_the_same(old, new, summary.targets.as_slice())
}

/// Whether an item sees of the others by the old links, where it has the number `old_item`, what it
/// sees by the new ones, where it has the number `new_item`. The summary is the item's, the same in
/// both.
pub fn same_view(
    old: &Links,
    old_item: usize,
    new: &Links,
    new_item: usize,
    summary: &Summary,
) -> bool
    ensures told { result
        ≡ same_view old.now.outlines old_item new.now.outlines new_item summary.now }
    ensures equal { IsTrue result
        ↔ (view old.now.outlines old_item summary.now
        ≡ view new.now.outlines new_item summary.now) }
{
    let before = Viewpoint {
        links: old,
        item: old_item,
    };
    let after = Viewpoint {
        links: new,
        item: new_item,
    };
    sees_the_same(before, after, summary)
}

/// Views are told to be the same exactly where they are equal. A function here does nothing: its
/// contract is the law.
pub fn views_told_apart()
    ensures { (ss : List Outline) (i : ℕ) (ts : List Outline) (j : ℕ) (s : Summary)
        → IsTrue (same_view ss i ts j s) ↔ (view ss i s ≡ view ts j s) }
{}
