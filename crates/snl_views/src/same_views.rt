//! Which items are known to see of the others after an edit what they saw before it: what names mean
//! in the program and in each state set is compared once, and not at each use.

ghost use Rattle.std.specs.Prelude.{◌≡◌, ◌<◌, IsTrue, IfOk, List, Some, ℕ, false, get_or, map, true, vec_len};
ghost use Rattle.std.specs.List.{AllByRecursion as Each};
ghost use Rattle.snl_scope.specs.Compared.{ByNames};
ghost use Rattle.snl_scope.specs.View.{view};
ghost use Rattle.snl_scope.specs.declared.names.namespaces.Namespace.{Namespace};
ghost use Rattle.snl_scope.specs.declared.names.namespaces.QualifiedName.{QualifiedName};
ghost use Rattle.snl_summary.specs.declared.summary.Summary.{Summary};
ghost use Rattle.snl_views.specs.SameMeanings.{AreBoth, AreSame, IsPaired, SamePlace, Unmarks, meaning_under, number_after, number_before, paired, same_meaning, same_under, set_in, with_set};

use crate::view::is_same_known;
use snl_cut::OutOfMemory;
use snl_scope::{Compared, Fact, FirstNumbers, Links, Meanings, Namespace, QualifiedName};
use std::alloc::Global;
use std::marker::Model;

/// Which items are kept: those before `front`, and those from `back` on, which have the numbers from
/// `stop` on after the edit.
#[derive(Clone, Copy)]
pub struct Moved {
    pub front: usize,
    pub back: usize,
    pub stop: usize,
}

impl Moved {
    // The number that an item gets, if it is kept.
    fn number_after(self, item: usize) -> usize
        ensures { result ≡ number_after self item }
    {
        if item < self.back {
            item
        } else {
            (item - self.back).wrapping_add(self.stop)
        }
    }

    // The number that an item had, if it is kept.
    fn number_before(self, item: usize) -> usize
        ensures { result ≡ number_before self item }
    {
        if item < self.front {
            item
        } else {
            item.saturating_sub(self.stop).wrapping_add(self.back)
        }
    }
}

// What is known of the first that has a name in a namespace, if there is one.
fn meaning(of: Meanings, namespace: Namespace, name: usize) -> Option<Option<Fact>>
    ensures { result ≡ meaning_under of.entry namespace name }
{
    if name >= of.names {
        return None;
    }
    let number = of.first.number_under(namespace, name)?;
    Some(of.links.known_at(number))
}

fn is_same_meaning(one: Option<Option<Fact>>, other: Option<Option<Fact>>) -> bool
    ensures { result ≡ same_meaning one other }
{
    match (one, other) {
        (None, None) => true,
        (Some(one), Some(other)) => is_same_known(one, other),
        _ => false,
    }
}

// Whether a name means in a namespace before what it means in another one after.
fn means_the_same(both: Compared, before: Namespace, after: Namespace, name: usize) -> bool
    ensures { result ≡ same_under both.entry before after name }
{
    is_same_meaning(
        meaning(both.before, before, name),
        meaning(both.after, after, name),
    )
}

// Whether each name means in the program what it meant.
fn program_means_the_same(both: Compared) -> bool
    ensures { IsTrue result → (n : ℕ) → n < both.entry.after.names
        → same_under both.entry Namespace.Program Namespace.Program n ≡ true }
{
    for name in 0..both.after.names {
        if !means_the_same(both, Namespace::Program, Namespace::Program, name) {
            return false;
        }
    }
    true
}

// The state set that a namespace is of.
fn set_in(namespace: Namespace) -> Option<usize>
    ensures { result ≡ set_in namespace }
{
    match namespace {
        Namespace::StateSet(set) | Namespace::States(set) => Some(set),
        _ => None,
    }
}

// The namespace of another state set that is as this one.
fn with_set(namespace: Namespace, set: usize) -> Namespace
    ensures { result ≡ with_set namespace set }
{
    match namespace {
        Namespace::StateSet(_) => Namespace::StateSet(set),
        Namespace::States(_) => Namespace::States(set),
        other => other,
    }
}

// On which side of an edit a namespace is.
#[derive(Clone, Copy)]
enum Side {
    Before,
    After,
}

// A namespace of a state set before an edit, and the one after it; and the set's number after it.
#[derive(Clone, Copy)]
struct Pair {
    before: Namespace,
    after: Namespace,
    set: usize,
}

// A namespace of a state set, with the one on the other side of the edit.
fn paired(moved: Moved, side: Side, namespace: Namespace) -> Option<Pair>
    ensures { result ≡ paired moved side namespace }
{
    let set = set_in(namespace)?;
    match side {
        Side::Before => {
            let set = moved.number_after(set);
            Some(Pair {
                before: namespace,
                after: with_set(namespace, set),
                set,
            })
        }
        Side::After => Some(Pair {
            before: with_set(namespace, moved.number_before(set)),
            after: namespace,
            set,
        }),
    }
}

// Takes the mark of a number away, if it has one.
fn unmark(marks: &mut Vec<bool>, number: usize)
    ensures gone { get_or marks.new.items number false ≡ false }
    ensures fewer { Unmarks marks.old.items marks.new.items }
{
    if number < marks.len() {
        marks[number] = false;
    }
}

// Takes the mark of a key's state set away, if the name doesn't mean in it what it meant.
fn unmark_if_changed(
    both: Compared,
    moved: Moved,
    side: Side,
    key: QualifiedName,
    marks: &mut Vec<bool>,
)
    ensures fewer { Unmarks marks.old.items marks.new.items }
    ensures same { IsPaired both.entry moved side marks.new.items key }
{
    if let Some(pair) = paired(moved, side, key.namespace) {
        if !means_the_same(both, pair.before, pair.after, key.name) {
            unmark(marks, pair.set);
        }
    }
}

// Takes the marks of state sets away in which one of the names doesn't mean what it meant.
fn unmark_changed(
    both: Compared,
    moved: Moved,
    side: Side,
    first: &FirstNumbers,
    marks: &mut Vec<bool>,
)
    ensures fewer { Unmarks marks.old.items marks.new.items }
    ensures same { Each (IsPaired both.entry moved side marks.new.items)
        (map (λ e. e.0) first.now.elsewhere) }
{
    for key in first.keys_elsewhere() {
        unmark_if_changed(both, moved, side, *key, marks);
    }
}

// Tells what means the same after an edit, by names whose numbers stay: of the program, and of the
// state sets that keep their marks.
fn compare_names(both: Compared, moved: Moved, marks: &mut Vec<bool>) -> bool
    ensures { (before after : List (List ℕ)) → ByNames both.entry before after
        → AreSame both.entry.before.links.now.outlines both.entry.after.links.now.outlines moved
        marks.new.items result }
{
    if !program_means_the_same(both) {
        marks.clear();
        return false;
    }
    unmark_changed(both, moved, Side::Before, both.before.first, marks);
    unmark_changed(both, moved, Side::After, both.after.first, marks);
    true
}

// Tells what means the same after an edit. Where the old names don't keep their numbers, nothing is
// known.
fn compare(before: &Links, after: &Links, moved: Moved, marks: &mut Vec<bool>) -> bool
    ensures { AreSame before.now.outlines after.now.outlines moved marks.new.items result }
{
    match Compared::of(before, after) {
        Some(both) => compare_names(both, moved, marks),
        None => {
            marks.clear();
            false
        }
    }
}

/// What means the same after an edit that made links anew. Contracts see the outlines before it and
/// after it.
#[derive(Drop)]
pub struct SameViews<'a> {
    before: &'a Links,
    after: &'a Links,
    moved: Moved,
    is_same_program: bool,
    // by the number of the item that begins a state set, after the edit
    marks: Vec<bool>,
}

impl<'a> Model for SameViews<'a> {
    ghost use Rattle.snl_views.specs.SameMeanings.{AreBoth, AreSame, BothOutlines};

    ghost Value = { BothOutlines };

    ghost view = { λ a. record {
      before = a.before.now.outlines;
      after = a.after.now.outlines;
    } };

    ghost invariant = { λ a. AreSame a.before.now.outlines a.after.now.outlines a.moved
        a.marks.items a.is_same_program };
}

impl<'a> SameViews<'a> {
    /// Compares what names mean by the old links with what they mean by the new ones. Which items
    /// are kept tells which state sets are compared: no answer depends on its being right.
    pub fn of(
        alloc: Global,
        before: &'a Links,
        after: &'a Links,
        moved: Moved,
    ) -> Result<SameViews<'a>, OutOfMemory>
        ensures { IfOk result (AreBoth before.now.outlines after.now.outlines) }
    {
        let mut marks = Vec::from_elem(alloc, true, after.item_count())?;
        let is_same_program = compare(before, after, moved, &mut marks);
        Ok(SameViews {
            before,
            after,
            moved,
            is_same_program,
            marks,
        })
    }

    // Whether what is in one state set, or outside all, is known to see what was in another one.
    fn is_known_place(&self, before: Option<usize>, after: Option<usize>) -> bool
        ensures { IsTrue result → SamePlace self.now.before before self.now.after after }
    {
        match (before, after) {
            (None, None) => true,
            (Some(old), Some(new)) => {
                self.moved.number_after(old) == new
                    && self.moved.number_before(new) == old
                    && self.marks.get(new) == Some(&true)
            }
            _ => false,
        }
    }

    /// Whether an item is known to see what it saw, whatever it uses. `item_before` is the number
    /// that it had.
    pub fn is_known(&self, item_before: usize, item: usize) -> bool
        ensures { IsTrue result → (s : Summary)
            → view self.now.before item_before s ≡ view self.now.after item s }
    {
        if !self.is_same_program {
            return false;
        }
        if item_before >= self.before.item_count() || item >= self.after.item_count() {
            return false;
        }
        self.is_known_place(
            self.before.enclosing_set(item_before),
            self.after.enclosing_set(item),
        )
    }
}
