//! The outlines of all items, in flat lists.

ghost use Rattle.std.specs.Prelude.{◌≡◌, ◌+◌, ◌<◌, ◌≤◌, IfOk, IsTrue, Some, bytes_eq, drop, length, map, position, slice_get, take};
ghost use Rattle.snl_names.specs.NameBook.{AllDiffer};
ghost use Rattle.snl_scope.specs.OutlineList.{AreFlat, IsAt, IsNumbered, outline_of, outlines_by};
ghost use Rattle.snl_scope.specs.NameTables.{head_of};

use crate::items::heads::Head;
use crate::outlines::cursor::{Cursor, ToldOutline};
use crate::outlines::flat::{FlatClause, FlatDeclared, FlatOutline};
use snl_cut::OutOfMemory;
use snl_names::NameBook;
use std::alloc::Global;
use std::marker::Model;

/// The outlines of items, with the book of their names, which may have others too. Contracts see
/// both lists.
pub(crate) struct OutlineList {
    pub names: NameBook,
    pub heads: Vec<FlatOutline>,
    pub declares: Vec<FlatDeclared>,
    pub clauses: Vec<FlatClause>,
}

// By hand, so that whoever holds outlines need not know how they are held to let them go.
impl Drop for OutlineList {
    fn drop(self) {
        let OutlineList {
            names: _,
            heads: _,
            declares: _,
            clauses: _,
        } = self;
    }
}

impl Model for OutlineList {
    ghost use Rattle.snl_scope.specs.OutlineList.{AreFlat, NamedOutlines, outlines_by};

    ghost Value = { NamedOutlines };

    ghost view = { λ a. record {
      names = a.names;
      outlines = outlines_by a.names a.heads.items a.declares.items a.clauses.items;
    } };

    ghost invariant = { λ a. AreFlat a.names a.heads.items a.declares.items a.clauses.items };
}

// So many elements from a place on.
fn part<T: Copy>(list: &[T], start: usize, count: usize) -> &[T]
    requires { start + count ≤ length list.now }
    ensures { result.now ≡ take count (drop start list.now) }
{
    &list[start..start + count]
}

impl OutlineList {
    /// How many items there are.
    pub(crate) fn count(&self) -> usize
        ensures { result ≡ length self.now.outlines }
    {
        self.heads.len()
    }

    /// What the outline of an item says of the order of items.
    pub(crate) fn head(&self, item: usize) -> Head
        requires { item < length self.now.outlines }
        ensures { slice_get (map head_of self.now.outlines) item ≡ Some result }
    {
        let FlatOutline {
            role,
            opening,
            second,
            ..
        } = self.heads[item];
        Head {
            role,
            opening,
            is_named: second.is_some(),
        }
    }

    /// The number of a name in the book.
    pub(crate) fn number(&self, name: &[u8]) -> Option<usize>
        ensures { result ≡ position (bytes_eq name.now) self.now.names }
    {
        self.names.number(name)
    }

    /// How many names the book has.
    pub(crate) fn name_count(&self) -> usize
        ensures { result ≡ length self.now.names }
    {
        self.names.count()
    }

    /// Whether each name of other outlines is in the book, with the number that it has there.
    pub(crate) fn numbers_as(&self, other: &OutlineList) -> bool
        ensures { IsTrue result → take (length other.now.names) self.now.names ≡ other.now.names }
    {
        self.names.begins_with(&other.names)
    }

    /// The outline that a walk is at.
    pub(crate) fn told(&self, at: Cursor) -> ToldOutline<'_>
        requires inside { at.item < length self.now.outlines }
        requires at { IsAt self.now.outlines at }
        ensures outline { slice_get self.now.outlines at.item
            ≡ Some (outline_of self.now.names result) }
        ensures numbered { IsNumbered self.now.names result }
    {
        let head = self.heads[at.item];
        ToldOutline {
            head,
            declares: part(&self.declares, at.declares, head.declares),
            clauses: part(&self.clauses, at.clauses, head.clauses),
        }
    }

    /// The walk after that outline.
    pub(crate) fn next(&self, at: Cursor) -> Cursor
        requires inside { at.item < length self.now.outlines }
        requires at { IsAt self.now.outlines at }
        ensures at { IsAt self.now.outlines result }
        ensures item { result.item ≡ at.item + 1 }
    {
        let head = self.heads[at.item];
        Cursor {
            item: at.item + 1,
            declares: at.declares + head.declares,
            clauses: at.clauses + head.clauses,
        }
    }

    /// All names are different.
    pub(crate) fn differ(&self)
        ensures { AllDiffer self.now.names }
    {
        self.names.differ();
    }

    /// Whether the book has many more names, or bytes of them, than the outlines speak of: names
    /// stay in it when their items go. A name is counted at each place.
    pub(crate) fn has_many_dead_names(&self) -> bool {
        self.may_have_many_dead_names() && self.speaks_of_few_names()
    }

    // Whether the book has many names for the places that speak of one, each of a byte at least:
    // if not, no name has to be looked at.
    fn may_have_many_dead_names(&self) -> bool {
        let places = self.declares.len().saturating_add(self.clauses.len());
        self.names.count() / 2 > places.saturating_add(FEW_NAMES)
            || self.names.byte_count() / 2 > places.saturating_add(FEW_BYTES)
    }

    // Whether the book has many names, or bytes of them, for those that the outlines speak of.
    fn speaks_of_few_names(&self) -> bool {
        let spoken = self.seconds().and(self.declared()).and(self.claimed());
        let (count, bytes) = (self.names.count(), self.names.byte_count());
        count / 2 > spoken.count.saturating_add(FEW_NAMES)
            || bytes / 2 > spoken.bytes.saturating_add(FEW_BYTES)
    }

    // The names that are second tokens.
    fn seconds(&self) -> Spoken {
        let mut spoken = Spoken::none();
        for head in &self.heads {
            if let Some(name) = head.second {
                spoken = spoken.with(self.names.name(name));
            }
        }
        spoken
    }

    // The names of declarations.
    fn declared(&self) -> Spoken {
        let mut spoken = Spoken::none();
        for declared in &self.declares {
            spoken = spoken.with(self.names.name(declared.name));
        }
        spoken
    }

    // The names of variables that clauses are on.
    fn claimed(&self) -> Spoken {
        let mut spoken = Spoken::none();
        for clause in &self.clauses {
            spoken = spoken.with(self.names.name(clause.variable.name));
        }
        spoken
    }
}

// So many dead names, and bytes of them, don't matter.
const FEW_NAMES: usize = 64;

const FEW_BYTES: usize = 4096;

// How many names are spoken of, and how many bytes they have.
#[derive(Clone, Copy)]
struct Spoken {
    count: usize,
    bytes: usize,
}

impl Spoken {
    fn none() -> Spoken {
        Spoken { count: 0, bytes: 0 }
    }

    fn with(self, name: &[u8]) -> Spoken {
        self.and(Spoken {
            count: 1,
            bytes: name.len(),
        })
    }

    fn and(self, more: Spoken) -> Spoken {
        Spoken {
            count: self.count.saturating_add(more.count),
            bytes: self.bytes.saturating_add(more.bytes),
        }
    }
}
