//! What the names in clauses resolve to: the tables of all items come in, each clause goes out with
//! the numbers of its variable and its flag.

ghost use Rattle.std.specs.Prelude.{◌≡◌, ◌++◌, ◌<◌, IfOk, IfSome, List, Option, OnOk, length, map, option_and_then};
ghost use Rattle.std.specs.List.{AllByRecursion as Each};
ghost use Rattle.snl_scope.specs.Clauses.{clauses_of, linked_clause, resolve_in};
ghost use Rattle.snl_scope.specs.NameTables.{Tabled, TellsInner};
ghost use Rattle.snl_scope.specs.Names.{entries};
ghost use Rattle.snl_scope.specs.OutlineList.{IsClauseNumbered, clause_by, name_at};
ghost use Rattle.snl_scope.specs.Places as Places;
ghost use Rattle.snl_scope.specs.Resolved.{linked};
ghost use Rattle.snl_scope.specs.declared.names.name_tables.Symbol.{Symbol};
ghost use Rattle.snl_summary.specs.declared.summary.Outline.{Outline};

use crate::names::first_numbers::FirstNumbers;
use crate::names::scopes::Scopes;
use crate::outlines::cursor::Cursor;
use crate::outlines::flat::{FlatClause, FlatRef};
use crate::outlines::outline_list::OutlineList;
use snl_cut::OutOfMemory;
use std::alloc::Global;

/// A clause of an item, with the numbers of what its variable and its flag resolve to, and the book
/// of its names.
#[derive(Clone, Copy)]
pub(crate) struct Resolved<'a> {
    pub outlines: &'a OutlineList,
    pub item: usize,
    pub clause: FlatClause,
    pub variable: Option<usize>,
    pub flag: Option<usize>,
}

/// From where names are resolved: an item, and the state set that it is in.
#[derive(Clone, Copy)]
struct Place<'a> {
    outlines: &'a OutlineList,
    first: &'a FirstNumbers,
    item: usize,
    enclosing_set: Option<usize>,
}

impl<'a> Place<'a> {
    // What the name with a number resolves to.
    fn resolve(self, name: usize) -> Option<usize>
        requires inner { TellsInner self.first.now }
        requires name { name < length self.outlines.now.names }
        ensures { (ss : List Outline) (symbols : List Symbol)
            → Tabled self.entry.outlines.now.names self.entry.first.now symbols (entries ss)
            → self.entry.enclosing_set ≡ Places.enclosing_set ss self.entry.item
            → result ≡ resolve_in ss self.entry.item (name_at self.entry.outlines.now.names name) }
    {
        self.outlines.differ();
        self.first.nearest_to(self.item, self.enclosing_set, name)
    }

    // What a flag resolves to that a clause names.
    fn resolve_flag(self, flag: Option<FlatRef>) -> Option<usize>
        requires inner { TellsInner self.first.now }
        requires name { IfSome flag (λ m. m.name < length self.outlines.now.names) }
        ensures { (ss : List Outline) (symbols : List Symbol)
            → Tabled self.entry.outlines.now.names self.entry.first.now symbols (entries ss)
            → self.entry.enclosing_set ≡ Places.enclosing_set ss self.entry.item
            → result ≡ option_and_then
            (λ m. resolve_in ss self.entry.item (name_at self.entry.outlines.now.names m.name))
            flag }
    {
        match flag {
            Some(named) => self.resolve(named.name),
            None => None,
        }
    }

    fn resolve_clause(self, clause: FlatClause) -> Resolved<'a>
        requires inner { TellsInner self.first.now }
        requires names { IsClauseNumbered self.outlines.now.names clause }
        ensures { (ss : List Outline) (symbols : List Symbol)
            → Tabled self.entry.outlines.now.names self.entry.first.now symbols (entries ss)
            → self.entry.enclosing_set ≡ Places.enclosing_set ss self.entry.item
            → linked result ≡ linked_clause ss self.entry.item
            (clause_by self.entry.outlines.now.names clause) }
    {
        Resolved {
            outlines: self.outlines,
            item: self.item,
            clause,
            variable: self.resolve(clause.variable.name),
            flag: self.resolve_flag(clause.flag),
        }
    }

    // Adds the clauses of the item.
    fn add_clauses(
        self,
        clauses: &[FlatClause],
        found: &mut Vec<Resolved<'a>>,
    ) -> Result<(), OutOfMemory>
        requires inner { TellsInner self.first.now }
        requires names { Each (IsClauseNumbered self.outlines.now.names) clauses.now }
        ensures { OnOk result ((ss : List Outline) (symbols : List Symbol)
            → Tabled self.entry.outlines.now.names self.entry.first.now symbols (entries ss)
            → self.entry.enclosing_set ≡ Places.enclosing_set ss self.entry.item
            → map linked found.new.items ≡ map linked found.old.items
            ++ map (linked_clause ss self.entry.item)
            (map (clause_by self.entry.outlines.now.names) clauses.now)) }
    {
        for clause in clauses {
            found.push(self.resolve_clause(*clause))?;
        }
        Ok(())
    }
}

/// The clauses of all items, in the order of the text.
pub(crate) fn resolved_clauses<'a>(
    alloc: Global,
    scopes: &'a Scopes,
) -> Result<Vec<Resolved<'a>>, OutOfMemory>
    ensures { IfOk result (λ found. map linked found.items ≡ clauses_of scopes.now) }
{
    let outlines = &scopes.outlines;
    let mut found = Vec::with_capacity(alloc, outlines.clauses.len())?;
    let mut at = Cursor::first();
    for item in 0..outlines.count() {
        let place = Place {
            outlines,
            first: &scopes.first,
            item,
            enclosing_set: scopes.enclosing_set(item),
        };
        place.add_clauses(outlines.told(at).clauses, &mut found)?;
        at = outlines.next(at);
    }
    Ok(found)
}
