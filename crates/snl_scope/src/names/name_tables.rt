//! The names of all namespaces, with where each comes first.

ghost use Rattle.std.specs.Prelude.{◌≡◌, ◌++◌, ◌∷◌, [], ◌<◌, ℕ, List, OnOk, IfOk, IfSome, Some, if◌then◌else◌, length, map, option_map};
ghost use Rattle.std.specs.List.{AllByRecursion as Each};
ghost use Rattle.snl_scope.specs.OutlineList.{IsNumbered, declared_by, name_at, outline_by, outline_of};
ghost use Rattle.snl_names.specs.NameBook.{AllDiffer};
ghost use Rattle.snl_scope.specs.Names.{Entry, declared_entry, entries, entries_of, has_own_scope, repetition_at, scope_at, scope_code, scope_of, set_entries, set_name, state_entries};
ghost use Rattle.snl_scope.specs.Order.{state_name};
ghost use Rattle.snl_scope.specs.Places as Places;
ghost use Rattle.snl_summary.specs.declared.summary.Outline.{Outline};
ghost use Rattle.snl_codes.specs.declared.code.Code.{Code};
ghost use Rattle.snl_scope.specs.declared.names.namespaces.Namespace.{Namespace};
ghost use Rattle.snl_scope.specs.NameTables.{Placed, TablesFollow, entry_of, symbol_named};

use crate::facts::LinkFault;
use crate::names::first_numbers::FirstNumbers;
use crate::names::namespaces::{Namespace, QualifiedName};
use crate::outlines::cursor::{Cursor, ToldOutline};
use crate::outlines::flat::{FlatDeclared, FlatOutline};
use crate::outlines::outline_list::OutlineList;
use snl_codes::Code;
use snl_cut::OutOfMemory;
use snl_summary::{Opening, Role, Variable};
use std::alloc::Global;

/// A name that an item brings into a namespace, by its number: `code` is what it gives where an earlier one has
/// the name, and `variable` is what a declaration says of it.
#[derive(Clone, Copy)]
pub(crate) struct NameEntry {
    pub namespace: Namespace,
    pub name: usize,
    pub item: usize,
    pub token: usize,
    pub code: Option<Code>,
    pub variable: Option<Variable>,
}

/// Where a name is that has come, and what a declaration says of it.
#[derive(Clone, Copy)]
pub(crate) struct Symbol {
    pub namespace: Namespace,
    pub item: usize,
    pub token: usize,
    pub variable: Option<Variable>,
}

/// The names that have come so far: for each name in a namespace the number of the first that came,
/// for each number where it is, and the findings at those that came again.
#[derive(Drop)]
pub(crate) struct NameTables {
    pub first: FirstNumbers,
    pub symbols: Vec<Symbol>,
    pub faults: Vec<LinkFault>,
}

fn symbol_of(named: NameEntry) -> Symbol
    ensures { result ≡ symbol_named named }
{
    Symbol {
        namespace: named.namespace,
        item: named.item,
        token: named.token,
        variable: named.variable,
    }
}

// Adds what a name gives that came again.
fn add_repetition(named: NameEntry, faults: &mut Vec<LinkFault>) -> Result<(), OutOfMemory>
    ensures { OnOk result ((names : List (List ℕ))
        → faults.new.items ≡ faults.old.items ++ repetition_at (entry_of names named)) }
{
    if let Some(code) = named.code {
        faults.push(LinkFault {
            item: named.item,
            token: named.token,
            code,
        })?;
    }
    Ok(())
}

// The scope of what is at a place.
fn scope_at(enclosing_set: Option<usize>) -> Namespace
    ensures { result ≡ scope_at enclosing_set }
{
    match enclosing_set {
        None => Namespace::Program,
        Some(set) => Namespace::StateSet(set),
    }
}

// The scope that an item declares in.
fn scope_of(role: Role, item: usize, enclosing_set: Option<usize>) -> Namespace
    ensures { result
        ≡ (if has_own_scope role then Namespace.State item else scope_at enclosing_set) }
{
    match role {
        Role::State => Namespace::State(item),
        _ => scope_at(enclosing_set),
    }
}

// What a second declaration in a scope gives.
fn scope_code(scope: Namespace) -> Option<Code>
    ensures { result ≡ scope_code scope }
{
    match scope {
        Namespace::State(_) => None,
        _ => Some(Code::E07),
    }
}

// The name of the state set that an item begins.
fn set_name(head: FlatOutline) -> Option<usize>
    ensures name { (names : List (List ℕ))
        → option_map (name_at names) result ≡ set_name (outline_by names head [] []) }
    ensures second { IfSome result (λ n. head.second ≡ Some n) }
{
    match head.role {
        Role::SetBegin => head.second,
        _ => None,
    }
}

// The name of the state that an item is, faulty or not.
fn state_name(head: FlatOutline) -> Option<usize>
    ensures name { (names : List (List ℕ))
        → option_map (name_at names) result ≡ state_name (outline_by names head [] []) }
    ensures second { IfSome result (λ n. head.second ≡ Some n) }
{
    match head.opening {
        Opening::State => head.second,
        _ => None,
    }
}

impl NameTables {
    /// With room for so many symbols.
    pub(crate) fn new(alloc: Global, room: usize) -> Result<NameTables, OutOfMemory>
        ensures { IfOk result (λ t. (names : List (List ℕ)) → TablesFollow names t []) }
    {
        let symbols = Vec::with_capacity(alloc, room)?;
        Ok(NameTables {
            first: FirstNumbers::with_room(alloc, room)?,
            symbols,
            faults: Vec::new(alloc),
        })
    }

    fn add(&mut self, named: NameEntry) -> Result<(), OutOfMemory>
        ensures { OnOk result ((names : List (List ℕ)) (es : List Entry)
            → AllDiffer names → named.name < length names → TablesFollow names self.old es
            → TablesFollow names self.new (es ++ entry_of names named ∷ [])) }
    {
        let number = self.symbols.len();
        let key = QualifiedName {
            namespace: named.namespace,
            name: named.name,
        };
        let came_before = self.first.add(key, number)?;
        if came_before {
            add_repetition(named, &mut self.faults)?;
        }
        self.symbols.push(symbol_of(named))?;
        Ok(())
    }

    // Adds the name of the state set that an item begins.
    fn add_set(&mut self, item: usize, head: FlatOutline) -> Result<(), OutOfMemory>
        ensures { OnOk result ((names : List (List ℕ)) (es : List Entry)
            → AllDiffer names → IfSome head.second (λ n. n < length names)
            → TablesFollow names self.old es
            → TablesFollow names self.new
            (es ++ set_entries item (outline_by names head [] []))) }
    {
        match set_name(head) {
            None => Ok(()),
            Some(name) => self.add(NameEntry {
                namespace: Namespace::Sets,
                name,
                item,
                token: 1,
                code: Some(Code::E08),
                variable: None,
            }),
        }
    }

    // Adds the name of the state that an item is, if it is in a state set.
    fn add_state(
        &mut self,
        enclosing_set: Option<usize>,
        item: usize,
        head: FlatOutline,
    ) -> Result<(), OutOfMemory>
        ensures { OnOk result ((names : List (List ℕ)) (es : List Entry)
            → AllDiffer names → IfSome head.second (λ n. n < length names)
            → TablesFollow names self.old es
            → TablesFollow names self.new
            (es ++ state_entries enclosing_set item (outline_by names head [] []))) }
    {
        match (enclosing_set, state_name(head)) {
            (Some(set), Some(name)) => self.add(NameEntry {
                namespace: Namespace::States(set),
                name,
                item,
                token: 1,
                code: Some(Code::E09),
                variable: None,
            }),
            _ => Ok(()),
        }
    }

    // Adds the names that an item declares in a scope.
    fn add_declared(
        &mut self,
        scope: Namespace,
        item: usize,
        declares: &[FlatDeclared],
    ) -> Result<(), OutOfMemory>
        ensures { OnOk result ((names : List (List ℕ)) (es : List Entry)
            → AllDiffer names → Each (λ d. d.name < length names) declares.now
            → TablesFollow names self.old es
            → TablesFollow names self.new
            (es ++ map (declared_entry scope item) (map (declared_by names) declares.now))) }
    {
        for declared in declares {
            self.add(NameEntry {
                namespace: scope,
                name: declared.name,
                item,
                token: declared.token,
                code: scope_code(scope),
                variable: Some(declared.variable),
            })?;
        }
        Ok(())
    }

    fn add_item(
        &mut self,
        enclosing_set: Option<usize>,
        item: usize,
        told: ToldOutline<'_>,
    ) -> Result<(), OutOfMemory>
        ensures { OnOk result ((names : List (List ℕ)) (ss : List Outline) (es : List Entry)
            → AllDiffer names → IsNumbered names told.entry
            → enclosing_set ≡ Places.enclosing_set ss item
            → TablesFollow names self.old es
            → TablesFollow names self.new
            (es ++ entries_of ss item (outline_of names told.entry))) }
    {
        self.add_set(item, told.head)?;
        self.add_state(enclosing_set, item, told.head)?;
        let scope = scope_of(told.head.role, item, enclosing_set);
        self.add_declared(scope, item, told.declares)?;
        Ok(())
    }
}

// How many symbols an item brings: the name of a state set or of a state, and what is declared.
fn symbol_count(enclosing_set: Option<usize>, head: FlatOutline) -> usize {
    let is_named = set_name(head).is_some()
        || enclosing_set.is_some() && state_name(head).is_some();
    let names = if is_named { 1 } else { 0 };
    head.declares.saturating_add(names)
}

// How many all items bring, for which room is made.
fn symbol_counts(outlines: &OutlineList, places: &[Option<usize>]) -> usize {
    let mut count = 0usize;
    for (head, place) in outlines.heads.iter().zip(places) {
        count = count.saturating_add(symbol_count(*place, *head));
    }
    count
}

/// The tables of all items.
pub(crate) fn tables_of(
    alloc: Global,
    outlines: &OutlineList,
    places: &[Option<usize>],
) -> Result<NameTables, OutOfMemory>
    requires { Placed places.now outlines.now.outlines (length outlines.now.outlines) }
    ensures { IfOk result
        (λ t. TablesFollow outlines.now.names t (entries outlines.now.outlines)) }
{
    outlines.differ();
    let mut tables = NameTables::new(alloc, symbol_counts(outlines, places))?;
    let mut at = Cursor::first();
    for item in 0..outlines.count() {
        tables.add_item(places[item], item, outlines.told(at))?;
        at = outlines.next(at);
    }
    Ok(tables)
}
