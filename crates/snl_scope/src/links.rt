//! The links of items: their summaries come in, and what names mean to each item goes out.
//! All but the findings goes by the outlines alone, so links stay where no outline changes; other
//! kinds can be put in place.

ghost use Rattle.std.specs.Arc.{arc_value};
ghost use Rattle.std.specs.Prelude.{◌≡◌, ◌≤◌, ◌++◌, [], drop, length, map, take, IfOk, option_and_then, option_map};
ghost use Rattle.snl_scope.specs.Flags.{flags_of};
ghost use Rattle.snl_scope.specs.Linked.{name_kind_of, entry_fact, faults_of, level_of, scope_in, variable_declaration, variable_fact};
ghost use Rattle.snl_scope.specs.LinkedItems.{linked_items};
ghost use Rattle.snl_scope.specs.Names.{entries, repetitions};
ghost use Rattle.snl_scope.specs.Said.{TellsClauses};

use crate::by_number::at_number;
use crate::clauses::clause_index::Purpose;
use crate::clauses::flags::flag_number;
use crate::facts::{Assigned, ClauseLink, Declaration, Fact, Level, LinkFault, NameKind, Scope};
use crate::findings::all_faults;
use crate::items::linked_items::{kinds_after, kinds_of};
use crate::linking::{LinkedClauses, LinkedNames, linked_clauses, linked_names};
use crate::names::name_tables::Symbol;
use crate::names::namespaces::Namespace;
use crate::names::scopes::Scopes;
use crate::outlines::outline_list::OutlineList;
use snl_cut::OutOfMemory;
use snl_summary::{ItemKind, Summary, SymbolKind};
use std::alloc::Global;
use std::marker::Model;
use std::sync::Arc;

/// What names mean among the items of a text, which contracts see as their outlines and kinds.
/// Links of the same outlines and kinds are the same value, and give the same answers.
pub struct Links {
    pub(crate) scopes: Scopes,
    pub(crate) kinds: Vec<ItemKind>,
    /// What clauses say, which links after an edit may share.
    pub(crate) said: Arc<LinkedClauses, Global>,
    pub(crate) flags: Vec<usize>,
    /// The names that came again, those of faulty states among them.
    pub(crate) repeated: Vec<LinkFault>,
    pub(crate) faults: Vec<LinkFault>,
}

// By hand, so that whoever holds links need not know what is in them to let them go.
impl Drop for Links {
    fn drop(self) {
        let Links {
            scopes: _,
            kinds: _,
            said: _,
            flags: _,
            repeated: _,
            faults: _,
        } = self;
    }
}

impl Model for Links {
    ghost use Rattle.std.specs.Arc.{arc_value};
    ghost use Rattle.std.specs.Prelude.{◌≡◌, []};
    ghost use Rattle.snl_scope.specs.LinkedItems.{LinkedItems};
    ghost use Rattle.snl_scope.specs.Flags.{flags_of};
    ghost use Rattle.snl_scope.specs.Linked.{faults_of};
    ghost use Rattle.snl_scope.specs.Names.{entries, repetitions};
    ghost use Rattle.snl_scope.specs.Said.{TellsClauses};

    ghost Value = { LinkedItems };

    ghost view = { λ a. record { outlines = a.scopes; kinds = a.kinds.items } };

    ghost invariant = { λ a. TellsClauses (arc_value a.said) a.scopes
        × (a.flags.items ≡ flags_of a.scopes)
        × (a.faults.items ≡ faults_of (record { outlines = a.scopes; kinds = a.kinds.items }))
        × (a.repeated.items ≡ repetitions [] (entries a.scopes)) };
}

impl Links {
    ghost use Rattle.snl_scope.specs.Channels.{is_monitored, sync_number};
    ghost use Rattle.snl_scope.specs.Clauses.{assigned_by, clause_links, clauses_of, resolve_in};
    ghost use Rattle.snl_scope.specs.Flags as flags;
    ghost use Rattle.snl_scope.specs.Linked.{declaration_at, fact_at, fact_of, faults_of, has_target, state_of};
    ghost use Rattle.snl_scope.specs.Names.{entries};
    ghost use Rattle.snl_scope.specs.Order.{is_named_state};
    ghost use Rattle.snl_scope.specs.Places.{enclosing_set, is_set_begin};
    ghost use Rattle.std.specs.Prelude.{length};

    /// How many items there are.
    pub fn item_count(&self) -> usize
        ensures { result ≡ length self.now.outlines }
    {
        self.scopes.item_count()
    }

    /// The state set in which an item is, by the number of its `ss NAME {` item, or None at program
    /// level.
    pub fn enclosing_set(&self, item: usize) -> Option<usize>
        ensures { result ≡ enclosing_set self.now.outlines item }
    {
        self.scopes.enclosing_set(item)
    }

    /// Whether an item begins a state set.
    pub fn begins_set(&self, item: usize) -> bool
        ensures { result ≡ is_set_begin self.now.outlines item }
    {
        self.scopes.begins_set(item)
    }

    /// Whether an item begins as a state does, faulty or not, and has a name.
    pub fn is_named_state(&self, item: usize) -> bool
        ensures { result ≡ is_named_state self.now.outlines item }
    {
        self.scopes.is_named_state(item)
    }

    // What clauses say.
    fn said(&self) -> &LinkedClauses
        ensures { TellsClauses result.now self.now.outlines }
    {
        self.said.as_ref()
    }

    // To what the declaration with a number is assigned.
    fn assigned_to(&self, number: usize) -> Assigned
        ensures { result ≡ assigned_by (clauses_of self.now.outlines) number }
    {
        at_number(&self.said().assigned, number).unwrap_or(Assigned::Unassigned)
    }

    /// What is known of the declaration with a number.
    pub fn known_at(&self, number: usize) -> Option<Fact>
        ensures { result ≡ fact_at self.now.outlines number }
    {
        let symbol = self.scopes.symbol(number)?;
        known_of(symbol, self.assigned_to(number))
    }

    /// What a name means to an item, by the scopes outside it.
    pub fn fact(&self, item: usize, name: &[u8]) -> Option<Fact>
        ensures { result ≡ fact_of self.now.outlines item name.now }
    {
        if item < self.scopes.places.len() {
            let number = self.scopes.resolve(self.enclosing_set(item), name)?;
            self.known_at(number)
        } else {
            None
        }
    }

    /// The number of the declaration that a name outside the blocks of an item means. A state sees
    /// its own declarations first.
    pub fn declaration(&self, item: usize, name: &[u8]) -> Option<usize>
        ensures { result ≡ resolve_in self.now.outlines item name.now }
    {
        self.scopes.resolve_in(item, name)
    }

    /// The declaration with a number. Names of state sets and states have numbers too, and are no
    /// declarations.
    pub fn declared(&self, declaration: usize) -> Option<Declaration>
        ensures { result ≡ declaration_at self.now.outlines declaration }
    {
        declaration_of(self.scopes.symbol(declaration)?)
    }

    /// How many numbers of declarations there are, those of the names of state sets and states
    /// among them.
    pub fn declarations(&self) -> usize
        ensures { result ≡ length (entries self.now.outlines) }
    {
        self.scopes.count()
    }

    /// The event flags, by the numbers of their declarations, in the order of the text.
    pub fn flags(&self) -> &[usize]
        ensures { result.now ≡ flags.flags_of self.now.outlines }
    {
        self.flags.as_slice()
    }

    /// The number of an event flag among all, from 1 on, or None where the declaration is none of
    /// them.
    pub fn flag_number(&self, declaration: usize) -> Option<usize>
        ensures { result ≡ flags.flag_number self.now.outlines declaration }
    {
        flag_number(self.flags(), declaration)
    }

    /// Whether the state set in which an item is has a state of the name.
    pub fn has_target(&self, item: usize, name: &[u8]) -> bool
        ensures { result ≡ has_target self.now.outlines item name.now }
    {
        match self.enclosing_set(item) {
            Some(set) => self
                .scopes
                .number_in(Namespace::States(set), name)
                .is_some(),
            None => false,
        }
    }

    /// The first state of the name in the state set in which an item is, by the number of its item.
    pub fn state(&self, item: usize, name: &[u8]) -> Option<usize>
        ensures { result ≡ state_of self.now.outlines item name.now }
    {
        self.scopes.state_of(item, name)
    }

    /// The clauses of all items, in the order of the text.
    pub fn clauses(&self) -> &[ClauseLink]
        ensures { result.now ≡ clause_links self.now.outlines }
    {
        self.said().clauses.as_slice()
    }

    /// Whether a sound `monitor` speaks of a channel of the declaration with a number: that of an
    /// element, or of the whole variable.
    pub fn is_monitored(&self, variable: usize, element: Option<u64>) -> bool
        ensures { result ≡ is_monitored self.now.outlines variable element }
    {
        self.said()
            .claims
            .first_clause(Purpose::Monitor, variable, element)
            .is_some()
    }

    /// The first sound `sync` or `syncq` that speaks of a channel of the declaration with a number,
    /// by its number among the clauses.
    pub fn sync_number(&self, variable: usize, element: Option<u64>) -> Option<usize>
        ensures { result ≡ sync_number self.now.outlines variable element }
    {
        self.said()
            .claims
            .first_clause(Purpose::Sync, variable, element)
    }

    /// Whether many of the names in the book are of no item any more, since items came and went.
    /// Then links are best made anew of all items, so that names take memory as the text does.
    pub fn has_many_dead_names(&self) -> bool {
        self.scopes.outlines.has_many_dead_names()
    }

    /// What is found of the order of items, names that are declared twice, and what is found at
    /// clauses; each finding once.
    pub fn faults(&self) -> &[LinkFault]
        ensures { result.now ≡ faults_of self.now }
    {
        self.faults.as_slice()
    }

    /// What each item is.
    pub fn kinds(&self) -> &[ItemKind]
        ensures { result.now ≡ self.now.kinds }
    {
        &self.kinds
    }

    /// All findings where the items have the same outlines and these kinds: a state that became
    /// faulty, for one, gives none of its own. `set_kinds` puts both in place.
    pub fn order_faults_for(
        &self,
        alloc: Global,
        kinds: &[ItemKind],
    ) -> Result<Vec<LinkFault>, OutOfMemory>
        requires { length kinds.now ≡ length self.now.outlines }
        ensures { IfOk result (λ faults. faults.items
            ≡ faults_of (record { outlines = self.now.outlines; kinds = kinds.now })) }
    {
        all_faults(
            alloc,
            &self.scopes,
            kinds,
            self.repeated.as_slice(),
            self.said().faults.as_slice(),
        )
    }

    /// Puts other kinds in place, with the findings that `order_faults_for` answered for them. It
    /// takes no memory.
    pub fn set_kinds(&mut self, kinds: Vec<ItemKind>, faults: Vec<LinkFault>)
        requires { faults.items
            ≡ faults_of (record { outlines = self.old.outlines; kinds = kinds.items }) }
        ensures { self.new ≡ record { outlines = self.old.outlines; kinds = kinds.items } }
    {
        self.kinds = kinds;
        self.faults = faults;
    }
}

fn level_of(namespace: Namespace) -> Level
    ensures { result ≡ level_of namespace }
{
    match namespace {
        Namespace::StateSet(_) => Level::StateSet,
        _ => Level::Program,
    }
}

fn name_kind_of(symbol_kind: SymbolKind) -> NameKind
    ensures { result ≡ name_kind_of symbol_kind }
{
    match symbol_kind {
        SymbolKind::EventFlag => NameKind::EventFlag,
        SymbolKind::Foreign => NameKind::Foreign,
        SymbolKind::Function => NameKind::Function,
        SymbolKind::Assignable | SymbolKind::Unassignable => NameKind::Other,
    }
}

// What is known of what is there, if it is a declaration.
fn known_of(symbol: Symbol, assigned: Assigned) -> Option<Fact>
    ensures { result ≡ option_map (variable_fact assigned symbol.namespace) symbol.variable }
{
    let variable = symbol.variable?;
    Some(Fact {
        dims: variable.dims,
        level: level_of(symbol.namespace),
        kind: name_kind_of(variable.symbol_kind),
        assigned,
    })
}

// The scope that is a namespace.
fn scope_in(namespace: Namespace) -> Option<Scope>
    ensures { result ≡ scope_in namespace }
{
    match namespace {
        Namespace::Program => Some(Scope::Program),
        Namespace::StateSet(set) => Some(Scope::StateSet(set)),
        Namespace::State(state) => Some(Scope::State(state)),
        Namespace::Sets | Namespace::States(_) => None,
    }
}

// The declaration that is there, if it is one.
fn declaration_of(symbol: Symbol) -> Option<Declaration>
    ensures { result
        ≡ option_and_then
        (λ v. option_map (λ s. variable_declaration symbol.item symbol.token s v)
        (scope_in symbol.namespace))
        symbol.variable }
{
    Some(Declaration {
        variable: symbol.variable?,
        scope: scope_in(symbol.namespace)?,
        item: symbol.item,
        token: symbol.token,
    })
}

/// Puts together what was found of the items.
pub(crate) fn links_of(
    kinds: Vec<ItemKind>,
    names: LinkedNames,
    said: Arc<LinkedClauses, Global>,
    faults: Vec<LinkFault>,
) -> Links
    requires flags { names.flags.items ≡ flags_of names.scopes }
    requires repeated { names.repeated.items ≡ repetitions [] (entries names.scopes) }
    requires said { TellsClauses (arc_value said) names.scopes }
    requires faults { faults.items
        ≡ faults_of (record { outlines = names.scopes; kinds = kinds.items }) }
    ensures { result ≡ record { outlines = names.scopes; kinds = kinds.items } }
{
    let LinkedNames {
        scopes,
        flags,
        repeated,
    } = names;
    Links {
        scopes,
        kinds,
        said,
        flags,
        repeated,
        faults,
    }
}

// What clauses say, in a place that links can share.
fn in_shared_place(
    alloc: Global,
    said: LinkedClauses,
) -> Result<Arc<LinkedClauses, Global>, OutOfMemory>
    ensures { IfOk result (λ held. arc_value held ≡ said) }
{
    match Arc::new(alloc, said) {
        Ok(held) => Ok(held),
        Err(_) => Err(OutOfMemory),
    }
}

// What the clauses of all items say, and all that is found.
fn clauses_and_faults(
    alloc: Global,
    kinds: &[ItemKind],
    names: &LinkedNames,
) -> Result<(Arc<LinkedClauses, Global>, Vec<LinkFault>), OutOfMemory>
    requires repeated { names.now.repeated.items ≡ repetitions [] (entries names.now.scopes) }
    requires kinds { length kinds.now ≡ length names.now.scopes }
    ensures said { IfOk result (λ made. TellsClauses (arc_value made.0) names.now.scopes) }
    ensures faults { IfOk result (λ made. made.1.items
        ≡ faults_of (record { outlines = names.now.scopes; kinds = kinds.now })) }
{
    let said = linked_clauses(alloc, &names.scopes)?;
    let faults = all_faults(alloc, &names.scopes, kinds, &names.repeated, &said.faults)?;
    let said = in_shared_place(alloc, said)?;
    Ok((said, faults))
}

fn link_outlines(
    alloc: Global,
    kinds: Vec<ItemKind>,
    outlines: OutlineList,
) -> Result<Links, OutOfMemory>
    requires { length kinds.items ≡ length outlines.outlines }
    ensures { IfOk result
        (λ l. l ≡ record { outlines = outlines.outlines; kinds = kinds.items }) }
{
    let names = linked_names(alloc, outlines)?;
    let (said, faults) = clauses_and_faults(alloc, &kinds, &names)?;
    Ok(links_of(kinds, names, said, faults))
}

/// What names mean among the items that these summaries tell of.
pub fn link(alloc: Global, summaries: &[&Summary]) -> Result<Links, OutOfMemory>
    ensures { IfOk result (λ l. l ≡ linked_items (map (λ s. s.now) summaries.now)) }
{
    let kinds = kinds_of(alloc, summaries)?;
    let outlines = OutlineList::of(alloc, summaries)?;
    link_outlines(alloc, kinds, outlines)
}

/// The same after an edit: the items from `front` up to `back` are replaced by those that these
/// summaries tell of. The names that are in both keep their numbers, so that no other item is
/// looked at for its names.
pub fn link_after(
    alloc: Global,
    before: &Links,
    front: usize,
    back: usize,
    made: &[&Summary],
) -> Result<Links, OutOfMemory>
    requires order { front ≤ back }
    requires inside { back ≤ length before.now.outlines }
    requires kinds { length before.now.kinds ≡ length before.now.outlines }
    ensures { IfOk result (λ l. l ≡ record {
      outlines = take front before.now.outlines
          ++ (map (λ s. s.now.outline) made.now ++ drop back before.now.outlines);
      kinds = take front before.now.kinds
          ++ (map (λ s. s.now.kind) made.now ++ drop back before.now.kinds);
    }) }
{
    let kinds = kinds_after(alloc, &before.kinds, front, back, made)?;
    let outlines = before.scopes.outlines.after(alloc, front, back, made)?;
    link_outlines(alloc, kinds, outlines)
}
