//! What names resolve to, by the tables of all items. It knows nothing of clauses.

ghost use Rattle.std.specs.Prelude.{◌≡◌};

use crate::items::heads::{Head, Sought, is_sought};
use crate::names::first_numbers::FirstNumbers;
use crate::names::name_tables::Symbol;
use crate::names::namespaces::Namespace;
use crate::outlines::outline_list::OutlineList;
use snl_summary::{Role, Variable};
use std::marker::Model;

/// The finished tables of all items, which contracts see as the list of their outlines.
pub(crate) struct Scopes {
    pub places: Vec<Option<usize>>,
    pub heads: Vec<Head>,
    pub outlines: OutlineList,
    pub first: FirstNumbers,
    pub symbols: Vec<Symbol>,
}

// By hand, so that whoever holds tables need not know what is in them to let them go.
impl Drop for Scopes {
    fn drop(self) {
        let Scopes {
            places: _,
            heads: _,
            outlines: _,
            first: _,
            symbols: _,
        } = self;
    }
}

impl Model for Scopes {
    ghost use Rattle.std.specs.Prelude.{◌≡◌, List, length, map};
    ghost use Rattle.snl_summary.specs.declared.summary.Outline.{Outline};
    ghost use Rattle.snl_scope.specs.Names.{entries};
    ghost use Rattle.snl_scope.specs.NameTables.{Placed, Tabled, head_of};

    ghost Value = { List Outline };

    ghost view = { λ a. a.outlines.outlines };

    ghost invariant = { λ a.
        (Placed a.places.items a.outlines.outlines (length a.outlines.outlines)
        × (a.heads.items ≡ map head_of a.outlines.outlines))
        × Tabled a.outlines.names a.first a.symbols.items (entries a.outlines.outlines) };
}

impl Scopes {
    ghost use Rattle.snl_scope.specs.Clauses.{resolve_in, variable_at};
    ghost use Rattle.snl_scope.specs.Linked.{state_in, state_of};
    ghost use Rattle.snl_scope.specs.Names.{entries, number_in, resolve};
    ghost use Rattle.snl_scope.specs.Order.{is_named_state};
    ghost use Rattle.snl_scope.specs.Places.{enclosing_set, is_set_begin};
    ghost use Rattle.snl_scope.specs.NameTables.{head_of, symbol_of};
    ghost use Rattle.std.specs.Prelude.{Some, ◌<◌, length, map, option_map, slice_get};

    /// How many numbers there are.
    pub(crate) fn count(&self) -> usize
        ensures { result ≡ length (entries self.now) }
    {
        self.symbols.len()
    }

    /// The state set in which an item is, or None at program level.
    pub(crate) fn enclosing_set(&self, item: usize) -> Option<usize>
        ensures { result ≡ enclosing_set self.now item }
    {
        match self.places.get(item) {
            Some(set) => *set,
            None => None,
        }
    }

    /// How many items there are.
    pub(crate) fn item_count(&self) -> usize
        ensures { result ≡ length self.now }
    {
        self.outlines.count()
    }

    /// What the outline of an item says of the order of items.
    pub(crate) fn head(&self, item: usize) -> Head
        requires { item < length self.now }
        ensures { slice_get (map head_of self.now) item ≡ Some result }
    {
        self.heads[item]
    }

    // The same, if there is an item with the number.
    fn head_at(&self, item: usize) -> Option<Head>
        ensures { result ≡ option_map head_of (slice_get self.now item) }
    {
        if item < self.item_count() {
            Some(self.head(item))
        } else {
            None
        }
    }

    /// Whether an item begins a state set.
    pub(crate) fn begins_set(&self, item: usize) -> bool
        ensures { result ≡ is_set_begin self.now item }
    {
        match self.head_at(item) {
            Some(head) => matches!(head.role, Role::SetBegin),
            None => false,
        }
    }

    /// Whether an item begins as a state does, and has a name.
    pub(crate) fn is_named_state(&self, item: usize) -> bool
        ensures { result ≡ is_named_state self.now item }
    {
        match self.head_at(item) {
            Some(head) => is_sought(Sought::State, head),
            None => false,
        }
    }

    /// The number of the first that is under a name in a namespace.
    pub(crate) fn number_in(&self, namespace: Namespace, name: &[u8]) -> Option<usize>
        ensures { result ≡ number_in (entries self.now) namespace name.now }
    {
        self.first
            .number_under(namespace, self.outlines.number(name)?)
    }

    /// What is there with a number.
    pub(crate) fn symbol(&self, number: usize) -> Option<Symbol>
        ensures { result ≡ option_map symbol_of (slice_get (entries self.now) number) }
    {
        self.symbols.get(number).copied()
    }

    /// The number of what a name resolves to from a place.
    pub(crate) fn resolve(&self, enclosing_set: Option<usize>, name: &[u8]) -> Option<usize>
        ensures { result ≡ resolve (entries self.now) enclosing_set name.now }
    {
        self.first
            .nearest_under(enclosing_set, self.outlines.number(name)?)
    }

    /// The number of what a name resolves to that is in an item outside its blocks.
    pub(crate) fn resolve_in(&self, item: usize, name: &[u8]) -> Option<usize>
        ensures { result ≡ resolve_in self.now item name.now }
    {
        let name = self.outlines.number(name)?;
        self.first.nearest_to(item, self.enclosing_set(item), name)
    }

    /// The first state with a name in a state set, by the number of its item.
    pub(crate) fn state_in(&self, set: usize, name: &[u8]) -> Option<usize>
        ensures { result ≡ state_in self.now set name.now }
    {
        let number = self.number_in(Namespace::States(set), name)?;
        Some(self.symbol(number)?.item)
    }

    /// The first state with a name in the state set in which an item is, by the number of its item.
    pub(crate) fn state_of(&self, item: usize, name: &[u8]) -> Option<usize>
        ensures { result ≡ state_of self.now item name.now }
    {
        self.state_in(self.enclosing_set(item)?, name)
    }

    /// What the declaration with a number says.
    pub(crate) fn variable_at(&self, number: Option<usize>) -> Option<Variable>
        ensures { result ≡ variable_at (entries self.now) number }
    {
        self.symbol(number?)?.variable
    }
}
