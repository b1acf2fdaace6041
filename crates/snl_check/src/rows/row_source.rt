//! What rows are made from: the items of a text, their clauses and their links come in, scopes go
//! out by their names.

ghost use Rattle.std.specs.Prelude.{◌≡◌, option_map};

use crate::rows::item_clauses::ResolvedClause;
use crate::rows::text_items::TextItems;
use snl_scope::{Links, Scope};
use snl_tables::{ScopeName, Span};

/// The items of a text, their clauses in the order of the text, and their links.
#[derive(Clone, Copy)]
pub(crate) struct RowSource<'a> {
    pub program: TextItems<'a>,
    pub clauses: &'a [ResolvedClause<'a>],
    pub links: &'a Links,
}

impl<'a> RowSource<'a> {
    ghost use Rattle.snl_check.specs.Collected.{IsRowSource, items_in};
    ghost use Rattle.snl_check.specs.ItemSpans.{item_name};
    ghost use Rattle.snl_check.specs.Tables.{scope_name, scope_of_variable};

    /// Where the name of a state set or of a state is.
    pub(crate) fn item_name(&self, item: usize) -> Span
        requires { IsRowSource self.now }
        ensures { result ≡ item_name (items_in self.now.program) item }
    {
        self.program.span(item, 1)
    }

    fn set_name(&self, set: Option<usize>) -> Option<Span>
        requires { IsRowSource self.now }
        ensures { result ≡ option_map (item_name (items_in self.now.program)) set }
    {
        Some(self.item_name(set?))
    }

    /// A scope by its names.
    pub(crate) fn scope_name(&self, scope: Scope) -> ScopeName
        requires { IsRowSource self.now }
        ensures { result ≡ scope_name
            (items_in self.now.program) self.now.links.now.outlines scope }
    {
        match scope {
            Scope::Program => ScopeName::Program,
            Scope::StateSet(set) => ScopeName::StateSet(self.item_name(set)),
            Scope::State(state) => ScopeName::State {
                set: self.set_name(self.links.enclosing_set(state)),
                state: self.item_name(state),
            },
        }
    }

    /// The scope that declares a variable.
    pub(crate) fn scope_of_variable(&self, variable: usize) -> ScopeName
        requires { IsRowSource self.now }
        ensures { result ≡ scope_of_variable
            (items_in self.now.program) self.now.links.now.outlines variable }
    {
        match self.links.declared(variable) {
            Some(declaration) => self.scope_name(declaration.scope),
            None => ScopeName::Program,
        }
    }
}
