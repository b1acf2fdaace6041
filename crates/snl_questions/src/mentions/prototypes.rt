//! The names of prototypes. In: an item, and a name. Out: the function with a body that it means.

ghost use Rattle.std.specs.Prelude.{◌≡◌, option_copied};
ghost use Rattle.snl_questions.specs.Mentions.{function_named, is_function, meant_by_prototype};
ghost use Rattle.snl_questions.specs.Mentions.{name_without_body, place_of_function, prototype_in};
ghost use Rattle.snl_questions.specs.Mentions.{prototype_of};

use crate::meanings::items::TokenPlace;
use crate::meanings::names::{LinkedItem, place_of};
use snl_grammar::tree::item::{Function, Item};
use snl_scope::{Declaration, SymbolKind};

fn name_without_body(function: &Function) -> Option<usize>
    ensures { result ≡ name_without_body function.now.name function.now.body }
{
    match &function.body {
        Some(_) => None,
        None => Some(function.name),
    }
}

fn prototype_in(item: &Item) -> Option<usize>
    ensures { result ≡ prototype_in item.now }
{
    match item {
        Item::Function(function) => name_without_body(function.get()),
        _ => None,
    }
}

/// The token of a prototype's name, where an item is a prototype.
pub fn prototype_of(tree: Option<&Item>) -> Option<usize>
    ensures { result ≡ prototype_of (option_copied tree.entry) }
{
    prototype_in(tree?)
}

fn is_function(kind: SymbolKind) -> bool
    ensures { result ≡ is_function kind }
{
    matches!(kind, SymbolKind::Function)
}

fn place_of_function(declaration: Declaration) -> Option<TokenPlace>
    ensures { result ≡ place_of_function declaration }
{
    if is_function(declaration.variable.symbol_kind) {
        Some(place_of(declaration))
    } else {
        None
    }
}

impl LinkedItem<'_> {
    // The function with a body that a name outside the item's blocks means.
    fn function_named(&self, name: &[u8]) -> Option<TokenPlace>
        ensures { result ≡ function_named self.now.links.now.outlines self.now.item name.now }
    {
        let number = self.links.declaration(self.item, name)?;
        let declaration = self.links.declared(number)?;
        place_of_function(declaration)
    }

    /// What a name at a token means as the name of a prototype, by the token of that.
    pub fn meant_by_prototype(
        &self,
        name: &[u8],
        prototype: Option<usize>,
        token: usize,
    ) -> Option<TokenPlace>
        ensures { result ≡ meant_by_prototype self.now.links.now.outlines self.now.item name.now
            prototype token }
    {
        if prototype? == token {
            self.function_named(name)
        } else {
            None
        }
    }
}
