//! The symbols of an item. In: the items of a text, what names mean among them, and what one of
//! them says to the others. Out: the symbol that it is itself, and those of what it declares.

ghost use Rattle.std.specs.Prelude.{◌≡◌, ◌<◌, ◌++◌, OnOk, length, option_to_list};
ghost use Rattle.snl_questions.specs.Symbols.{span_between, symbol_with};

use crate::document_symbols::kinds::{declared_kind, own_kind};
use crate::document_symbols::symbol::{DocumentSymbol, DocumentSymbolKind};
use crate::tokens::item_tokens::ItemTokens;
use snl_cut::OutOfMemory;
use snl_scope::{Declared, Links, Outline};
use snl_tables::Span;

/// An item of a text, by its number among those that are linked, and what it says to the others.
#[derive(Clone, Copy)]
pub struct LinkedItem<'a> {
    pub items: ItemTokens<'a>,
    pub links: &'a Links,
    pub item: usize,
    pub outline: &'a Outline,
    ghost as_many: { length items.ends.now ≡ length links.now.outlines },
    ghost inside: { item < length items.ends.now },
}

// The bytes from one offset up to another.
fn span_between(start: Option<usize>, stop: Option<usize>) -> Option<Span>
    ensures { result ≡ span_between start stop }
{
    let start = start?;
    let stop = stop?;
    Some(Span {
        start,
        len: stop.saturating_sub(start),
    })
}

// A symbol, where its name and its extent are there.
fn symbol_with(
    kind: DocumentSymbolKind,
    depth: usize,
    name: Option<Span>,
    extent: Option<Span>,
) -> Option<DocumentSymbol>
    ensures { result ≡ symbol_with kind depth name extent }
{
    let name = name?;
    let extent = extent?;
    Some(DocumentSymbol {
        kind,
        name,
        extent,
        depth,
    })
}

// Adds a symbol, if there is one.
fn add_symbol(
    symbol: Option<DocumentSymbol>,
    symbols: &mut Vec<DocumentSymbol>,
) -> Result<(), OutOfMemory>
    ensures { OnOk result (symbols.new.items ≡ symbols.old.items ++ option_to_list symbol) }
{
    if let Some(symbol) = symbol {
        symbols.push(symbol)?;
    }
    Ok(())
}

impl LinkedItem<'_> {
    ghost use Rattle.std.specs.Prelude.{◌≤◌};
    ghost use Rattle.std.specs.List.{filter_map};
    ghost use Rattle.snl_scope.specs.Places.{stands_in};
    ghost use Rattle.snl_questions.specs.Items.{tokens_by_item};
    ghost use Rattle.snl_questions.specs.Symbols.{declared_symbol, depth_of, extent_of, item_symbols, last_within, own_symbol};

    // Whether another item is in the state set that this one begins.
    fn encloses(&self, item: usize) -> bool
        ensures { result ≡ stands_in self.now.links.now.outlines self.now.item item }
    {
        match self.links.enclosing_set(item) {
            Some(set) => self.item == set,
            None => false,
        }
    }

    // The last item of the state set that this one begins, or this one.
    fn last_within(&self) -> usize
        ensures { result ≡ last_within self.now.links.now.outlines self.now.item }
    {
        let count = self.items.ends.len();
        for next in self.item + 1..count {
            if !self.encloses(next) {
                return next - 1;
            }
        }
        count - 1
    }

    fn extent(&self) -> Option<Span>
        ensures { result
            ≡ extent_of (tokens_by_item self.now.items) self.now.links.now.outlines
            self.now.item }
    {
        let start = self.items.start_of(self.item);
        let stop = self.items.stop_of(self.last_within());
        span_between(start, stop)
    }

    fn depth(&self) -> usize
        ensures depth { result ≡ depth_of self.now.links.now.outlines self.now.item }
        ensures shallow { result ≤ 1 }
    {
        match self.links.enclosing_set(self.item) {
            Some(_) => 1,
            None => 0,
        }
    }

    // The symbol that the item itself is. Its name is its second token.
    fn own_symbol(&self) -> Option<DocumentSymbol>
        ensures { result
            ≡ own_symbol (tokens_by_item self.now.items) self.now.links.now.outlines
            self.now.item self.now.outline.now }
    {
        let kind = own_kind(self.outline)?;
        let name = self.items.span_at(self.item, 1);
        symbol_with(kind, self.depth(), name, self.extent())
    }

    // A name that the item declares. It is said whether the item is a symbol itself.
    fn declared_symbol(&self, is_symbol: bool, declared: &Declared) -> Option<DocumentSymbol>
        ensures { result
            ≡ declared_symbol (tokens_by_item self.now.items) self.now.links.now.outlines
            self.now.item is_symbol declared.now }
    {
        let kind = declared_kind(declared.variable.symbol_kind);
        let name = self.items.span_at(self.item, declared.token);
        if is_symbol {
            symbol_with(kind, self.depth() + 1, name, name)
        } else {
            symbol_with(kind, self.depth(), name, self.extent())
        }
    }

    // Adds the names that the item declares.
    fn add_declared(
        &self,
        is_symbol: bool,
        symbols: &mut Vec<DocumentSymbol>,
    ) -> Result<(), OutOfMemory>
        ensures { OnOk result (symbols.new.items ≡ symbols.old.items
            ++ filter_map (declared_symbol (tokens_by_item self.now.items)
            self.now.links.now.outlines self.now.item is_symbol) self.now.outline.now.declares) }
    {
        let declares = self.outline.declares.as_slice();
        for declared in declares {
            add_symbol(self.declared_symbol(is_symbol, declared), symbols)?;
        }
        Ok(())
    }

    /// Adds the symbols of the item.
    pub fn add_symbols(&self, symbols: &mut Vec<DocumentSymbol>) -> Result<(), OutOfMemory>
        ensures { OnOk result (symbols.new.items ≡ symbols.old.items
            ++ item_symbols (tokens_by_item self.now.items) self.now.links.now.outlines
            self.now.item self.now.outline.now) }
    {
        let own = self.own_symbol();
        add_symbol(own, symbols)?;
        self.add_declared(own.is_some(), symbols)
    }
}
