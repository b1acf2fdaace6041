//! The nearest of the names that could stand in the place of an unknown one.

ghost use Rattle.std.specs.Prelude.{◌≡◌, IfOk};
ghost use Rattle.snl_related.specs.Near.{is_number, is_wanted, nearer};

use crate::near::near_distance;
use snl_cut::OutOfMemory;
use snl_questions::{TextItems, TokenPlace, span_bytes};
use snl_scope::{Declaration, Links, SymbolKind};
use snl_tables::Span;
use std::alloc::Global;

/// At most so many names are looked at.
const MOST_NAMES: usize = 10_000;

/// The nearest name so far, and its distance.
#[derive(Clone, Copy)]
pub struct Nearest {
    pub span: Span,
    pub distance: usize,
}

/// Which declared names are sought.
#[derive(Clone, Copy)]
pub enum Wanted {
    Any,
    EventFlag,
}

// Of two at one distance the first stays.
fn nearer(best: Option<Nearest>, span: Span, distance: usize) -> Option<Nearest>
    ensures { result ≡ nearer best span distance }
{
    match best {
        Some(known) if known.distance <= distance => Some(known),
        _ => Some(Nearest { span, distance }),
    }
}

fn is_wanted(wanted: Wanted, declaration: &Declaration) -> bool
    ensures { result ≡ is_wanted wanted declaration.now }
{
    match wanted {
        Wanted::Any => true,
        Wanted::EventFlag => matches!(declaration.variable.symbol_kind, SymbolKind::EventFlag),
    }
}

fn is_number(number: usize, found: Option<usize>) -> bool
    ensures { result ≡ is_number number found }
{
    match found {
        Some(other) => other == number,
        None => false,
    }
}

/// A name in an item that nothing declares there.
#[derive(Clone, Copy)]
pub struct UnknownName<'a> {
    pub alloc: Global,
    pub links: &'a Links,
    pub items: TextItems<'a>,
    pub item: usize,
    pub name: &'a [u8],
}

impl UnknownName<'_> {
    ghost use Rattle.snl_scope.specs.Places.{stands_in};
    ghost use Rattle.snl_related.specs.Near.{declarations_offered, declared_offered, is_visible, name_offered};
    ghost use Rattle.snl_related.specs.Near.{nearest_declaration, nearest_in_set, nearest_state, state_offered};
    ghost use Rattle.snl_related.specs.Near.{states_offered, visible_distance, visible_offered};

    // The nearest one, with another name.
    fn name_offered(
        &self,
        best: Option<Nearest>,
        span: Option<Span>,
    ) -> Result<Option<Nearest>, OutOfMemory>
        ensures { IfOk result
            (λ b. b ≡ name_offered self.now.items.text.now self.now.name.now best span) }
    {
        let Some(span) = span else {
            return Ok(best);
        };
        let other = span_bytes(self.items.text, span);
        let Some(distance) = near_distance(self.alloc, self.name, other)? else {
            return Ok(best);
        };
        Ok(nearer(best, span, distance))
    }

    // Whether another item is in the state set that an item begins.
    fn stands_in(&self, set: usize, item: usize) -> bool
        ensures { result ≡ stands_in self.now.links.now.outlines set item }
    {
        match self.links.enclosing_set(item) {
            Some(enclosing) => set == enclosing,
            None => false,
        }
    }

    // The same with the name of an item, where this is a state of the set.
    fn state_offered(
        &self,
        set: usize,
        best: Option<Nearest>,
        item: usize,
    ) -> Result<Option<Nearest>, OutOfMemory>
        ensures { IfOk result (λ b. b ≡ state_offered self.now.items.text.now
            self.now.links.now.outlines set self.now.name.now best item) }
    {
        if self.links.is_named_state(item) && self.stands_in(set, item) {
            self.name_offered(best, self.items.span_at(TokenPlace { item, token: 1 }))
        } else {
            Ok(best)
        }
    }

    // The nearest of the states of a set.
    fn nearest_in_set(&self, set: usize) -> Result<Option<Nearest>, OutOfMemory>
        ensures { IfOk result (λ b. b ≡ nearest_in_set self.now.items.text.now
            self.now.links.now.outlines self.now.name.now set) }
    {
        let count = self.links.item_count().saturating_sub(set).min(MOST_NAMES);
        let mut best = None;
        for number in 0..count {
            best = self.state_offered(set, best, set + number)?;
        }
        Ok(best)
    }

    /// The nearest of the states in the set of the item. The first of those that are equally near.
    pub fn nearest_state(&self) -> Result<Option<Nearest>, OutOfMemory>
        ensures { IfOk result (λ b. b ≡ nearest_state self.now.items.text.now
            self.now.links.now.outlines self.now.item self.now.name.now) }
    {
        match self.links.enclosing_set(self.item) {
            Some(set) => self.nearest_in_set(set),
            None => Ok(None),
        }
    }

    // Whether a name of these bytes means the declaration with a number.
    fn is_visible(&self, number: usize, bytes: &[u8]) -> bool
        ensures { result
            ≡ is_visible self.now.links.now.outlines self.now.item number bytes.now }
    {
        is_number(number, self.links.declaration(self.item, bytes))
    }

    // The distance of a name that is near and means the declaration with a number.
    fn visible_distance(&self, number: usize, bytes: &[u8]) -> Result<Option<usize>, OutOfMemory>
        ensures { IfOk result (λ d. d ≡ visible_distance self.now.links.now.outlines
            self.now.item number self.now.name.now bytes.now) }
    {
        let Some(distance) = near_distance(self.alloc, self.name, bytes)? else {
            return Ok(None);
        };
        if self.is_visible(number, bytes) {
            Ok(Some(distance))
        } else {
            Ok(None)
        }
    }

    // The nearest one, with the name of a declaration that can be named.
    fn visible_offered(
        &self,
        best: Option<Nearest>,
        number: usize,
        span: Option<Span>,
    ) -> Result<Option<Nearest>, OutOfMemory>
        ensures { IfOk result (λ b. b ≡ visible_offered self.now.items.text.now
            self.now.links.now.outlines self.now.item self.now.name.now best number span) }
    {
        let Some(span) = span else {
            return Ok(best);
        };
        let bytes = span_bytes(self.items.text, span);
        let Some(distance) = self.visible_distance(number, bytes)? else {
            return Ok(best);
        };
        Ok(nearer(best, span, distance))
    }

    // The same of the declaration with a number, where it is wanted.
    fn declared_offered(
        &self,
        wanted: Wanted,
        best: Option<Nearest>,
        number: usize,
        declaration: Option<Declaration>,
    ) -> Result<Option<Nearest>, OutOfMemory>
        ensures { IfOk result (λ b. b ≡ declared_offered self.now.items.text.now
            self.now.links.now.outlines self.now.item wanted self.now.name.now best number
            declaration) }
    {
        let Some(declaration) = declaration else {
            return Ok(best);
        };
        if !is_wanted(wanted, &declaration) {
            return Ok(best);
        }
        let span = self.items.span_at(TokenPlace {
            item: declaration.item,
            token: declaration.token,
        });
        self.visible_offered(best, number, span)
    }

    /// The nearest of the declared names that the item can name outside its blocks. The first of
    /// those that are equally near.
    pub fn nearest_declaration(&self, wanted: Wanted) -> Result<Option<Nearest>, OutOfMemory>
        ensures { IfOk result (λ b. b ≡ nearest_declaration self.now.items.text.now
            self.now.links.now.outlines self.now.item wanted self.now.name.now) }
    {
        let count = self.links.declarations().min(MOST_NAMES);
        let mut best = None;
        for number in 0..count {
            best = self.declared_offered(wanted, best, number, self.links.declared(number))?;
        }
        Ok(best)
    }
}
