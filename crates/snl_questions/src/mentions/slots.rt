//! What is kept for each token of an item, so that no token is looked for in a list. In: an item
//! with what is kept of it. Out: what each of its tokens mentions.

ghost use Rattle.std.specs.Prelude.{◌≡◌, ◌==◌, ◌<◌, ℕ, IfOk, length, replicate};
ghost use Rattle.std.specs.List.{list_any, slice_index_or, slice_set};
ghost use Rattle.snl_walk.specs.Tokens.{IsSource, bytes_in};
ghost use Rattle.snl_tables.specs.Marks.{is_marked};
ghost use Rattle.snl_questions.specs.KeptItems.{meant_in_item, meant_inside_item, mentioned_in_item};
ghost use Rattle.snl_questions.specs.Meanings.{clause_names, meant_inside, outline_names};
ghost use Rattle.snl_questions.specs.Slots.{AreSlotsOf, Gains, HasMeanings};

use crate::meanings::items::TokenPlace;
use crate::meanings::kept_item::KeptItem;
use crate::meanings::names::{LinkedItem, occurrences_in};
use crate::mentions::prototypes::prototype_of;
use snl_cut::OutOfMemory;
use snl_scope::{Declared, Outline, VariableClause};
use snl_tables::NumberSet;
use snl_walk::{Occurrence, Source};
use std::alloc::Global;

/// The slots of an item's tokens.
#[derive(Drop)]
pub struct Slots {
    /// The tokens at which the item declares a name, or a clause has one.
    pub named: NumberSet,
    /// What each token means by what occurs there.
    pub inside: Vec<Option<TokenPlace>>,
    /// The name of a prototype, where the item is one.
    pub prototype: Option<usize>,
}

fn insert_declared(declares: &[Declared], tokens: &mut NumberSet)
    ensures { Gains (λ n. list_any (λ d. d.token == n) declares.now) tokens.old tokens.new }
{
    for declared in declares {
        tokens.insert(declared.token);
    }
}

fn insert_clause(clause: &VariableClause, tokens: &mut NumberSet)
    ensures { Gains (λ n. clause_names n clause.now) tokens.old tokens.new }
{
    tokens.insert(clause.variable.token);
    if let Some(flag) = &clause.flag {
        tokens.insert(flag.token);
    }
}

fn insert_clauses(clauses: &[VariableClause], tokens: &mut NumberSet)
    ensures { Gains (λ n. list_any (clause_names n) clauses.now) tokens.old tokens.new }
{
    for clause in clauses {
        insert_clause(clause, tokens);
    }
}

// Of so many tokens those that an outline names.
fn named_tokens(alloc: Global, outline: &Outline, count: usize) -> Result<NumberSet, OutOfMemory>
    ensures { IfOk result (λ named. (n : ℕ) → n < count
        → is_marked named n ≡ outline_names outline.now n) }
{
    let mut named = NumberSet::new(alloc, count)?;
    insert_declared(outline.declares.as_slice(), &mut named);
    insert_clauses(outline.clauses.as_slice(), &mut named);
    Ok(named)
}

// A slot for each of so many tokens, with nothing in it.
fn empty_slots(alloc: Global, count: usize) -> Result<Vec<Option<TokenPlace>>, OutOfMemory>
    ensures { IfOk result (λ slots. slots.items ≡ replicate count None) }
{
    let mut slots = Vec::new(alloc);
    slots.resize(count, None)?;
    Ok(slots)
}

fn put(slots: &mut Vec<Option<TokenPlace>>, token: usize, meant: Option<TokenPlace>)
    ensures { slots.new.items ≡ slice_set slots.old.items token meant }
{
    if token < slots.len() {
        slots[token] = meant;
    }
}

// What is in the slot of a token, if there is one.
fn slot_at(slots: &[Option<TokenPlace>], token: usize) -> Option<TokenPlace>
    ensures { result ≡ slice_index_or slots.now token None }
{
    match slots.get(token) {
        Some(meant) => *meant,
        None => None,
    }
}

// What each token means by the first occurrence there: so the last one is put in first.
fn meanings_inside(
    linked: &LinkedItem,
    source: &Source,
    found: &[Occurrence],
) -> Result<Vec<Option<TokenPlace>>, OutOfMemory>
    requires { IsSource source.now.text.now source.now.tokens.now }
    ensures { IfOk
        result
        (λ slots. HasMeanings (λ n. meant_inside linked.now.links.now.outlines linked.now.item
        (bytes_in source.now n) found.now n) (length source.now.tokens.now) slots.items) }
{
    let mut slots = empty_slots(source.alloc, source.tokens.len())?;
    let mut left = found.len();
    while left > 0 {
        left -= 1;
        let one = found[left];
        put(
            &mut slots,
            one.token,
            linked.meant_by_occurrence(source.bytes(one.token), one),
        );
    }
    Ok(slots)
}

impl Slots {
    /// The slots of an item.
    pub fn of_item(item: &KeptItem) -> Result<Slots, OutOfMemory>
        requires { IsSource item.now.source.text.now item.now.source.tokens.now }
        ensures { IfOk result (AreSlotsOf item.now) }
    {
        let source = item.source;
        let found = occurrences_in(&source, item.tree)?;
        let named = named_tokens(source.alloc, item.outline, source.tokens.len())?;
        let inside = meanings_inside(&item.linked, &source, &found)?;
        Ok(Slots {
            named,
            inside,
            prototype: prototype_of(item.tree),
        })
    }

    // Whether the outline names a token.
    fn is_named(&self, item: &KeptItem, token: usize) -> bool
        requires slots { AreSlotsOf item.now self.now }
        requires inside { token < length item.now.source.tokens.now }
        ensures { result ≡ outline_names item.now.outline.now token }
    {
        self.named.contains(token)
    }

    // What a token means by what occurs there.
    fn meant_inside(&self, item: &KeptItem, token: usize) -> Option<TokenPlace>
        requires slots { AreSlotsOf item.now self.now }
        requires inside { token < length item.now.source.tokens.now }
        ensures { result ≡ meant_inside_item item.now token }
    {
        slot_at(&self.inside, token)
    }

    // What a token means.
    fn meant(&self, item: &KeptItem, token: usize) -> Option<TokenPlace>
        requires source { IsSource item.now.source.text.now item.now.source.tokens.now }
        requires slots { AreSlotsOf item.now self.now }
        requires inside { token < length item.now.source.tokens.now }
        ensures { result ≡ meant_in_item item.now token }
    {
        if let Some(own) = item.linked.meant_as_own_name(token) {
            return Some(own);
        }
        if let Some(inside) = self.meant_inside(item, token) {
            return Some(inside);
        }
        if self.is_named(item, token) {
            item.linked.declaration_named(item.source.bytes(token))
        } else {
            None
        }
    }

    /// What a token mentions of the item of which these are the slots.
    #[tactic(auto, unfolding(crate::specs::Mentions::mentioned_in))]
    pub fn mentioned(&self, item: &KeptItem, token: usize) -> Option<TokenPlace>
        requires source { IsSource item.now.source.text.now item.now.source.tokens.now }
        requires slots { AreSlotsOf item.now self.now }
        requires inside { token < length item.now.source.tokens.now }
        ensures { result ≡ mentioned_in_item item.now token }
    {
        if let Some(meant) = self.meant(item, token) {
            return Some(meant);
        }
        let name = item.source.bytes(token);
        item.linked.meant_by_prototype(name, self.prototype, token)
    }
}
