//! What an edit makes of the links: the edit under way and what is kept of the items of the new
//! text come in, what is to be put in place goes out. Where no item says to the others anything but
//! what it said, names mean what they meant: then other kinds of the items are put in place alone,
//! since a state may have turned faulty or sound.
#![tactic(auto)]

ghost use Rattle.std.specs.Prelude.{◌≡◌, ◌≤◌, ◌++◌, All, IfOk, IsTrue, Some, drop, length, map, slice_get, take};
ghost use Rattle.snl_scope.specs.Linked.{faults_of};
ghost use Rattle.snl_kept.specs.Checks.{links_in, outlines_in};
ghost use Rattle.snl_kept.specs.Editing.{AreEntriesIn, IsUnderWay, old_in, text_in};
ghost use Rattle.snl_kept.specs.ItemPlan.{outlines_kept};
ghost use Rattle.snl_kept.specs.NewLinks.{AreLinks};
ghost use Rattle.snl_kept.specs.Parts.{IsPart, item_of_part};
ghost use Rattle.snl_kept.specs.Program.{items_of};

use crate::editing::Editing;
use crate::entries::Entry;
use crate::found::program::Part;
use crate::found::summaries::{kinds_of, links_of};
use crate::plan::{NewKinds, NewLinks};
use crate::shared::Shared;
use snl_cut::OutOfMemory;
use snl_grammar::{outcome_told, same_spelling_same_tree};
use snl_items::TokenList;
use snl_lists::Ordered;
use snl_scope::{Links, Summary, link_after, same_outline, same_spelling_same_summary};
use std::alloc::Global;

// Whether the item with a number said to the others what this one says.
fn says_the_same_at(entries: &Ordered<Shared<Entry>>, item: usize, entry: &Shared<Entry>) -> bool
    ensures { IsTrue result → slice_get (outlines_kept entries.now.values) item ≡ Some entry.now.summary.outline }
{
    match entries.get(item) {
        Some(was) => same_outline(&was.get().summary.outline, &entry.get().summary.outline),
        None => false,
    }
}

// Whether the items from one number up to another said to the others what these say.
fn say_the_same(
    entries: &Ordered<Shared<Entry>>,
    front: usize,
    made: &[Shared<Entry>],
    back: usize,
) -> bool
    requires order { front ≤ back }
    requires inside { back ≤ length entries.now.values }
    ensures { IsTrue result → outlines_kept (take front entries.now.values ++ (made.now ++ drop back entries.now.values)) ≡ outlines_kept entries.now.values }
{
    if made.len() != back - front {
        return false;
    }
    for (number, entry) in made.iter().enumerate() {
        if !says_the_same_at(entries, front + number, entry) {
            return false;
        }
    }
    true
}

// Whether each item of the new text says to the others what it said.
fn keeps_outlines(editing: &Editing, made: &[Shared<Entry>]) -> bool
    requires editing { IsUnderWay editing.now }
    requires made { AreEntriesIn editing.now made.now }
    ensures { IsTrue result → outlines_in (text_in editing.now) ≡ outlines_in (old_in editing.now) }
{
    outcome_told();
    same_spelling_same_tree();
    same_spelling_same_summary();
    let entries = &editing.lists.entries;
    let items = &editing.changes.items;
    let back = entries.len() - items.kept_back;
    say_the_same(entries, items.kept_front, made, back)
}

// The kinds of the items of the new text, where each says to the others what it said.
fn with_kinds(
    alloc: Global,
    links: &Links,
    text: &[u8],
    tokens: &TokenList,
    parts: &[Part],
) -> Result<NewKinds, OutOfMemory>
    requires parts { All (IsPart text.now tokens.now) parts.now }
    requires items { map (item_of_part tokens.now) parts.now ≡ items_of text.now }
    requires outlines { links.now.outlines ≡ outlines_in text.now }
    ensures kinds { IfOk result (λ n. n.kinds.items ≡ (links_in text.now).kinds) }
    ensures faults { IfOk result (λ n. n.faults.items ≡ faults_of (links_in text.now)) }
{
    let kinds = kinds_of(alloc, text, tokens, parts)?;
    let faults = links.order_faults_for(alloc, &kinds)?;
    Ok(NewKinds { kinds, faults })
}

// The summaries of items that are made.
fn summaries_of<'a>(
    alloc: Global,
    made: &'a [Shared<Entry>],
) -> Result<Vec<&'a Summary>, OutOfMemory>
    ensures { IfOk result (λ v. map (λ s. s.now) v.items ≡ map (λ e. e.summary) made.now) }
{
    let mut summaries = Vec::with_capacity(alloc, made.len())?;
    for entry in made {
        summaries.push(&entry.get().summary)?;
    }
    Ok(summaries)
}

/// The links of the new text, made of those of the old one.
pub fn relinked(
    alloc: Global,
    editing: &Editing,
    made: &[Shared<Entry>],
) -> Result<Links, OutOfMemory>
    requires editing { IsUnderWay editing.now }
    requires made { AreEntriesIn editing.now made.now }
    ensures { IfOk result (λ l. l ≡ links_in (text_in editing.now)) }
{
    outcome_told();
    same_spelling_same_tree();
    same_spelling_same_summary();
    let lists = editing.lists;
    let items = &editing.changes.items;
    let back = lists.entries.len() - items.kept_back;
    let summaries = summaries_of(alloc, made)?;
    link_after(alloc, &lists.links, items.kept_front, back, &summaries)
}

// The links of the new text: where too many of the names of the old links are of no item any more,
// they are made anew of all items.
fn new_links(
    alloc: Global,
    editing: &Editing,
    tokens: &TokenList,
    parts: &[Part],
    made: &[Shared<Entry>],
) -> Result<Links, OutOfMemory>
    requires editing { IsUnderWay editing.now }
    requires items { map (item_of_part tokens.now) parts.now ≡ items_of (text_in editing.now) }
    requires parts { All (IsPart (text_in editing.now) tokens.now) parts.now }
    requires made { AreEntriesIn editing.now made.now }
    ensures { IfOk result (λ l. l ≡ links_in (text_in editing.now)) }
{
    if editing.lists.links.has_many_dead_names() {
        return links_of(alloc, editing.edit.text, tokens, parts);
    }
    relinked(alloc, editing, made)
}

/// What an edit makes of the links, by what is kept of the items that are made and all items of the
/// new text.
pub fn relink(
    alloc: Global,
    editing: &Editing,
    tokens: &TokenList,
    parts: &[Part],
    made: &[Shared<Entry>],
) -> Result<NewLinks, OutOfMemory>
    requires editing { IsUnderWay editing.now }
    requires items { map (item_of_part tokens.now) parts.now ≡ items_of (text_in editing.now) }
    requires parts { All (IsPart (text_in editing.now) tokens.now) parts.now }
    requires made { AreEntriesIn editing.now made.now }
    ensures { IfOk result (AreLinks (old_in editing.now) (text_in editing.now)) }
{
    let text = editing.edit.text;
    if keeps_outlines(editing, made) {
        let new = with_kinds(alloc, &editing.lists.links, text, tokens, parts)?;
        return Ok(NewLinks::Kinds(new));
    }
    let links = new_links(alloc, editing, tokens, parts, made)?;
    Ok(NewLinks::Other(links))
}
