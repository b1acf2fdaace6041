//! Whether an item says by other names what the one before it said, where no item uses one of these
//! names: the edit under way and what is made of the item come in, the links after the edit go out,
//! if the others see what they saw.
#![tactic(auto)]

ghost use Rattle.std.specs.Prelude.{◌≡◌, [], ◌∷◌, IfOk, IfSome, IsTrue, false};
ghost use Rattle.snl_lex.specs.PieceList.{spelled};
ghost use Rattle.snl_scope.specs.Linked.{faults_of};
ghost use Rattle.snl_scope.specs.Renamed.{AreNames, ClausesAlike, IsRenamed, Renames};
ghost use Rattle.snl_scope.specs.Spoken.{touches};
ghost use Rattle.snl_kept.specs.Checks.{links_in};
ghost use Rattle.snl_kept.specs.Editing.{AreEntriesIn};
ghost use Rattle.snl_kept.specs.Entries.{entry_by};
ghost use Rattle.snl_kept.specs.ItemPlan.{IsWas};
ghost use Rattle.snl_kept.specs.OneItem.{IsOneItemEdit, item_of, old_of, text_of};
ghost use Rattle.snl_kept.specs.RenamedItem.{AreUntouched};
ghost use Rattle.snl_kept.specs.ReplacedItem.{SeesAlike};

use crate::entries::Entry;
use crate::shared::Shared;
use crate::ways::one_item::replaced::{OldItem, OneItem};
use snl_cut::OutOfMemory;
use snl_grammar::{outcome_told, same_spelling_same_tree};
use snl_lists::Ordered;
use snl_moved::tables_told_alike;
use snl_scope::{
    EditedNames, Links, Renaming, declared_anew, link_renamed, named_anew,
    same_spelling_same_summary, unspoken_names,
};
use std::alloc::Global;

// Whether no item but one uses one of these names, or has it as a target.
fn none_touches(entries: &Ordered<Shared<Entry>>, item: usize, names: &EditedNames) -> bool
    ensures { IsTrue result → AreUntouched names.now item entries.now.values }
{
    for number in 0..entries.len() {
        if let Some(entry) = entries.get(number) {
            if number != item && names.touch(&entry.get().summary) {
                return false;
            }
        }
    }
    true
}

// The names by which both items say what they say, if they are few and no item uses one of them or
// leads to it.
fn unused_names<'a>(
    alloc: Global,
    one: &OneItem,
    was: &'a Entry,
    made: &'a Entry,
    renaming: Renaming,
) -> Result<Option<EditedNames<'a>>, OutOfMemory>
    ensures names { IfOk result (λ o. IfSome o (AreNames was.now.summary.outline made.now.summary.outline renaming)) }
    ensures others { IfOk result (λ o. IfSome o (λ n. AreUntouched n (item_of one.now) one.now.editing.lists.now.entries.values)) }
    ensures own { IfOk result (λ o. IfSome o (λ n. touches n made.now.summary ≡ false)) }
{
    let (was, is) = (&was.summary, &made.summary);
    let names = EditedNames::of_renaming(alloc, &was.outline, &is.outline, renaming)?;
    let Some(names) = names else {
        return Ok(None);
    };
    let item = one.editing.changes.items.kept_front;
    if names.touch(is) || !none_touches(&one.editing.lists.entries, item, &names) {
        return Ok(None);
    }
    Ok(Some(names))
}

// The others see what they saw. This does nothing: its contract is the law of such an edit.
fn others_see_alike(
    one: &OneItem,
    was: OldItem,
    made: &Entry,
    renaming: Renaming,
    names: &EditedNames,
    links: &Links,
)
    requires one { IsOneItemEdit one.now }
    requires was { IsWas (old_of one.now) (item_of one.now) was }
    requires made { made.now ≡ entry_by (spelled (text_of one.now) one.now.own.now.is.items) }
    requires alone { AreEntriesIn one.now.editing (made.now ∷ []) }
    requires renamed { IsRenamed one.now.editing.lists.now.links.outlines links.now.outlines (item_of one.now) was.entry.now.summary.outline made.now.summary.outline renaming }
    requires names { AreNames was.entry.now.summary.outline made.now.summary.outline renaming names.now }
    requires others { AreUntouched names.now (item_of one.now) one.now.editing.lists.now.entries.values }
    requires own { touches names.now made.now.summary ≡ false }
    requires links { links.now ≡ links_in (text_of one.now) }
    requires clauses { ClausesAlike one.now.editing.lists.now.links.outlines links.now.outlines }
    ensures { SeesAlike (old_of one.now) (text_of one.now) (item_of one.now) }
{
    unspoken_names();
    declared_anew();
    named_anew();
    tables_told_alike();
    outcome_told();
    same_spelling_same_tree();
    same_spelling_same_summary();
}

// The links of the new text, if what clauses say and what is found stays.
fn renamed_links(
    alloc: Global,
    one: &OneItem,
    was: OldItem,
    made: &Entry,
    renaming: Renaming,
    names: &EditedNames,
) -> Result<Option<Links>, OutOfMemory>
    requires one { IsOneItemEdit one.now }
    requires was { IsWas (old_of one.now) (item_of one.now) was }
    requires alone { AreEntriesIn one.now.editing (made.now ∷ []) }
    requires renames { Renames was.entry.now.summary.outline made.now.summary.outline renaming }
    requires names { AreNames was.entry.now.summary.outline made.now.summary.outline renaming names.now }
    ensures links { IfOk result (λ o. IfSome o (λ l. l ≡ links_in (text_of one.now))) }
    ensures faults { IfOk result (λ o. IfSome o (λ l. faults_of l ≡ faults_of (links_in (old_of one.now)))) }
    ensures clauses { IfOk result (λ o. IfSome o (λ l. ClausesAlike one.now.editing.lists.now.links.outlines l.outlines)) }
    ensures renamed { IfOk result (λ o. IfSome o (λ l. IsRenamed one.now.editing.lists.now.links.outlines l.outlines (item_of one.now) was.entry.entry.now.summary.outline made.now.summary.outline renaming)) }
{
    outcome_told();
    same_spelling_same_tree();
    same_spelling_same_summary();
    let before = &one.editing.lists.links;
    let item = one.editing.changes.items.kept_front;
    let (was, is) = (&was.entry.summary.outline, &made.summary);
    let links = link_renamed(alloc, before, item, was, is, renaming, names)?;
    Ok(links)
}

/// The links after the edit, if the others see what they saw, and the links find what they found.
pub fn links_if_unused(
    alloc: Global,
    one: &OneItem,
    was: OldItem,
    made: &Entry,
    renaming: Renaming,
) -> Result<Option<Links>, OutOfMemory>
    requires one { IsOneItemEdit one.now }
    requires was { IsWas (old_of one.now) (item_of one.now) was }
    requires made { made.now ≡ entry_by (spelled (text_of one.now) one.now.own.now.is.items) }
    requires alone { AreEntriesIn one.now.editing (made.now ∷ []) }
    requires renames { Renames was.entry.now.summary.outline made.now.summary.outline renaming }
    ensures links { IfOk result (λ o. IfSome o (λ l. l ≡ links_in (text_of one.now))) }
    ensures faults { IfOk result (λ o. IfSome o (λ l. faults_of l ≡ faults_of (links_in (old_of one.now)))) }
    ensures seen { IfOk result (λ o. IfSome o (λ l. SeesAlike (old_of one.now) (text_of one.now) (item_of one.now))) }
{
    let before = &one.editing.lists.links;
    if before.has_many_dead_names() {
        return Ok(None);
    }
    let Some(names) = unused_names(alloc, one, was.entry, made, renaming)? else {
        return Ok(None);
    };
    let Some(links) = renamed_links(alloc, one, was, made, renaming, &names)? else {
        return Ok(None);
    };
    others_see_alike(one, was, made, renaming, &names, &links);
    Ok(Some(links))
}
