//! What a text says after an edit: the edit under way and the items of the new text come in, the
//! links, the checks that are made, the diagnostics and the tables go out. It changes nothing.
#![tactic(auto)]

ghost use Rattle.std.specs.Prelude.{◌≡◌, ◌+◌, ◌-◌, ◌≤◌, All, IfOk, IfSome, length, map};
ghost use Rattle.snl_cut.specs.Cut.{after_ticks, members};
ghost use Rattle.snl_lex.specs.Pieces.{tokens_of};
ghost use Rattle.snl_views.specs.SameMeanings.{AreBoth};
ghost use Rattle.snl_kept.specs.Diagnostics.{shown};
ghost use Rattle.snl_kept.specs.Entries.{entries_of};
ghost use Rattle.snl_kept.specs.Editing.{AreEntriesIn, IsUnderWay, edit_in, items_in, old_in, text_in};
ghost use Rattle.snl_kept.specs.NewChecks.{AreChecksMade, kept_of, nones};
ghost use Rattle.snl_kept.specs.NewLinks.{AreLinks, links_now};
ghost use Rattle.snl_kept.specs.Order.{in_order};
ghost use Rattle.snl_kept.specs.Parts.{IsPart, item_of_part};
ghost use Rattle.snl_kept.specs.Planned.{AreLinksAndChecks};
ghost use Rattle.snl_kept.specs.Program.{items_of, program_item};
ghost use Rattle.snl_kept.specs.Retold.{IsRetold};
ghost use Rattle.snl_kept.specs.Stirred.{stirred_of};
ghost use Rattle.snl_kept.specs.Tables.{tables_in};
ghost use Rattle.snl_kept.specs.Warnings.{warns_in};

use crate::editing::Editing;
use crate::entries::Entry;
use crate::found::judge::{Told, in_order, told_in};
use crate::found::program::{CutText, Part, items_end_in_order, parts_along};
use crate::kept_checks::{checks_in, vacant_for};
use crate::plan::{LinksAndChecks, NewCheck, NewChecks, NewLinks};
use crate::shared::Shared;
use crate::values::values_after;
use crate::ways::whole::edited::edited_names;
use crate::ways::whole::kept_rows::kept_rows;
use crate::ways::whole::recheck::{BothLinks, KeptItems, recheck};
use crate::ways::whole::relink::relink;
use snl_cut::{Count, OutOfMemory, ends_in_order};
use snl_grammar::Tokens;
use snl_item_check::equal_views;
use snl_items::{ItemChange, TokenList};
use snl_lex::text_in_pieces;
use snl_scope::{EditedNames, Links, same_spelling_same_summary};
use snl_views::{Moved, SameViews, views_told_apart};
use std::alloc::Global;

/// What is shown of what is found in the new text and its tables, and what is to be kept of its
/// links and checks.
#[derive(Drop)]
pub struct Retold {
    pub told: Told,
    pub kept: LinksAndChecks,
}

// Which items are kept of so many, and where they are among so many.
fn kept_items(old_count: usize, items: &ItemChange, count: usize) -> KeptItems
    requires back { items.now.kept_back ≤ old_count }
    requires count { count ≡ items.now.kept_front + length items.now.made.items + items.now.kept_back }
    ensures { result ≡ kept_of old_count items.now.kept_front items.now.made.items items.now.kept_back }
{
    KeptItems {
        front: items.kept_front,
        stop: count - items.kept_back,
        back: old_count - items.kept_back,
    }
}

// What is known to mean what it meant, where names mean other things and those that are edited are
// many.
fn same_views<'a>(
    alloc: Global,
    before: &'a Links,
    links: &'a NewLinks,
    edited: &Option<EditedNames<'_>>,
    kept: KeptItems,
) -> Result<Option<SameViews<'a>>, OutOfMemory>
    ensures { IfOk result (λ same. IfSome same (AreBoth before.now.outlines (links_now before.now links.now).outlines)) }
{
    if links.keeps_names() || edited.is_some() {
        return Ok(None);
    }
    let moved = Moved {
        front: kept.front,
        back: kept.back,
        stop: kept.stop,
    };
    let same = SameViews::of(alloc, before, links.after(before), moved)?;
    Ok(Some(same))
}

// The checks of the items that are to be checked anew, by what an edit makes of the links. Each is
// one tick.
fn checks_after(
    alloc: Global,
    editing: &Editing,
    tokens: &TokenList,
    parts: &[Part],
    made: &[Shared<Entry>],
    links: &NewLinks,
    work: &mut Count,
) -> Result<Vec<NewCheck>, OutOfMemory>
    requires editing { IsUnderWay editing.now }
    requires tokens { tokens.now ≡ tokens_of (text_in editing.now) }
    requires items { map (item_of_part tokens.now) parts.now ≡ items_of (text_in editing.now) }
    requires parts { All (IsPart (text_in editing.now) tokens.now) parts.now }
    requires made { AreEntriesIn editing.now made.now }
    requires links { AreLinks (old_in editing.now) (text_in editing.now) links.now }
    ensures checks { IfOk result (λ made. AreChecksMade (old_in editing.now) (text_in editing.now) (items_in editing.now).kept_front (nones (items_in editing.now).made.items) (items_in editing.now).kept_back made.items) }
    ensures stirred { IfOk result (λ made. length made.items ≡ stirred_of (edit_in editing.now)) }
    ensures ticks { IfOk result (λ made. work.new ≡ after_ticks work.old (length made.items)) }
{
    text_in_pieces();
    ends_in_order::<Tokens>();
    views_told_apart();
    equal_views();
    same_spelling_same_summary();
    let lists = editing.lists;
    let kept = kept_items(lists.checks.len(), &editing.changes.items, parts.len());
    let edited = edited_names(alloc, editing, &lists.entries, made)?;
    let same = same_views(alloc, &lists.links, links, &edited, kept)?;
    let both = BothLinks {
        before: &lists.links,
        after: links.after(&lists.links),
        keeps_names: links.keeps_names(),
        edited: &edited,
        same: &same,
        kept,
    };
    let made = recheck(alloc, editing.edit.text, tokens, parts, both, work)?;
    Ok(made)
}

// What an edit makes of the links and the checks of a text that has these items. Each check that is
// made is one tick.
fn recheck_after(
    alloc: Global,
    editing: &Editing,
    tokens: &TokenList,
    parts: &[Part],
    made: &[Shared<Entry>],
    work: &mut Count,
) -> Result<LinksAndChecks, OutOfMemory>
    requires editing { IsUnderWay editing.now }
    requires tokens { tokens.now ≡ tokens_of (text_in editing.now) }
    requires items { map (item_of_part tokens.now) parts.now ≡ items_of (text_in editing.now) }
    requires parts { All (IsPart (text_in editing.now) tokens.now) parts.now }
    requires made { AreEntriesIn editing.now made.now }
    ensures kept { IfOk result (AreLinksAndChecks (edit_in editing.now) (items_in editing.now)) }
    ensures stirred { IfOk result (λ r. length r.checks.made.items ≡ stirred_of (edit_in editing.now)) }
    ensures ticks { IfOk result (λ r. work.new ≡ after_ticks work.old (length r.checks.made.items)) }
{
    let links = relink(alloc, editing, tokens, parts, made)?;
    let vacant = vacant_for(alloc, &editing.changes.items.made)?;
    let made = checks_after(alloc, editing, tokens, parts, made, &links, work)?;
    let checks = NewChecks { vacant, made };
    Ok(LinksAndChecks { links, checks })
}

// What is shown of what is found in the new text, by its items and what is made of the links and
// the checks.
fn told_after(
    alloc: Global,
    editing: &Editing,
    cut: &CutText,
    parts: &[Part],
    made: &[Shared<Entry>],
    kept: &LinksAndChecks,
) -> Result<Told, OutOfMemory>
    requires editing { IsUnderWay editing.now }
    requires text { cut.now.text.now ≡ text_in editing.now }
    requires items { map (item_of_part cut.now.tokens.now) parts.now ≡ map (program_item cut.now.text.now) (members cut.now.tokens.now 0 cut.now.ends.now) }
    requires parts { All (IsPart cut.now.text.now cut.now.tokens.now) parts.now }
    requires made { AreEntriesIn editing.now made.now }
    requires kept { AreLinksAndChecks (edit_in editing.now) (items_in editing.now) kept.now }
    ensures shown { IfOk result (λ t. t.shown.items ≡ shown (text_in editing.now)) }
    ensures tables { IfOk result (λ t. t.tables ≡ tables_in (text_in editing.now)) }
    ensures warns { IfOk result (λ t. t.warns ≡ warns_in (text_in editing.now)) }
{
    let lists = editing.lists;
    let items = &editing.changes.items;
    let back = lists.checks.len() - items.kept_back;
    let checks = checks_in(
        alloc,
        &lists.checks,
        items.kept_front,
        &kept.checks.vacant,
        back,
        &kept.checks.made,
    )?;
    let links = kept.links.after(&lists.links);
    let faults = kept.links.faults(&lists.links);
    let kinds = kept.links.kinds(&lists.links);
    let known = kept_rows(editing, made);
    told_in(alloc, cut, parts, links, kinds, faults, &checks, known)
}

// What the new text says, by its items. Each check that is made is one tick.
fn retell_parts(
    alloc: Global,
    editing: &Editing,
    cut: &CutText,
    parts: &[Part],
    made: &[Shared<Entry>],
    work: &mut Count,
) -> Result<Retold, OutOfMemory>
    requires editing { IsUnderWay editing.now }
    requires text { cut.now.text.now ≡ text_in editing.now }
    requires items { map (item_of_part cut.now.tokens.now) parts.now ≡ map (program_item cut.now.text.now) (members cut.now.tokens.now 0 cut.now.ends.now) }
    requires parts { All (IsPart cut.now.text.now cut.now.tokens.now) parts.now }
    requires made { AreEntriesIn editing.now made.now }
    ensures told { IfOk result (IsRetold editing.now (shown (text_in editing.now))) }
    ensures ticks { IfOk result (λ r. work.new ≡ after_ticks work.old (length r.kept.checks.made.items)) }
{
    let kept = recheck_after(alloc, editing, cut.tokens, parts, made, work)?;
    let told = told_after(alloc, editing, cut, parts, made, &kept)?;
    Ok(Retold { told, kept })
}

// The same of the new text as it is cut, and what is kept of each item. That list is let go once the
// items are listed with it.
fn retell_cut(
    alloc: Global,
    editing: &Editing,
    cut: &CutText,
    entries: Vec<&Shared<Entry>>,
    made: &[Shared<Entry>],
    work: &mut Count,
) -> Result<Retold, OutOfMemory>
    requires editing { IsUnderWay editing.now }
    requires text { cut.now.text.now ≡ text_in editing.now }
    requires entries { map (λ e. e.now) entries.items ≡ entries_of cut.now.text.now }
    requires made { AreEntriesIn editing.now made.now }
    ensures told { IfOk result (IsRetold editing.now (shown (text_in editing.now))) }
    ensures ticks { IfOk result (λ r. work.new ≡ after_ticks work.old (length r.kept.checks.made.items)) }
{
    items_end_in_order();
    let parts = parts_along(alloc, cut.text, cut.tokens, cut.ends, entries.as_slice())?;
    drop(entries);
    retell_parts(alloc, editing, cut, &parts, made, work)
}

// The same by the tokens of the new text. What is listed of its items is let go here, before the
// findings are put in order.
fn retell(
    alloc: Global,
    editing: &Editing,
    tokens: &TokenList,
    made: &[Shared<Entry>],
    work: &mut Count,
) -> Result<Retold, OutOfMemory>
    requires editing { IsUnderWay editing.now }
    requires tokens { tokens.now ≡ tokens_of (text_in editing.now) }
    requires made { AreEntriesIn editing.now made.now }
    ensures told { IfOk result (IsRetold editing.now (shown (text_in editing.now))) }
    ensures ticks { IfOk result (λ r. work.new ≡ after_ticks work.old (length r.kept.checks.made.items)) }
{
    let lists = editing.lists;
    let edit = editing.edit;
    let changes = editing.changes;
    let items = &changes.items;
    let ends = lists.items.ends_after(alloc, edit, &changes.tokens, items)?;
    let back = lists.entries.len() - items.kept_back;
    let entries = values_after(alloc, &lists.entries, items.kept_front, made, back)?;
    let cut = CutText {
        text: edit.text,
        lines: editing.lines,
        tokens,
        ends: &ends,
    };
    retell_cut(alloc, editing, &cut, entries, made, work)
}

/// What the new text says, by its tokens and what is kept of the fresh items. What is shown is in
/// order. Each check that is made is one tick.
pub fn rejudge(
    alloc: Global,
    editing: &Editing,
    tokens: &TokenList,
    made: &[Shared<Entry>],
    work: &mut Count,
) -> Result<Retold, OutOfMemory>
    requires editing { IsUnderWay editing.now }
    requires tokens { tokens.now ≡ tokens_of (text_in editing.now) }
    requires made { AreEntriesIn editing.now made.now }
    ensures told { IfOk result (IsRetold editing.now (in_order (shown (text_in editing.now)))) }
    ensures ticks { IfOk result (λ r. work.new ≡ after_ticks work.old (length r.kept.checks.made.items)) }
{
    let Retold { told, kept } = retell(alloc, editing, tokens, made, work)?;
    let told = in_order(told)?;
    Ok(Retold { told, kept })
}
