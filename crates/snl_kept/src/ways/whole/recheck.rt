//! The checks that an edit makes: the items of the new text and the links before and after the edit
//! come in, the checks of the items that are to be checked anew go out. It knows nothing of the
//! rules.
#![tactic(auto)]

ghost use Rattle.std.specs.Prelude.{◌≡◌, ◌+◌, ◌-◌, ◌^◌, ◌<◌, ℕ, All, IfOk, IfSome, IsTrue, length, map, true};
ghost use Rattle.snl_cut.specs.Cut.{after_ticks};
ghost use Rattle.snl_lex.specs.Pieces.{LiesIn};
ghost use Rattle.snl_scope.specs.Spoken.{KeepsViews};
ghost use Rattle.snl_scope.specs.View.{view};
ghost use Rattle.snl_summary.specs.declared.summary.Summary.{Summary};
ghost use Rattle.snl_views.specs.SameMeanings.{AreBoth};
ghost use Rattle.snl_kept.specs.Parts.{IsPart, spelled_part};
ghost use Rattle.snl_kept.specs.NewChecks.{made_at, made_checks, made_for, number_before, sees_as_before};

use crate::found::program::Part;
use crate::kept_checks::{add_made, clean_check};
use crate::plan::NewCheck;
use snl_cut::{Count, OutOfMemory};
use snl_item_check::{Checked, check_item};
use snl_items::TokenList;
use snl_lex::Piece;
use snl_scope::{EditedNames, Links, Summary, same_spelling_same_summary};
use snl_views::{SameViews, same_view, views_told_apart};
use std::alloc::Global;

/// Which items of the new text are kept: those before `front`, with their numbers, and those from
/// `stop` on, with the numbers from `back` on.
#[derive(Clone, Copy)]
pub struct KeptItems {
    pub front: usize,
    pub stop: usize,
    pub back: usize,
}

/// What names mean before an edit and after it, whether that is known to be the same, the names
/// that its items speak of, if these are few, what else is known to mean the same, and which items
/// are kept.
#[derive(Clone, Copy)]
pub struct BothLinks<'a, 'e> {
    pub before: &'a Links,
    pub after: &'a Links,
    pub keeps_names: bool,
    pub edited: &'a Option<EditedNames<'e>>,
    pub same: &'a Option<SameViews<'e>>,
    pub kept: KeptItems,
}

impl KeptItems {
    // The number that an item had before the edit, if it is kept.
    fn number_before(self, item: usize) -> Option<usize>
        requires { (item - self.stop) + self.back < 2 ^ 64 }
        ensures { result ≡ number_before self item }
    {
        if item < self.front {
            Some(item)
        } else if item < self.stop {
            None
        } else {
            Some(item - self.stop + self.back)
        }
    }
}

impl BothLinks<'_, '_> {
    // Whether an item is known to see what it saw, whatever it uses. `before` is its number before
    // the edit.
    fn is_known(self, before: usize, item: usize) -> bool
        requires { IfSome self.same.now (AreBoth self.before.now.outlines self.after.now.outlines) }
        ensures { IsTrue result → (s : Summary) → view self.entry.before.now.outlines before s ≡ view self.entry.after.now.outlines item s }
    {
        match self.same {
            Some(same) => same.is_known(before, item),
            None => false,
        }
    }

    // Whether an item that keeps its number is known to see what it saw: it uses no name of the
    // items of the edit.
    fn is_known_to_keep(self, summary: &Summary) -> bool
        requires names { IsTrue self.keeps_names → self.before.now.outlines ≡ self.after.now.outlines }
        requires edited { IfSome self.edited.now (KeepsViews self.before.now.outlines self.after.now.outlines) }
        ensures { IsTrue result → (i : ℕ) → view self.entry.before.now.outlines i summary.now ≡ view self.entry.after.now.outlines i summary.now }
    {
        if self.keeps_names {
            return true;
        }
        match self.edited {
            Some(names) => !names.touch(summary),
            None => false,
        }
    }
}

// Whether an item is known to see of the others what it saw before the edit, whatever it uses.
fn is_known_as_before(both: BothLinks, item: usize) -> bool
    requires few { (item - both.kept.stop) + both.kept.back < 2 ^ 64 }
    requires same { IfSome both.same.now (AreBoth both.before.now.outlines both.after.now.outlines) }
    ensures { IsTrue result → (s : Summary) → sees_as_before both.entry.before.now.outlines (number_before both.entry.kept item) both.entry.after.now.outlines item s ≡ true }
{
    views_told_apart();
    match both.kept.number_before(item) {
        Some(number) => both.is_known(number, item),
        None => false,
    }
}

// Whether an item sees of the others what it saw before the edit. A fresh one saw nothing.
fn sees_as_before(both: BothLinks, item: usize, summary: &Summary) -> bool
    requires few { (item - both.kept.stop) + both.kept.back < 2 ^ 64 }
    requires names { IsTrue both.keeps_names → both.before.now.outlines ≡ both.after.now.outlines }
    requires edited { IfSome both.edited.now (KeepsViews both.before.now.outlines both.after.now.outlines) }
    requires same { IfSome both.same.now (AreBoth both.before.now.outlines both.after.now.outlines) }
    ensures { result ≡ sees_as_before both.entry.before.now.outlines (number_before both.entry.kept item) both.entry.after.now.outlines item summary.now }
{
    views_told_apart();
    match both.kept.number_before(item) {
        Some(number) => {
            number == item && both.is_known_to_keep(summary)
                || same_view(both.before, number, both.after, item, summary)
        }
        None => false,
    }
}

// The check of an item, if it is to be made. Then its tokens are listed.
fn check_anew(
    alloc: Global,
    text: &[u8],
    tokens: &TokenList,
    part: &Part,
    both: BothLinks,
    item: usize,
    own: &mut Vec<Piece>,
    work: &mut Count,
) -> Result<Option<Checked>, OutOfMemory>
    requires tokens { All (LiesIn text.now) tokens.now }
    requires part { IsPart text.now tokens.now part.now }
    requires few { (item - both.kept.stop) + both.kept.back < 2 ^ 64 }
    requires names { IsTrue both.keeps_names → both.before.now.outlines ≡ both.after.now.outlines }
    requires edited { IfSome both.edited.now (KeepsViews both.before.now.outlines both.after.now.outlines) }
    requires same { IfSome both.same.now (AreBoth both.before.now.outlines both.after.now.outlines) }
    ensures made { IfOk result (λ c. made_at item c ≡ made_for both.entry.before.now.outlines both.entry.after.now.outlines both.entry.kept (item, spelled_part text.now tokens.now part.now)) }
    ensures ticks { IfOk result (λ c. work.new ≡ after_ticks work.old (length (made_at item c))) }
{
    same_spelling_same_summary();
    // the entry is read only where that is wanted
    if is_known_as_before(both, item) {
        return Ok(None);
    }
    let Some(tree) = part.entry.parsed.tree() else {
        return Ok(None);
    };
    if sees_as_before(both, item, &part.entry.summary) {
        return Ok(None);
    }
    tokens.list(alloc, part.start as usize, part.stop as usize, own)?;
    let checked = check_item(alloc, text, own, tree, both.after, item, work)?;
    Ok(Some(checked))
}

/// The checks of the items that are to be checked anew. Each is one tick.
pub fn recheck(
    alloc: Global,
    text: &[u8],
    tokens: &TokenList,
    parts: &[Part],
    both: BothLinks,
    work: &mut Count,
) -> Result<Vec<NewCheck>, OutOfMemory>
    requires tokens { All (LiesIn text.now) tokens.now }
    requires parts { All (IsPart text.now tokens.now) parts.now }
    requires few { (length parts.now - both.kept.stop) + both.kept.back < 2 ^ 64 }
    requires names { IsTrue both.keeps_names → both.before.now.outlines ≡ both.after.now.outlines }
    requires edited { IfSome both.edited.now (KeepsViews both.before.now.outlines both.after.now.outlines) }
    requires same { IfSome both.same.now (AreBoth both.before.now.outlines both.after.now.outlines) }
    ensures made { IfOk result (λ made. made.items ≡ made_checks both.entry.before.now.outlines both.entry.after.now.outlines both.entry.kept (map (spelled_part text.now tokens.now) parts.now)) }
    ensures ticks { IfOk result (λ made. work.new ≡ after_ticks work.old (length made.items)) }
{
    let clean = clean_check(alloc)?;
    let fresh = both.kept.stop.saturating_sub(both.kept.front);
    let mut made = Vec::with_capacity(alloc, fresh)?;
    let mut own = Vec::new(alloc);
    for (item, part) in parts.iter().enumerate() {
        let check = check_anew(alloc, text, tokens, part, both, item, &mut own, work)?;
        add_made(alloc, item, check, &clean, &mut made)?;
    }
    Ok(made)
}
