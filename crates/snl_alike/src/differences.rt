//! Whether a text says after replacements what it said. In: a text, what is kept of it, and the
//! replacements. Out: the first thing that differs, if one does. The new text is compiled on the
//! side, and nothing that is kept is changed.

ghost use Rattle.std.specs.Prelude.{◌≡◌, ℕ, IfNone, IfOk, IsTrue, List, map};
ghost use Rattle.snl_kept.specs.Kept.{IsKept, IsListed};
ghost use Rattle.snl_questions.specs.Mentions.{mentions_in};
ghost use Rattle.snl_alike.specs.Edits.{edits_of, moved_stop};
ghost use Rattle.snl_alike.specs.Moved.{edits_in};
ghost use Rattle.snl_alike.specs.Same.{AreAlike, SameBut, SaysTheSame};

use crate::edited_text::edited;
use crate::findings::{FindingChange, findings_become, first_finding_change};
use crate::mentions::{first_changed, same_mentions};
use crate::moves::Moves;
use crate::moving::{all_become, are_same};
use crate::replacement::{Replacement, rise};
use crate::tables::{TablePart, changed_part};
use snl_cut::OutOfMemory;
use snl_kept::{Kept, Lists};
use snl_questions::{TokenPlace, all_mentions};
use std::alloc::Global;

/// The largest text that is compiled: 1 MiB.
const LARGEST: usize = 1 << 20;

/// What differs.
#[derive(Clone, Copy, Debug, PartialEq, Eq)]
pub enum Difference {
    /// The replacements don't follow one another in the text.
    Order,
    /// The text would be over 1 MiB.
    Large,
    /// It would be cut into other pieces.
    Pieces,
    /// Mentions, first at this token of an item.
    Meaning(Option<TokenPlace>),
    /// Findings.
    Finding(Option<FindingChange>),
    /// Tables.
    Table(TablePart),
}

// Whether the pieces are the same, but for their places, and the items are cut alike.
fn same_pieces(old: &Lists, moves: &Moves<'_>, new: &Lists) -> bool
    ensures kinds { IsTrue result → new.now.pieces.kinds.items ≡ old.now.pieces.kinds.items }
    ensures ends { IsTrue result → new.now.pieces.ends.items
        ≡ map (moved_stop (edits_in moves.now)) old.now.pieces.ends.items }
    ensures items { IsTrue result → new.now.items.ends.items ≡ old.now.items.ends.items }
{
    are_same(&old.pieces.kinds, &new.pieces.kinds)
        && all_become(&old.pieces.ends, moves, &new.pieces.ends)
        && are_same(&old.items.ends, &new.items.ends)
}

// Whether both texts mention the same, with the first place where they don't.
fn changed_meaning(
    alloc: Global,
    old: &[u8],
    old_lists: &Lists,
    new: &[u8],
    new_lists: &Lists,
) -> Result<Option<Difference>, OutOfMemory>
    requires old { IsListed old.now old_lists.now }
    requires new { IsListed new.now new_lists.now }
    ensures { IfOk result (λ d. IfNone d (mentions_in new.now ≡ mentions_in old.now)) }
{
    let old_mentions = all_mentions(alloc, old, old_lists)?;
    let new_mentions = all_mentions(alloc, new, new_lists)?;
    if same_mentions(&old_mentions, &new_mentions) {
        return Ok(None);
    }
    Ok(Some(Difference::Meaning(first_changed(&old_mentions, &new_mentions))))
}

/// The first finding or row that differs, if one does.
pub fn changed_answers(old: &Kept, moves: &Moves<'_>, new: &Kept) -> Option<Difference>
    ensures { (text new_text : List ℕ) → IsKept text old.now → IsKept new_text new.now
        → IfNone result (SameBut text (edits_in moves.now) new_text) }
{
    if !findings_become(&old.found, moves, &new.found) {
        let change = first_finding_change(&old.found, moves, &new.found);
        return Some(Difference::Finding(change));
    }
    let part = changed_part(&old.tables, moves, &new.tables)?;
    Some(Difference::Table(part))
}

// What differs between a text and another one that replacements make of it.
fn compared(
    alloc: Global,
    old: &[u8],
    old_kept: &Kept,
    moves: &Moves<'_>,
    new: &[u8],
    new_kept: &Kept,
) -> Result<Option<Difference>, OutOfMemory>
    requires old { IsKept old.now old_kept.now }
    requires new { IsKept new.now new_kept.now }
    ensures { IfOk result (λ d. IfNone d (AreAlike old.now (edits_in moves.now) new.now)) }
{
    if !same_pieces(&old_kept.lists, moves, &new_kept.lists) {
        return Ok(Some(Difference::Pieces));
    }
    if let Some(meaning) = changed_meaning(alloc, old, &old_kept.lists, new, &new_kept.lists)? {
        return Ok(Some(meaning));
    }
    Ok(changed_answers(old_kept, moves, new_kept))
}

/// The first thing that a text would say otherwise after replacements, if there is one: what its
/// tokens mean, what is found, what its tables say. The only error is want of memory; the time is
/// that of a text that is opened.
pub fn first_difference(
    alloc: Global,
    text: &[u8],
    kept: &Kept,
    replacements: &[Replacement<'_>],
) -> Result<Option<Difference>, OutOfMemory>
    requires { IsKept text.now kept.now }
    ensures { IfOk result (λ d. IfNone d (SaysTheSame text.now (edits_of replacements.now))) }
{
    if !rise(replacements, text.len()) {
        return Ok(Some(Difference::Order));
    }
    let new = edited(alloc, text, replacements)?;
    if new.text.len() > LARGEST {
        return Ok(Some(Difference::Large));
    }
    let (new_kept, _) = Kept::over(alloc, &new.text)?;
    let moves = Moves::of(text, replacements, &new);
    compared(alloc, text, kept, &moves, &new.text, &new_kept)
}
