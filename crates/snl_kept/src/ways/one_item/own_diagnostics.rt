//! The diagnostics after an edit inside one item: what is kept of the item before the edit and
//! after it and what changes in the rows come in; the diagnostics, of which few come and go, go
//! out.
#![tactic(auto)]

ghost use Rattle.std.specs.Prelude.{◌≡◌, ◌<◌, ℕ, All, IfOk, List, length, map};
ghost use Rattle.snl_lex.specs.LineList.{IsLineList};
ghost use Rattle.snl_lex.specs.PieceList.{spelled};
ghost use Rattle.snl_lex.specs.Pieces.{LiesIn};
ghost use Rattle.snl_summary.specs.declared.summary.Outline.{Outline};
ghost use Rattle.snl_kept.specs.OneItem.{IsOneItemEdit, item_of, old_of, outlines_by, text_of};
ghost use Rattle.snl_kept.specs.Checks.{check_by, outlines_in};
ghost use Rattle.snl_kept.specs.Diagnostics.{diagnostic, shown_if};
ghost use Rattle.snl_kept.specs.Entries.{entry_by};
ghost use Rattle.snl_kept.specs.ItemPlan.{diagnostics_by};
ghost use Rattle.snl_kept.specs.OwnFindings.{IsOwnCheck, found_around};
ghost use Rattle.snl_kept.specs.Program.{program_item};
ghost use Rattle.snl_kept.specs.ReplacedItem.{own_findings};
ghost use Rattle.snl_kept.specs.Shifted.{finding_of};

use crate::editing::Editing;
use crate::entries::Entry;
use crate::found::diagnose::{keep_shown, on_lines};
use crate::found::findings::{Diagnostic, Finding};
use crate::found::own_findings::{findings_around, own_findings};
use crate::plan::RowChange;
use crate::ways::one_item::replaced::{OldItem, OneItem};
use crate::ways::one_item::set_findings::{add_shown_come, add_shown_gone};
use snl_cut::OutOfMemory;
use snl_item_check::Checked;
use snl_lex::{LineList, Piece, Shift};
use std::alloc::Global;

// What is found at an item, as far as it is shown.
fn own_shown(
    alloc: Global,
    text: &[u8],
    own: &[Piece],
    entry: &Entry,
    check: &Option<Checked>,
    warns: bool,
) -> Result<Vec<Finding>, OutOfMemory>
    requires some { 0 < length own.now }
    requires within { All (LiesIn text.now) own.now }
    requires entry { entry.now ≡ entry_by (spelled text.now own.now) }
    requires check { IsOwnCheck text.now own.now check.now }
    ensures { IfOk result (λ v. (ss : List Outline) (i : ℕ) → check.now ≡ check_by ss i (spelled text.now own.now) → v.items ≡ shown_if warns (own_findings text.now ss i (program_item text.now own.now))) }
{
    let mut found = own_findings(alloc, text, own, &entry.parsed, check)?;
    keep_shown(warns, &mut found);
    Ok(found)
}

// The diagnostics of the new text: what was found at the item goes, what is found at it comes, the
// others are shifted.
fn diagnostics_around(
    alloc: Global,
    found: &[Diagnostic],
    text: &[u8],
    lines: &LineList,
    shift: Shift,
    gone: &[Finding],
    come: &[Finding],
) -> Result<Vec<Diagnostic>, OutOfMemory>
    requires lines { IsLineList text.now lines.now }
    ensures { IfOk result (λ v. v.items ≡ map (diagnostic text.now) (found_around shift gone.now come.now (map finding_of found.now))) }
{
    let findings = findings_around(alloc, found, shift, gone, come)?;
    on_lines(alloc, text, lines, &findings)
}

/// The diagnostics of the new text, by what is found at the item and in the states of its set
/// before the edit and after it.
pub fn own_diagnostics(
    alloc: Global,
    one: &OneItem,
    was: OldItem,
    made: &Entry,
    check: &Option<Checked>,
    change: &RowChange,
) -> Result<Vec<Diagnostic>, OutOfMemory>
    requires one { IsOneItemEdit one.now }
    requires was_some { 0 < length one.now.own.now.was.items }
    requires was_within { All (LiesIn (old_of one.now)) one.now.own.now.was.items }
    requires was_spelled { was.entry.now ≡ entry_by (spelled (old_of one.now) one.now.own.now.was.items) }
    requires was_checked { was.check.now ≡ check_by (outlines_by one.now) (item_of one.now) (spelled (old_of one.now) one.now.own.now.was.items) }
    requires some { 0 < length one.now.own.now.is.items }
    requires within { All (LiesIn (text_of one.now)) one.now.own.now.is.items }
    requires spelled { made.now ≡ entry_by (spelled (text_of one.now) one.now.own.now.is.items) }
    requires checked { check.now ≡ check_by (outlines_in (text_of one.now)) (item_of one.now) (spelled (text_of one.now) one.now.own.now.is.items) }
    ensures { IfOk result (λ v. v.items ≡ diagnostics_by (old_of one.now) (text_of one.now) (outlines_by one.now) (outlines_in (text_of one.now)) one.now.editing.lists.now.warns one.now.shift.by (item_of one.now) one.now.own.now one.now.editing.tables.now change.now (map finding_of one.now.editing.found.now)) }
{
    let Editing {
        lists,
        tables,
        found,
        edit,
        lines,
        ..
    } = one.editing;
    let (own, shift) = (one.own, one.shift.by);
    let warns = lists.warns;
    let mut gone = own_shown(alloc, edit.old, &own.was, was.entry, was.check, warns)?;
    add_shown_gone(alloc, warns, tables, change, &mut gone)?;
    let mut come = own_shown(alloc, edit.text, &own.is, made, check, warns)?;
    add_shown_come(alloc, warns, tables, change, shift, &mut come)?;
    diagnostics_around(alloc, found, edit.text, lines, shift, &gone, &come)
}
