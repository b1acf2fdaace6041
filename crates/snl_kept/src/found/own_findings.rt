//! What is found after an edit inside one item: what is found at the item itself before the edit
//! and after it and the diagnostics before it come in, the findings after it go out. It knows
//! nothing of how the items are told apart, nor of lines.
#![tactic(auto)]

ghost use Rattle.std.specs.Prelude.{◌≡◌, ℕ, ◌<◌, ◌++◌, All, IfOk, List, OnOk, length, map};
ghost use Rattle.std.specs.List.{position};
ghost use Rattle.snl_lex.specs.PieceList.{spelled};
ghost use Rattle.snl_lex.specs.Pieces.{LiesIn};
ghost use Rattle.snl_grammar.specs.Outcome.{parsed_by};
ghost use Rattle.snl_summary.specs.declared.summary.Outline.{Outline};
ghost use Rattle.snl_kept.specs.Checks.{check_by};
ghost use Rattle.snl_kept.specs.ReplacedItem.{own_findings};
ghost use Rattle.snl_kept.specs.OwnFindings.{IsOwnCheck, found_around, is_same, taken_out, without};
ghost use Rattle.snl_kept.specs.Program.{program_item};
ghost use Rattle.snl_kept.specs.Shifted.{finding_of, shifted_finding};

use crate::found::checks::add_item;
use crate::found::findings::{Diagnostic, Finding};
use crate::found::order::{is_same, sort};
use crate::found::program::fault_at;
use snl_cut::OutOfMemory;
use snl_grammar::{Parsed, outcome_told, same_spelling_same_tree};
use snl_item_check::{Checked, faults_stand_in_tokens};
use snl_lex::{Piece, Shift};
use snl_scope::same_spelling_same_summary;
use std::alloc::Global;

/// What is found at an item that consists of these tokens: where the parser left it faulty, and by
/// its check.
pub fn own_findings(
    alloc: Global,
    text: &[u8],
    own: &[Piece],
    parsed: &Parsed,
    check: &Option<Checked>,
) -> Result<Vec<Finding>, OutOfMemory>
    requires some { 0 < length own.now }
    requires tokens { All (LiesIn text.now) own.now }
    requires parsed { parsed.now ≡ parsed_by (spelled text.now own.now) }
    requires check { IsOwnCheck text.now own.now check.now }
    ensures { IfOk result (λ v. (ss : List Outline) (i : ℕ) → check.now ≡ check_by ss i (spelled text.now own.now) → v.items ≡ own_findings text.now ss i (program_item text.now own.now)) }
{
    outcome_told();
    same_spelling_same_tree();
    same_spelling_same_summary();
    faults_stand_in_tokens();
    let mut found = Vec::new(alloc);
    if let Some(fault) = fault_at(own, parsed) {
        found.push(fault)?;
    }
    add_item(own, check, &mut found)?;
    Ok(found)
}

// Where the first of the findings is that is the same.
fn place_of(finding: &Finding, found: &[Finding]) -> Option<usize>
    ensures { result ≡ position (is_same finding.now) found.now }
{
    found.iter().position(|other| is_same(finding, other))
}

fn take_out(finding: &Finding, found: &mut Vec<Finding>)
    ensures { found.new.items ≡ taken_out finding.now found.old.items }
{
    if let Some(place) = place_of(finding, found) {
        found.remove(place);
    }
}

fn take_out_all(gone: &[Finding], found: &mut Vec<Finding>)
    ensures { found.new.items ≡ without gone.now found.old.items }
{
    for finding in gone {
        take_out(finding, found);
    }
}

// The diagnostics without their lines.
fn findings_of(alloc: Global, found: &[Diagnostic]) -> Result<Vec<Finding>, OutOfMemory>
    ensures { IfOk result (λ v. v.items ≡ map finding_of found.now) }
{
    let mut findings = Vec::new(alloc);
    for diagnostic in found {
        findings.push(Finding {
            offset: diagnostic.offset,
            code: diagnostic.code,
            subject: diagnostic.subject,
        })?;
    }
    Ok(findings)
}

fn shifted_finding(shift: Shift, finding: Finding) -> Finding
    ensures { result ≡ shifted_finding shift finding }
{
    Finding {
        offset: shift.offset(finding.offset),
        ..finding
    }
}

fn shift_findings(found: &mut [Finding], shift: Shift)
    ensures { found.new ≡ map (shifted_finding shift) found.old }
{
    for finding in found.iter_mut() {
        *finding = shifted_finding(shift, *finding);
    }
}

// What was found, but for what is gone, is shifted.
fn shifted_without(
    alloc: Global,
    found: &[Diagnostic],
    shift: Shift,
    gone: &[Finding],
) -> Result<Vec<Finding>, OutOfMemory>
    ensures { IfOk result (λ v. v.items ≡ map (shifted_finding shift) (without gone.now (map finding_of found.now))) }
{
    let mut left = findings_of(alloc, found)?;
    take_out_all(gone, &mut left);
    shift_findings(&mut left, shift);
    Ok(left)
}

/// Adds findings to others.
pub fn add_all(come: &[Finding], found: &mut Vec<Finding>) -> Result<(), OutOfMemory>
    ensures { OnOk result (found.new.items ≡ found.old.items ++ come.now) }
{
    for finding in come {
        found.push(*finding)?;
    }
    Ok(())
}

/// The findings after an edit inside one item, in order: the diagnostics before it without what is
/// gone, shifted, and what has come. Each of those that are gone is looked for, so there should be
/// few.
pub fn findings_around(
    alloc: Global,
    found: &[Diagnostic],
    shift: Shift,
    gone: &[Finding],
    come: &[Finding],
) -> Result<Vec<Finding>, OutOfMemory>
    ensures { IfOk result (λ v. v.items ≡ found_around shift gone.now come.now (map finding_of found.now)) }
{
    let mut around = shifted_without(alloc, found, shift, gone)?;
    add_all(come, &mut around)?;
    sort(&mut around)?;
    Ok(around)
}
