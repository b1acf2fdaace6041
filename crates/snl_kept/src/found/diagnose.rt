//! The diagnostics of a program: its items come in, what their links find goes out; what is found
//! comes in, what is shown of it goes out, and with its lines. It knows nothing of tables.
#![tactic(auto)]

ghost use Rattle.std.specs.Prelude.{◌≡◌, ◌≤◌, ◌++◌, All, IfOk, OnOk, length, map, vec_capacity};
ghost use Rattle.snl_lex.specs.LineList.{IsLineList};
ghost use Rattle.snl_scope.specs.Linked.{faults_of};
ghost use Rattle.snl_kept.specs.Diagnostics.{diagnostic, on_line, shown_if};
ghost use Rattle.snl_kept.specs.Linked.{linked_faults, linked_of};
ghost use Rattle.snl_kept.specs.Parts.{IsPart, item_of_part};

use crate::found::findings::{Diagnostic, Finding};
use crate::found::linked::add_placed;
use crate::found::program::Part;
use snl_cut::OutOfMemory;
use snl_items::TokenList;
use snl_lex::{Line, LineList};
use snl_scope::LinkFault;
use std::alloc::Global;

/// Takes the warnings out, unless they are shown.
pub fn keep_shown(warns: bool, found: &mut Vec<Finding>)
    ensures { found.new.items ≡ shown_if warns found.old.items }
{
    if !warns {
        found.retain(|x| x.code.is_error());
    }
}

/// Adds what is found by the links of items.
pub fn add_linked_faults(
    text: &[u8],
    tokens: &TokenList,
    parts: &[Part],
    faults: &[LinkFault],
    found: &mut Vec<Finding>,
) -> Result<(), OutOfMemory>
    requires parts { All (IsPart text.now tokens.now) parts.now }
    requires faults { faults.now ≡ faults_of (linked_of text.now (map (item_of_part tokens.now) parts.now)) }
    ensures { OnOk result (found.new.items ≡ found.old.items ++ linked_faults text.now (map (item_of_part tokens.now) parts.now)) }
{
    add_placed(text, tokens, parts, faults, found)
}

fn on_line(finding: Finding, line: Line) -> Diagnostic
    ensures { result ≡ on_line finding line }
{
    Diagnostic {
        offset: finding.offset,
        line: line.number,
        file: line.file,
        code: finding.code,
        subject: finding.subject,
    }
}

/// Findings, each with its line.
pub fn on_lines(
    alloc: Global,
    text: &[u8],
    lines: &LineList,
    found: &[Finding],
) -> Result<Vec<Diagnostic>, OutOfMemory>
    requires { IsLineList text.now lines.now }
    ensures { IfOk result (λ v. v.items ≡ map (diagnostic text.now) found.now) }
{
    let mut diagnostics = Vec::with_capacity(alloc, found.len())?;
    for finding in found {
        diagnostics.push(on_line(*finding, lines.line_by(text, finding.offset)))?;
    }
    Ok(diagnostics)
}

/// Makes room for so many diagnostics in all. An error leaves them as they were.
pub fn make_room(found: &mut Vec<Diagnostic>, count: usize) -> Result<(), OutOfMemory>
    ensures found { found.new.items ≡ found.old.items }
    ensures room { OnOk result (count ≤ vec_capacity found.new) }
{
    found.reserve(count.saturating_sub(found.len()))?;
    Ok(())
}

/// Puts findings, each with its line, in the place of other diagnostics. There is room for them, so
/// it can't fail.
pub fn put_on_lines(
    text: &[u8],
    lines: &LineList,
    findings: &[Finding],
    found: &mut Vec<Diagnostic>,
)
    requires lines { IsLineList text.now lines.now }
    requires room { length findings.now ≤ vec_capacity found.old }
    ensures { found.new.items ≡ map (diagnostic text.now) findings.now }
{
    found.clear();
    for finding in findings {
        found.push_reserved(on_line(*finding, lines.line_by(text, finding.offset)));
    }
}
