//! What is found in each item by itself: the items of a program and what the check of each gave
//! come in, findings at offsets go out. It knows nothing of the rules.
#![tactic(auto)]

ghost use Rattle.std.specs.Prelude.{◌≡◌, ◌++◌, All, OnOk, map};
ghost use Rattle.snl_lex.specs.Pieces.{LiesIn};
ghost use Rattle.snl_kept.specs.Checked.{HasOffset, at_own_token, checked_faults, faults_kept};
ghost use Rattle.snl_kept.specs.Checks.{checks_over};
ghost use Rattle.snl_kept.specs.Parts.{IsPart, item_of_part, tokens_of_part};

use crate::found::findings::Finding;
use crate::found::linked::finding_at;
use crate::found::program::Part;
use crate::shared::Shared;
use snl_cut::OutOfMemory;
use snl_item_check::{Checked, ItemFault, faults_stand_in_tokens};
use snl_items::TokenList;
use snl_lex::Piece;
use std::alloc::Global;

// A finding of an item, at its byte in its token.
fn at_own_token(own: &[Piece], fault: ItemFault) -> Finding
    requires { HasOffset own.now fault }
    ensures { result ≡ at_own_token own.now fault }
{
    let found = finding_at(fault.code, own.get(fault.token).copied());
    Finding {
        offset: found.offset + fault.byte,
        ..found
    }
}

// Adds findings of an item, at their tokens.
fn add_at_tokens(
    own: &[Piece],
    faults: &[ItemFault],
    found: &mut Vec<Finding>,
) -> Result<(), OutOfMemory>
    requires { All (HasOffset own.now) faults.now }
    ensures { OnOk result (found.new.items ≡ found.old.items ++ map (at_own_token own.now) faults.now) }
{
    for fault in faults {
        found.push(at_own_token(own, *fault))?;
    }
    Ok(())
}

/// Adds what the check of an item has found.
pub fn add_item(
    own: &[Piece],
    check: &Option<Checked>,
    found: &mut Vec<Finding>,
) -> Result<(), OutOfMemory>
    requires { All (HasOffset own.now) (faults_kept check.now) }
    ensures { OnOk result (found.new.items ≡ found.old.items ++ map (at_own_token own.now) (faults_kept check.now)) }
{
    if let Some(checked) = check {
        add_at_tokens(own, checked.faults.as_slice(), found)?;
    }
    Ok(())
}

// Adds what the check of an item has found. Its tokens are listed where that is something.
fn add_found(
    alloc: Global,
    text: &[u8],
    tokens: &TokenList,
    part: &Part,
    check: &Option<Checked>,
    own: &mut Vec<Piece>,
    found: &mut Vec<Finding>,
) -> Result<(), OutOfMemory>
    requires part { IsPart text.now tokens.now part.now }
    requires offsets { All (HasOffset (tokens_of_part tokens.now part.now)) (faults_kept check.now) }
    ensures { OnOk result (found.new.items ≡ found.old.items ++ map (at_own_token (tokens_of_part tokens.now part.now)) (faults_kept check.now)) }
{
    let Some(checked) = check else {
        return Ok(());
    };
    let faults = checked.faults.as_slice();
    if faults.is_empty() {
        return Ok(());
    }
    tokens.list(alloc, part.start as usize, part.stop as usize, own)?;
    add_at_tokens(own, faults, found)
}

/// Adds what is found in each item by itself, as the check of each gave it.
pub fn add_checked_faults(
    alloc: Global,
    text: &[u8],
    tokens: &TokenList,
    parts: &[Part],
    checks: &[&Shared<Option<Checked>>],
    found: &mut Vec<Finding>,
) -> Result<(), OutOfMemory>
    requires tokens { All (LiesIn text.now) tokens.now }
    requires parts { All (IsPart text.now tokens.now) parts.now }
    requires checks { map (λ c. c.now) checks.now ≡ checks_over text.now (map (item_of_part tokens.now) parts.now) }
    ensures { OnOk result (found.new.items ≡ found.old.items ++ checked_faults text.now (map (item_of_part tokens.now) parts.now)) }
{
    faults_stand_in_tokens();
    let mut own = Vec::new(alloc);
    for (item, part) in parts.iter().enumerate() {
        let check = checks[item].get();
        add_found(alloc, text, tokens, part, check, &mut own, found)?;
    }
    Ok(())
}
