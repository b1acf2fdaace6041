//! The tables of a program: its items and their links come in, rows go out.
//! It knows nothing of what is found.
#![tactic(auto)]

ghost use Rattle.std.specs.Prelude.{◌≡◌, IfOk, IfSome, length, map};
ghost use Rattle.snl_lex.specs.LineList.{IsLineList};
ghost use Rattle.snl_lex.specs.Pieces.{tokens_of};
ghost use Rattle.snl_item_check.specs.Items.{IsCutUp, outlines_of, program_items};
ghost use Rattle.snl_check.specs.KnownRows.{AreKnown};
ghost use Rattle.snl_check.specs.Tables.{tables_of};
ghost use Rattle.snl_item_check.specs.Told.{told_kept, told_seen};
ghost use Rattle.snl_kept.specs.Checks.{checks_over};
ghost use Rattle.snl_kept.specs.Parts.{AreSeen, item_of_part, tree_of_part};

use crate::found::program::Part;
use crate::found::seen::SeenItems;
use crate::shared::Shared;
use snl_check::{KnownRows, Tables, tables_by_tokens};
use snl_cut::OutOfMemory;
use snl_item_check::Checked;
use snl_items::TokenList;
use snl_lex::LineList;
use snl_scope::Links;
use std::alloc::Global;

// What the check of an item gave, if it isn't faulty.
fn told_by<'a>(check: &'a Option<Checked>) -> Option<&'a Checked>
    ensures { told_seen result ≡ told_kept check.now }
{
    match check {
        Some(checked) => Some(checked),
        None => None,
    }
}

// What the check of each item gave, if it isn't faulty.
fn told_checks<'a>(
    alloc: Global,
    checks: &[&'a Shared<Option<Checked>>],
) -> Result<Vec<Option<&'a Checked>>, OutOfMemory>
    ensures { IfOk result (λ told. map told_seen told.items ≡ map told_kept (map (λ c. c.now) checks.now)) }
{
    let mut told = Vec::with_capacity(alloc, checks.len())?;
    for check in checks {
        told.push(told_by(check.get()))?;
    }
    Ok(told)
}

// The same ends, as the machine counts.
fn widened(alloc: Global, ends: &[u32]) -> Result<Vec<usize>, OutOfMemory>
    ensures { IfOk result (λ w. w.items ≡ ends.now) }
{
    let mut wide = Vec::with_capacity(alloc, ends.len())?;
    for end in ends {
        wide.push(*end as usize)?;
    }
    Ok(wide)
}

/// The tables of a program. `ends` has, for each item, the number of the token after it. Rows
/// that are known are copied.
pub fn tables_of(
    alloc: Global,
    text: &[u8],
    lines: &LineList,
    tokens: &TokenList,
    ends: &[u32],
    parts: &[Part],
    seen: &SeenItems,
    links: &Links,
    checks: &[&Shared<Option<Checked>>],
    known: Option<KnownRows>,
) -> Result<Tables, OutOfMemory>
    requires lines { IsLineList text.now lines.now }
    requires tokens { tokens.now ≡ tokens_of text.now }
    requires cut { IsCutUp text.now tokens.now ends.now (length parts.now) }
    requires items { program_items tokens.now ends.now (map tree_of_part parts.now) ≡ map (item_of_part tokens.now) parts.now }
    requires seen { AreSeen parts.now seen.now }
    requires links { links.now.outlines ≡ outlines_of text.now (map (item_of_part tokens.now) parts.now) }
    requires checks { map (λ c. c.now) checks.now ≡ checks_over text.now (map (item_of_part tokens.now) parts.now) }
    requires known { IfSome known (λ k. AreKnown k (tables_of text.now (map (item_of_part tokens.now) parts.now))) }
    ensures { IfOk result (λ t. t ≡ tables_of text.now (map (item_of_part tokens.now) parts.now)) }
{
    let ends = widened(alloc, ends)?;
    let told = told_checks(alloc, checks)?;
    let SeenItems { trees, kinds } = seen;
    let tables = tables_by_tokens(
        alloc, text, lines, tokens, &ends, trees, kinds, links, &told, known,
    )?;
    Ok(tables)
}
