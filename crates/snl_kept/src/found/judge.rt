//! The judgement of a whole text: its tokens, its items, their links and what the check of each
//! gave come in, diagnostics and tables go out.
//! It keeps nothing between two texts and knows no edits.
#![tactic(auto)]

ghost use Rattle.std.specs.Prelude.{◌≡◌, All, IfOk, IfSome, map};
ghost use Rattle.snl_cut.specs.Cut.{members};
ghost use Rattle.snl_scope.specs.Linked.{faults_of};
ghost use Rattle.snl_check.specs.KnownRows.{AreKnown};
ghost use Rattle.snl_check.specs.Tables.{tables_of};
ghost use Rattle.snl_kept.specs.Checks.{checks_of, checks_over, links_in, outlines_in};
ghost use Rattle.snl_kept.specs.Diagnostics.{diagnostics_of, shown};
ghost use Rattle.snl_kept.specs.Linked.{linked_of, outlines_of};
ghost use Rattle.snl_kept.specs.Order.{in_order};
ghost use Rattle.snl_kept.specs.Parts.{AreSeen, IsPart, item_of_part, kind_of_part};
ghost use Rattle.snl_kept.specs.Program.{program_item};
ghost use Rattle.snl_kept.specs.Tables.{tables_in};
ghost use Rattle.snl_kept.specs.Warnings.{shows_warnings, warns_in};

use crate::found::checks::add_checked_faults;
use crate::found::diagnose::{add_linked_faults, keep_shown, on_lines};
use crate::found::findings::{Diagnostic, Finding};
use crate::found::order::sort;
use crate::found::program::{CutText, Part, add_faults, items_end_in_order};
use crate::found::seen::{SeenItems, seen_items};
use crate::found::tables::tables_of;
use crate::found::walked::add_walked_faults;
use crate::found::warnings::shows_warnings;
use crate::shared::Shared;
use snl_check::{KnownRows, Tables};
use snl_cut::OutOfMemory;
use snl_grammar::{outcome_told, same_spelling_same_tree};
use snl_item_check::Checked;
use snl_lex::text_in_pieces;
use snl_scope::{ItemKind, LinkFault, Links, same_spelling_same_summary};
use std::alloc::Global;

/// What a text is judged to say: its diagnostics, its tables, and whether warnings are shown.
#[derive(Drop)]
pub struct Judgement {
    pub diagnostics: Vec<Diagnostic>,
    pub tables: Tables,
    pub warns: bool,
}

/// The same, with findings that have no lines yet.
#[derive(Drop)]
pub struct Told {
    pub shown: Vec<Finding>,
    pub tables: Tables,
    pub warns: bool,
}

// What is shown of what is found in a text that has these items and these tables.
#[tactic(auto, unfolding(crate::specs::Diagnostics::found, crate::specs::Diagnostics::shown))]
fn shown_by(
    alloc: Global,
    cut: &CutText,
    parts: &[Part],
    seen: &SeenItems,
    faults: &[LinkFault],
    checks: &[&Shared<Option<Checked>>],
    tables: &Tables,
    warns: bool,
) -> Result<Vec<Finding>, OutOfMemory>
    requires items { map (item_of_part cut.now.tokens.now) parts.now ≡ map (program_item cut.now.text.now) (members cut.now.tokens.now 0 cut.now.ends.now) }
    requires parts { All (IsPart cut.now.text.now cut.now.tokens.now) parts.now }
    requires seen { AreSeen parts.now seen.now }
    requires faults { faults.now ≡ faults_of (linked_of cut.now.text.now (map (item_of_part cut.now.tokens.now) parts.now)) }
    requires checks { map (λ c. c.now) checks.now ≡ checks_over cut.now.text.now (map (item_of_part cut.now.tokens.now) parts.now) }
    requires tables { tables.now ≡ tables_of cut.now.text.now (map (item_of_part cut.now.tokens.now) parts.now) }
    requires warns { warns ≡ shows_warnings cut.now.text.now (map (item_of_part cut.now.tokens.now) parts.now) }
    ensures { IfOk result (λ v. v.items ≡ shown cut.now.text.now) }
{
    text_in_pieces();
    let mut shown = Vec::new(alloc);
    add_faults(alloc, cut.text, cut.tokens, parts, &seen.trees, &mut shown)?;
    add_linked_faults(cut.text, cut.tokens, parts, faults, &mut shown)?;
    add_checked_faults(alloc, cut.text, cut.tokens, parts, checks, &mut shown)?;
    add_walked_faults(tables, &mut shown)?;
    keep_shown(warns, &mut shown);
    Ok(shown)
}

// What is shown of what is found in a text that has these items, and the tables of the text. These
// come first: what is listed for them is let go before the findings are.
#[tactic(auto, unfolding(crate::specs::Tables::tables_in))]
fn told_by(
    alloc: Global,
    cut: &CutText,
    parts: &[Part],
    links: &Links,
    kinds: &[ItemKind],
    faults: &[LinkFault],
    checks: &[&Shared<Option<Checked>>],
    known: Option<KnownRows>,
) -> Result<Told, OutOfMemory>
    requires items { map (item_of_part cut.now.tokens.now) parts.now ≡ map (program_item cut.now.text.now) (members cut.now.tokens.now 0 cut.now.ends.now) }
    requires parts { All (IsPart cut.now.text.now cut.now.tokens.now) parts.now }
    requires links { links.now.outlines ≡ outlines_of cut.now.text.now (map (item_of_part cut.now.tokens.now) parts.now) }
    requires faults { faults.now ≡ faults_of (linked_of cut.now.text.now (map (item_of_part cut.now.tokens.now) parts.now)) }
    requires kinds { kinds.now ≡ map kind_of_part parts.now }
    requires checks { map (λ c. c.now) checks.now ≡ checks_over cut.now.text.now (map (item_of_part cut.now.tokens.now) parts.now) }
    requires known { IfSome known (λ k. AreKnown k (tables_of cut.now.text.now (map (item_of_part cut.now.tokens.now) parts.now))) }
    ensures shown { IfOk result (λ t. t.shown.items ≡ shown cut.now.text.now) }
    ensures tables { IfOk result (λ t. t.tables ≡ tables_in cut.now.text.now) }
    ensures warns { IfOk result (λ t. t.warns ≡ warns_in cut.now.text.now) }
{
    text_in_pieces();
    items_end_in_order();
    let CutText {
        text,
        lines,
        tokens,
        ends,
        ..
    } = *cut;
    let seen = seen_items(alloc, parts, kinds)?;
    let warns = shows_warnings(alloc, text, tokens, parts, seen.kinds, links)?;
    let tables = tables_of(
        alloc, text, lines, tokens, ends, parts, &seen, links, checks, known,
    )?;
    let shown = shown_by(alloc, cut, parts, &seen, faults, checks, &tables, warns)?;
    Ok(Told {
        shown,
        tables,
        warns,
    })
}

/// What is shown of what is found in a text that has these items, links and checks, and its tables.
/// Rows that are known are copied.
pub fn told_in(
    alloc: Global,
    cut: &CutText,
    parts: &[Part],
    links: &Links,
    kinds: &[ItemKind],
    faults: &[LinkFault],
    checks: &[&Shared<Option<Checked>>],
    known: Option<KnownRows>,
) -> Result<Told, OutOfMemory>
    requires items { map (item_of_part cut.now.tokens.now) parts.now ≡ map (program_item cut.now.text.now) (members cut.now.tokens.now 0 cut.now.ends.now) }
    requires parts { All (IsPart cut.now.text.now cut.now.tokens.now) parts.now }
    requires links { links.now.outlines ≡ outlines_in cut.now.text.now }
    requires kinds { kinds.now ≡ (links_in cut.now.text.now).kinds }
    requires faults { faults.now ≡ faults_of (links_in cut.now.text.now) }
    requires checks { map (λ c. c.now) checks.now ≡ checks_of cut.now.text.now }
    requires known { IfSome known (λ k. AreKnown k (tables_in cut.now.text.now)) }
    ensures shown { IfOk result (λ t. t.shown.items ≡ shown cut.now.text.now) }
    ensures tables { IfOk result (λ t. t.tables ≡ tables_in cut.now.text.now) }
    ensures warns { IfOk result (λ t. t.warns ≡ warns_in cut.now.text.now) }
{
    outcome_told();
    same_spelling_same_tree();
    same_spelling_same_summary();
    told_by(alloc, cut, parts, links, kinds, faults, checks, known)
}

/// The same with the findings in order.
pub fn in_order(told: Told) -> Result<Told, OutOfMemory>
    ensures shown { IfOk result (λ t. t.shown.items ≡ in_order told.shown.items) }
    ensures tables { IfOk result (λ t. t.tables ≡ told.tables) }
    ensures warns { IfOk result (λ t. t.warns ≡ told.warns) }
{
    let Told {
        mut shown,
        tables,
        warns,
    } = told;
    sort(&mut shown)?;
    Ok(Told {
        shown,
        tables,
        warns,
    })
}

/// The diagnostics and the tables of a text that has these items, links and checks.
#[tactic(auto, unfolding(crate::specs::Diagnostics::diagnostics_of))]
pub fn judge(
    alloc: Global,
    cut: &CutText,
    parts: &[Part],
    links: &Links,
    kinds: &[ItemKind],
    faults: &[LinkFault],
    checks: &[&Shared<Option<Checked>>],
) -> Result<Judgement, OutOfMemory>
    requires items { map (item_of_part cut.now.tokens.now) parts.now ≡ map (program_item cut.now.text.now) (members cut.now.tokens.now 0 cut.now.ends.now) }
    requires parts { All (IsPart cut.now.text.now cut.now.tokens.now) parts.now }
    requires links { links.now.outlines ≡ outlines_in cut.now.text.now }
    requires kinds { kinds.now ≡ (links_in cut.now.text.now).kinds }
    requires faults { faults.now ≡ faults_of (links_in cut.now.text.now) }
    requires checks { map (λ c. c.now) checks.now ≡ checks_of cut.now.text.now }
    ensures diagnostics { IfOk result (λ j. j.diagnostics.items ≡ diagnostics_of cut.now.text.now) }
    ensures tables { IfOk result (λ j. j.tables ≡ tables_in cut.now.text.now) }
    ensures warns { IfOk result (λ j. j.warns ≡ warns_in cut.now.text.now) }
{
    let told = told_in(alloc, cut, parts, links, kinds, faults, checks, None)?;
    let Told {
        shown,
        tables,
        warns,
    } = in_order(told)?;
    let diagnostics = on_lines(alloc, cut.text, cut.lines, &shown)?;
    Ok(Judgement {
        diagnostics,
        tables,
        warns,
    })
}
