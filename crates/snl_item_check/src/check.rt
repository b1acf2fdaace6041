//! The check of one item.

ghost use Rattle.std.specs.Prelude.{◌≡◌, ◌++◌, All, IfOk, OnOk, map};
ghost use Rattle.snl_cut.specs.Cut.{ticked};
ghost use Rattle.snl_walk.specs.Items.{occurrences};
ghost use Rattle.snl_walk.specs.Tokens.{IsSource, token_bytes};
ghost use Rattle.snl_item_check.specs.ItemFaults.{StandsIn, fault_of, faults_in, faults_of_rules};
ghost use Rattle.snl_item_check.specs.View.{is_in_set, known_of, leads_to};
ghost use Rattle.snl_item_check.specs.Told.{target_uses, wake_uses};

use crate::findings::{Checked, ItemFault};
use crate::options::add_unknown_options;
use crate::view::View;
use snl_cut::{Count, OutOfMemory};
use snl_grammar::tree::item::Item;
use snl_lex::Piece;
use snl_scope::Links;
use snl_walk::{Finding, Occurrence, Source, findings, occurrences, target_uses, wake_uses};
use sqlite_items::Items;
use std::alloc::Global;

fn add_findings(findings: &[Finding], faults: &mut Vec<ItemFault>) -> Result<(), OutOfMemory>
    ensures { OnOk result (faults.new.items ≡ faults.old.items ++ map fault_of findings.now) }
{
    for finding in findings {
        faults.push(ItemFault {
            token: finding.token,
            byte: 0,
            code: finding.code,
        })?;
    }
    Ok(())
}

// What is found in the item with this tree, of which these are the occurrences.
fn faults_of(
    source: &Source,
    tree: &Item,
    view: &View,
    found: &[Occurrence],
) -> Result<Vec<ItemFault>, OutOfMemory>
    requires source { IsSource source.now.text.now source.now.tokens.now }
    requires found { found.now
        ≡ occurrences (token_bytes source.now.text.now source.now.tokens.now) tree.now }
    ensures { IfOk result (λ v. v.items
        ≡ faults_in (token_bytes source.now.text.now source.now.tokens.now) tree.now
        (is_in_set view.now.links.now.outlines view.now.item)
        (known_of view.now.links.now.outlines view.now.item)
        (leads_to view.now.links.now.outlines view.now.item)) }
{
    let mut faults = Vec::new(source.alloc);
    add_findings(&findings(source, view, found)?, &mut faults)?;
    add_unknown_options(source, tree, view, &mut faults)?;
    Ok(faults)
}

// What the check of an item gives, by what it sees of the other items.
fn checked_by(source: &Source, tree: &Item, view: &View) -> Result<Checked, OutOfMemory>
    requires source { IsSource source.now.text.now source.now.tokens.now }
    ensures faults { IfOk result (λ c. c.faults
        ≡ faults_in (token_bytes source.now.text.now source.now.tokens.now) tree.now
        (is_in_set view.now.links.now.outlines view.now.item)
        (known_of view.now.links.now.outlines view.now.item)
        (leads_to view.now.links.now.outlines view.now.item)) }
    ensures within { IfOk result (λ c. All
        (StandsIn (token_bytes source.now.text.now source.now.tokens.now)) c.faults) }
    ensures wake_uses { IfOk result (λ c. c.wake_uses
        ≡ wake_uses (token_bytes source.now.text.now source.now.tokens.now) tree.now) }
    ensures target_uses { IfOk result (λ c. c.target_uses
        ≡ target_uses (token_bytes source.now.text.now source.now.tokens.now) tree.now) }
{
    let alloc = source.alloc;
    let found = occurrences(source, tree)?;
    let faults = Items::from_vec(faults_of(source, tree, view, &found)?);
    let wake_uses = Items::from_vec(wake_uses(source, &found)?);
    let target_uses = Items::from_vec(target_uses(alloc, &found)?);
    Ok(Checked {
        faults,
        wake_uses,
        target_uses,
    })
}

/// Checks the item that consists of these tokens, of which each lies in the text, and has this tree
/// and this number among the linked ones. Its findings go by its tokens, its tree and what it sees
/// of the other items alone.
pub fn check_item(
    alloc: Global,
    text: &[u8],
    tokens: &[Piece],
    tree: &Item,
    links: &Links,
    item: usize,
    work: &mut Count,
) -> Result<Checked, OutOfMemory>
    requires { IsSource text.now tokens.now }
    ensures faults { IfOk result (λ c. c.faults
        ≡ faults_in (token_bytes text.now tokens.now) tree.now (is_in_set links.now.outlines item)
        (known_of links.now.outlines item) (leads_to links.now.outlines item)) }
    ensures within { IfOk result (λ c. All (StandsIn (token_bytes text.now tokens.now)) c.faults) }
    ensures wake_uses { IfOk result (λ c. c.wake_uses
        ≡ wake_uses (token_bytes text.now tokens.now) tree.now) }
    ensures target_uses { IfOk result (λ c. c.target_uses
        ≡ target_uses (token_bytes text.now tokens.now) tree.now) }
    ensures ticks { work.new ≡ ticked work.old }
{
    work.tick();
    let source = Source {
        text,
        tokens,
        alloc,
    };
    match tree {
        Item::Empty | Item::SsEnd => Ok(Checked::clean(alloc)),
        _ => checked_by(&source, tree, &View { links, item }),
    }
}
