//! The clauses of a text: the trees of its items and their links come in, the trees of the clauses
//! go out, each with the number of its item and with what links say of it.

ghost use Rattle.std.specs.Prelude.{◌≡◌, ◌++◌, IfOk, OnOk, map, option_copied};
ghost use Rattle.std.specs.List.{flat_map};
ghost use Rattle.snl_summary.specs.Summaries.{kind_of};
ghost use Rattle.snl_check.specs.Clauses.{clause_in_member, clauses_in_tree, has_clauses, item_clause, item_clauses, item_clauses_if, resolved_clauses};
ghost use Rattle.snl_check.specs.Collected.{AreTextItems, items_in, placed, resolved};

use crate::rows::room::with_room;
use crate::rows::text_items::TextItems;
use snl_cut::OutOfMemory;
use snl_grammar::tree::clause::Clause;
use snl_grammar::tree::item::Item;
use snl_grammar::tree::state::StateMember;
use snl_scope::{ClauseLink, ItemKind, Links};

// A clause, and the number of its item.
#[derive(Clone, Copy)]
struct PlacedClause<'a> {
    item: usize,
    clause: &'a Clause,
}

/// A clause, the number of its item, and what links say of it.
#[derive(Clone, Copy)]
pub(crate) struct ResolvedClause<'a> {
    pub item: usize,
    pub clause: &'a Clause,
    pub link: &'a ClauseLink,
}

// Adds the clauses among the members of a state.
fn add_members<'a>(
    item: usize,
    members: &'a [StateMember],
    clauses: &mut Vec<PlacedClause<'a>>,
) -> Result<(), OutOfMemory>
    ensures { OnOk result (map placed clauses.new.items ≡ map placed clauses.old.items
        ++ map (item_clause item) (flat_map clause_in_member members.now)) }
{
    for member in members {
        if let StateMember::Clause(clause) = member {
            clauses.push(PlacedClause { item, clause })?;
        }
    }
    Ok(())
}

// Whether an item of a kind can have clauses.
fn has_clauses(kind: ItemKind) -> bool
    ensures { result ≡ has_clauses kind }
{
    matches!(kind, ItemKind::Clause | ItemKind::State)
}

// Adds the clauses of an item of a kind that has some.
fn add_tree<'a>(
    item: usize,
    tree: Option<&'a Item>,
    clauses: &mut Vec<PlacedClause<'a>>,
) -> Result<(), OutOfMemory>
    ensures { OnOk result (map placed clauses.new.items ≡ map placed clauses.old.items
        ++ item_clauses_if item (option_copied tree.entry)) }
{
    match tree {
        Some(Item::Clause(clause)) => {
            clauses.push(PlacedClause {
                item,
                clause: clause.get(),
            })?;
            Ok(())
        }
        Some(Item::StateBlock { name: _, members }) => {
            add_members(item, members.as_slice(), clauses)
        }
        _ => Ok(()),
    }
}

// Adds the clauses of an item. Its tree is looked at only where that can have some.
fn add_item<'a>(
    item: usize,
    kind: ItemKind,
    tree: Option<&'a Item>,
    clauses: &mut Vec<PlacedClause<'a>>,
) -> Result<(), OutOfMemory>
    requires { kind ≡ kind_of (option_copied tree) }
    ensures { OnOk result (map placed clauses.new.items ≡ map placed clauses.old.items
        ++ item_clauses_if item (option_copied tree.entry)) }
{
    if has_clauses(kind) {
        add_tree(item, tree, clauses)
    } else {
        Ok(())
    }
}

// The clauses of all items, in the order of the text. Room is made for so many.
fn item_clauses<'a>(
    program: &TextItems<'a>,
    room: usize,
) -> Result<Vec<PlacedClause<'a>>, OutOfMemory>
    requires { AreTextItems program.now }
    ensures { IfOk result (λ clauses. map placed clauses.items
        ≡ item_clauses (items_in program.now)) }
{
    let mut clauses = with_room(program.alloc, room)?;
    for item in 0..program.trees.len() {
        add_item(item, program.kind(item), program.tree(item), &mut clauses)?;
    }
    Ok(clauses)
}

/// The clauses of all items, in the order of the text, each with what links say of it.
pub(crate) fn resolved_clauses<'a>(
    program: &TextItems<'a>,
    links: &'a Links,
) -> Result<Vec<ResolvedClause<'a>>, OutOfMemory>
    requires { AreTextItems program.now }
    ensures { IfOk result (λ clauses. map resolved clauses.items
        ≡ resolved_clauses (items_in program.now) links.now.outlines) }
{
    let links = links.clauses();
    let placed = item_clauses(program, links.len())?;
    let mut clauses = with_room(program.alloc, links.len())?;
    for (number, placed) in placed.iter().enumerate() {
        if number < links.len() {
            clauses.push(ResolvedClause {
                item: placed.item,
                clause: placed.clause,
                link: &links[number],
            })?;
        }
    }
    Ok(clauses)
}
