//! The clauses on variables that an item has: its tree comes in, each clause with what it covers
//! goes out.

ghost use Rattle.snl_summary.specs.Summaries.Clauses.{clause_of, clause_on, clauses_in, clauses_of_member, covered_by_channel, covered_by_subscript, element, flag_at};
ghost use Rattle.snl_walk.specs.Tokens.{IsSource};
ghost use Rattle.std.specs.Prelude.{◌≡◌, ◌++◌, IfOk, OnOk, option_copied, option_map};
ghost use Rattle.std.specs.List.{flat_map};

use crate::summary::{ClauseKind, Coverage, NameRef, VariableClause};
use crate::token_names::name_ref_at;
use snl_cut::OutOfMemory;
use snl_grammar::tree::clause::{Channel, Clause, Flag};
use snl_grammar::tree::item::Item;
use snl_grammar::tree::state::StateMember;
use snl_walk::Source;

// The element that a subscript means.
fn element(source: &Source, subscript: usize) -> Coverage
    requires { IsSource source.now.text.now source.now.tokens.now }
    ensures { result ≡ element source.now.text.now source.now.tokens.now subscript }
{
    Coverage::Element(source.value(subscript).unwrap_or(0))
}

fn covered_by_subscript(source: &Source, subscript: Option<usize>) -> Coverage
    requires { IsSource source.now.text.now source.now.tokens.now }
    ensures { result ≡ covered_by_subscript source.now.text.now source.now.tokens.now subscript }
{
    match subscript {
        None => Coverage::Whole,
        Some(subscript) => element(source, subscript),
    }
}

fn covered_by_channel(source: &Source, channel: &Channel) -> Coverage
    requires { IsSource source.now.text.now source.now.tokens.now }
    ensures { result ≡ covered_by_channel source.now.text.now source.now.tokens.now channel.now }
{
    match channel {
        Channel::Anonymous | Channel::Whole { to: _, text: _ } => Coverage::Whole,
        Channel::Element {
            subscript,
            to: _,
            text: _,
        } => element(source, *subscript),
        Channel::Elements {
            to: _,
            texts,
            trailing: _,
        } => Coverage::Front(texts.len()),
    }
}

fn flag_of(source: &Source, flag: Option<Flag>) -> Result<Option<NameRef>, OutOfMemory>
    requires { IsSource source.now.text.now source.now.tokens.now }
    ensures { IfOk result
        (λ m. m ≡ option_map (flag_at source.now.text.now source.now.tokens.now) flag) }
{
    match flag {
        None => Ok(None),
        Some(flag) => Ok(Some(name_ref_at(source, flag.name)?)),
    }
}

fn clause_on(
    source: &Source,
    kind: ClauseKind,
    name: usize,
    coverage: Coverage,
    flag: Option<Flag>,
) -> Result<VariableClause, OutOfMemory>
    requires { IsSource source.now.text.now source.now.tokens.now }
    ensures { IfOk result
        (λ c. c ≡ clause_on source.now.text.now source.now.tokens.now kind name coverage flag) }
{
    Ok(VariableClause {
        variable: name_ref_at(source, name)?,
        flag: flag_of(source, flag)?,
        coverage,
        kind,
    })
}

fn clause_of(source: &Source, clause: &Clause) -> Result<VariableClause, OutOfMemory>
    requires { IsSource source.now.text.now source.now.tokens.now }
    ensures { IfOk result
        (λ c. c ≡ clause_of source.now.text.now source.now.tokens.now clause.now) }
{
    match clause {
        Clause::Assign { name, channel } => {
            let coverage = covered_by_channel(source, channel);
            clause_on(source, ClauseKind::Assign, *name, coverage, None)
        }
        Clause::Monitor { name, subscript } => {
            let coverage = covered_by_subscript(source, *subscript);
            clause_on(source, ClauseKind::Monitor, *name, coverage, None)
        }
        Clause::Sync {
            name,
            subscript,
            flag,
        } => {
            let coverage = covered_by_subscript(source, *subscript);
            clause_on(source, ClauseKind::Sync, *name, coverage, Some(*flag))
        }
        Clause::Syncq {
            capital: _,
            name,
            subscript,
            flag,
            queue: _,
        } => {
            let coverage = covered_by_subscript(source, *subscript);
            clause_on(source, ClauseKind::Syncq, *name, coverage, *flag)
        }
    }
}

fn add_state(
    source: &Source,
    members: &[StateMember],
    clauses: &mut Vec<VariableClause>,
) -> Result<(), OutOfMemory>
    requires { IsSource source.now.text.now source.now.tokens.now }
    ensures { OnOk result (clauses.new.items ≡ clauses.old.items
        ++ flat_map (clauses_of_member source.now.text.now source.now.tokens.now) members.now) }
{
    for member in members {
        if let StateMember::Clause(clause) = member {
            clauses.push(clause_of(source, clause)?)?;
        }
    }
    Ok(())
}

// How many clauses an item has, for which room is made. Those of a state aren't counted.
fn room_for(tree: Option<&Item>) -> usize {
    match tree {
        Some(Item::Clause(_)) => 1,
        _ => 0,
    }
}

/// The clauses that an item has.
pub(crate) fn clauses_in(
    source: &Source,
    tree: Option<&Item>,
) -> Result<Vec<VariableClause>, OutOfMemory>
    requires { IsSource source.now.text.now source.now.tokens.now }
    ensures { IfOk result (λ v. v.items
        ≡ clauses_in source.now.text.now source.now.tokens.now (option_copied tree.entry)) }
{
    let mut clauses = Vec::with_capacity(source.alloc, room_for(tree))?;
    match tree {
        Some(Item::Clause(clause)) => clauses.push(clause_of(source, clause.get())?)?,
        Some(Item::StateBlock { name: _, members }) => {
            add_state(source, members.as_slice(), &mut clauses)?;
        }
        _ => {}
    }
    Ok(clauses)
}
