//! What the scopes of an item declare: parts of a tree come in, declarations go out, in the order
//! of the text.

ghost use Rattle.std.specs.Prelude.{◌≡◌, ◌++◌, true, IfOk, OnOk, map};
ghost use Rattle.std.specs.List.{flat_map};
ghost use Rattle.snl_walk.specs.Tokens.{IsSource, bytes_in};
ghost use Rattle.snl_walk.specs.Declares.{assigned_in_state, declare, declared_by_member, declared_by_parameter, declared_by_state, declared_in_block, declared_in_state, is_event_flag};
ghost use Rattle.snl_walk.specs.Statements.{contents_of, declared_by_contents};

use crate::name_set::NameSet;
use crate::occurrence::Local;
use crate::source::Source;
use snl_cut::OutOfMemory;
use snl_grammar::tree::clause::Clause;
use snl_grammar::tree::declaration::{Declaration, Parameter};
use snl_grammar::tree::state::StateMember;
use snl_grammar::tree::statement::Member;
use snl_grammar::tree::types::Base;

pub(crate) fn is_event_flag(base: Base) -> bool
    ensures { result ≡ is_event_flag base }
{
    matches!(base, Base::Evflag)
}

fn add_in_block(declaration: &Declaration, declared: &mut Vec<Local>) -> Result<(), OutOfMemory>
    ensures { OnOk result (declared.new.items ≡ declared.old.items
        ++ declared_in_block declaration.now) }
{
    let flag = is_event_flag(declaration.of.base);
    for declarator in declaration.declarators.as_slice() {
        declared.push(Local {
            token: declarator.name,
            flag,
            channel: false,
        })?;
    }
    Ok(())
}

/// What a block declares.
pub(crate) fn declared_by_block(
    source: &Source,
    members: &[Member],
) -> Result<Vec<Local>, OutOfMemory>
    ensures { IfOk result
        (λ v. v.items ≡ declared_by_contents (contents_of (bytes_in source.now) members.now)) }
{
    let mut declared = Vec::new(source.alloc);
    for member in members {
        match member {
            Member::Declaration(declaration) => add_in_block(declaration, &mut declared)?,
            Member::Statement(_) => {}
        }
    }
    Ok(declared)
}

/// What the parameters of a function declare.
pub(crate) fn declared_by_parameters(
    source: &Source,
    parameters: &[Parameter],
) -> Result<Vec<Local>, OutOfMemory>
    ensures { IfOk result (λ v. v.items ≡ flat_map declared_by_parameter parameters.now) }
{
    let mut declared = Vec::new(source.alloc);
    for parameter in parameters {
        if let Some(token) = parameter.name {
            declared.push(Local {
                token,
                flag: is_event_flag(parameter.of.base),
                channel: true,
            })?;
        }
    }
    Ok(declared)
}

// The names that clauses among the members of a state assign.
fn assigned_in_state<'a>(
    source: &Source<'a>,
    members: &[StateMember],
) -> Result<NameSet<'a>, OutOfMemory>
    requires { IsSource source.now.text.now source.now.tokens.now }
    ensures { IfOk result (λ names. names ≡ assigned_in_state (bytes_in source.now) members.now) }
{
    let mut names = NameSet::new(source.alloc);
    for member in members {
        if let StateMember::Clause(Clause::Assign { name, channel: _ }) = member {
            names.add(source.bytes(*name))?;
        }
    }
    Ok(names)
}

fn add_in_state(
    source: &Source,
    assigned: &NameSet,
    declaration: &Declaration,
    declared: &mut Vec<Local>,
) -> Result<(), OutOfMemory>
    requires { IsSource source.now.text.now source.now.tokens.now }
    ensures { OnOk result (declared.new.items ≡ declared.old.items
        ++ declared_in_state (bytes_in source.now) assigned.now declaration.now) }
{
    let flag = is_event_flag(declaration.of.base);
    for declarator in declaration.declarators.as_slice() {
        declared.push(Local {
            token: declarator.name,
            flag,
            channel: assigned.contains(source.bytes(declarator.name)),
        })?;
    }
    Ok(())
}

fn add_foreign(names: &[usize], declared: &mut Vec<Local>) -> Result<(), OutOfMemory>
    ensures { OnOk result (declared.new.items ≡ declared.old.items
        ++ map (λ n. declare n true true) names.now) }
{
    for name in names {
        declared.push(Local {
            token: *name,
            flag: true,
            channel: true,
        })?;
    }
    Ok(())
}

// Adds what the members of a state declare, where these names are assigned in the state.
fn add_members(
    source: &Source,
    assigned: &NameSet,
    members: &[StateMember],
    declared: &mut Vec<Local>,
) -> Result<(), OutOfMemory>
    requires { IsSource source.now.text.now source.now.tokens.now }
    ensures { OnOk result (declared.new.items ≡ declared.old.items
        ++ flat_map (declared_by_member (bytes_in source.now) assigned.now) members.now) }
{
    for member in members {
        match member {
            StateMember::Declaration(declaration) => {
                add_in_state(source, assigned, declaration, declared)?;
            }
            StateMember::Foreign(names) => add_foreign(names.as_slice(), declared)?,
            StateMember::Clause(_)
            | StateMember::OptionLine(_)
            | StateMember::Empty
            | StateMember::CBlock(_)
            | StateMember::Entry(_)
            | StateMember::Exit(_)
            | StateMember::When(_) => {}
        }
    }
    Ok(())
}

/// What a state declares.
#[tactic(auto, unfolding(crate::specs::Declares::declared_by_state))]
pub(crate) fn declared_by_state(
    source: &Source,
    members: &[StateMember],
) -> Result<Vec<Local>, OutOfMemory>
    requires { IsSource source.now.text.now source.now.tokens.now }
    ensures { IfOk result (λ v. v.items ≡ declared_by_state (bytes_in source.now) members.now) }
{
    let assigned = assigned_in_state(source, members)?;
    let mut declared = Vec::new(source.alloc);
    add_members(source, &assigned, members, &mut declared)?;
    Ok(declared)
}
