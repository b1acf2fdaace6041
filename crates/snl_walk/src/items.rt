//! What is found in an item: its tree comes in, its occurrences go out, in the order of the text.

ghost use Rattle.std.specs.Prelude.{◌≡◌, ◌++◌, [], false, IfOk, OnOk, map};
ghost use Rattle.std.specs.List.{flat_map};
ghost use Rattle.snl_walk.specs.Tokens.{IsSource, bytes_in};
ghost use Rattle.snl_walk.specs.Items.{found_in_function, found_in_member, found_in_named, found_in_parameter, found_in_state, found_in_struct_member, found_in_target, found_in_transition, found_with_body, in_transition, occurrences, outside};
ghost use Rattle.snl_walk.specs.Declares.{declared_by_parameter, declared_by_state};
ghost use Rattle.snl_walk.specs.Scopes.{under_names};
ghost use Rattle.snl_walk.specs.Statements.{declaration_at, found_in_block, found_in_declaration};

use crate::declares::{declared_by_parameters, declared_by_state};
use crate::expressions::{add_lengths, add_optional};
use crate::occurrence::{Context, Occurrence, What};
use crate::source::Source;
use crate::statements::{add_block, add_declaration, declaration_at, enter};
use crate::visible::Visible;
use snl_cut::OutOfMemory;
use snl_grammar::tree::declaration::{Declaration, Parameter};
use snl_grammar::tree::item::{Function, Item, StructMember};
use snl_grammar::tree::state::{StateMember, Target, Transition};
use snl_grammar::tree::statement::Member;

// The context of a block at entry or exit, or of a function.
fn outside() -> Context
    ensures { result ≡ outside }
{
    Context {
        in_loop: false,
        in_transition: false,
    }
}

fn in_transition() -> Context
    ensures { result ≡ in_transition }
{
    Context {
        in_loop: false,
        in_transition: true,
    }
}

fn add_target(target: Target, found: &mut Vec<Occurrence>) -> Result<(), OutOfMemory>
    ensures { OnOk result (found.new.items ≡ found.old.items ++ found_in_target target) }
{
    if let Target::State(name) = target {
        found.push(Occurrence {
            token: name,
            what: What::Target,
            means: None,
        })?;
    }
    Ok(())
}

fn add_transition<'a>(
    source: &Source<'a>,
    names: &mut Visible<'a>,
    transition: &Transition,
    found: &mut Vec<Occurrence>,
) -> Result<(), OutOfMemory>
    requires { IsSource source.now.text.now source.now.tokens.now }
    ensures found { OnOk result (found.new.items ≡ found.old.items
        ++ found_in_transition (bytes_in source.now) names.old transition.now) }
    ensures names { OnOk result (names.new ≡ names.old) }
{
    add_optional(source, names, true, &transition.condition, found)?;
    add_block(
        source,
        names,
        in_transition(),
        transition.block.as_slice(),
        found,
    )?;
    add_target(transition.target, found)
}

fn add_names(
    source: &Source,
    names: &Visible,
    tokens: &[usize],
    found: &mut Vec<Occurrence>,
) -> Result<(), OutOfMemory>
    requires { IsSource source.now.text.now source.now.tokens.now }
    ensures { OnOk result (found.new.items ≡ found.old.items
        ++ map (declaration_at (bytes_in source.now) names.now false) tokens.now) }
{
    for token in tokens {
        found.push(declaration_at(source, names, false, *token))?;
    }
    Ok(())
}

fn add_member<'a>(
    source: &Source<'a>,
    names: &mut Visible<'a>,
    member: &StateMember,
    found: &mut Vec<Occurrence>,
) -> Result<(), OutOfMemory>
    requires { IsSource source.now.text.now source.now.tokens.now }
    ensures found { OnOk result (found.new.items ≡ found.old.items
        ++ found_in_member (bytes_in source.now) names.old member.now) }
    ensures names { OnOk result (names.new ≡ names.old) }
{
    match member {
        StateMember::Declaration(declaration) => {
            add_declaration(source, names, false, declaration, found)
        }
        StateMember::Foreign(tokens) => add_names(source, names, tokens.as_slice(), found),
        StateMember::Entry(block) => add_block(source, names, outside(), block.as_slice(), found),
        StateMember::Exit(block) => add_block(source, names, outside(), block.as_slice(), found),
        StateMember::When(transition) => add_transition(source, names, transition, found),
        StateMember::Clause(_)
        | StateMember::OptionLine(_)
        | StateMember::Empty
        | StateMember::CBlock(_) => Ok(()),
    }
}

fn add_members<'a>(
    source: &Source<'a>,
    names: &mut Visible<'a>,
    members: &[StateMember],
    found: &mut Vec<Occurrence>,
) -> Result<(), OutOfMemory>
    requires { IsSource source.now.text.now source.now.tokens.now }
    ensures { OnOk result (found.new.items ≡ found.old.items
        ++ flat_map (found_in_member (bytes_in source.now) names.old) members.now) }
{
    for member in members {
        add_member(source, names, member, found)?;
    }
    Ok(())
}

// The names that are visible in a state.
fn names_of_state<'a>(
    source: &Source<'a>,
    members: &[StateMember],
) -> Result<Visible<'a>, OutOfMemory>
    requires { IsSource source.now.text.now source.now.tokens.now }
    ensures { IfOk result (λ names. names
        ≡ under_names (bytes_in source.now) (declared_by_state (bytes_in source.now) members.now)) }
{
    let declared = declared_by_state(source, members)?;
    let mut names = Visible::new(source.alloc);
    enter(source, &declared, &mut names)?;
    Ok(names)
}

fn add_state(
    source: &Source,
    members: &[StateMember],
    found: &mut Vec<Occurrence>,
) -> Result<(), OutOfMemory>
    requires { IsSource source.now.text.now source.now.tokens.now }
    ensures { OnOk result (found.new.items ≡ found.old.items
        ++ found_in_state (bytes_in source.now) members.now) }
{
    let mut names = names_of_state(source, members)?;
    add_members(source, &mut names, members, found)
}

fn add_prototype(
    source: &Source,
    parameters: &[Parameter],
    found: &mut Vec<Occurrence>,
) -> Result<(), OutOfMemory>
    requires { IsSource source.now.text.now source.now.tokens.now }
    ensures { OnOk result (found.new.items ≡ found.old.items
        ++ flat_map (found_in_parameter (bytes_in source.now) []) parameters.now) }
{
    let names = Visible::new(source.alloc);
    for parameter in parameters {
        add_lengths(source, &names, parameter.lengths.as_slice(), found)?;
    }
    Ok(())
}

fn add_parameter(
    source: &Source,
    names: &Visible,
    parameter: &Parameter,
    found: &mut Vec<Occurrence>,
) -> Result<(), OutOfMemory>
    requires { IsSource source.now.text.now source.now.tokens.now }
    ensures { OnOk result (found.new.items ≡ found.old.items
        ++ found_in_named (bytes_in source.now) names.now parameter.now) }
{
    if let Some(token) = parameter.name {
        found.push(declaration_at(source, names, false, token))?;
    }
    add_lengths(source, names, parameter.lengths.as_slice(), found)
}

fn add_parameters(
    source: &Source,
    names: &Visible,
    parameters: &[Parameter],
    found: &mut Vec<Occurrence>,
) -> Result<(), OutOfMemory>
    requires { IsSource source.now.text.now source.now.tokens.now }
    ensures { OnOk result (found.new.items ≡ found.old.items
        ++ flat_map (found_in_named (bytes_in source.now) names.now) parameters.now) }
{
    for parameter in parameters {
        add_parameter(source, names, parameter, found)?;
    }
    Ok(())
}

// The names of the parameters of a function with a body.
fn names_of_parameters<'a>(
    source: &Source<'a>,
    parameters: &[Parameter],
) -> Result<Visible<'a>, OutOfMemory>
    requires { IsSource source.now.text.now source.now.tokens.now }
    ensures { IfOk result (λ names. names
        ≡ under_names (bytes_in source.now) (flat_map declared_by_parameter parameters.now)) }
{
    let declared = declared_by_parameters(source, parameters)?;
    let mut names = Visible::new(source.alloc);
    enter(source, &declared, &mut names)?;
    Ok(names)
}

fn add_with_body(
    source: &Source,
    parameters: &[Parameter],
    block: &[Member],
    found: &mut Vec<Occurrence>,
) -> Result<(), OutOfMemory>
    requires { IsSource source.now.text.now source.now.tokens.now }
    ensures { OnOk result (found.new.items ≡ found.old.items
        ++ found_with_body (bytes_in source.now) parameters.now block.now) }
{
    let mut names = names_of_parameters(source, parameters)?;
    add_parameters(source, &names, parameters, found)?;
    add_block(source, &mut names, outside(), block, found)
}

fn add_function(
    source: &Source,
    function: &Function,
    found: &mut Vec<Occurrence>,
) -> Result<(), OutOfMemory>
    requires { IsSource source.now.text.now source.now.tokens.now }
    ensures { OnOk result (found.new.items ≡ found.old.items
        ++ found_in_function (bytes_in source.now) function.now.parameters function.now.body) }
{
    match &function.body {
        Some(block) => {
            add_with_body(
                source,
                function.parameters.as_slice(),
                block.as_slice(),
                found,
            )
        }
        None => add_prototype(source, function.parameters.as_slice(), found),
    }
}

fn add_struct_member(
    source: &Source,
    names: &Visible,
    member: &StructMember,
    found: &mut Vec<Occurrence>,
) -> Result<(), OutOfMemory>
    requires source { IsSource source.now.text.now source.now.tokens.now }
    requires nothing { names.now ≡ [] }
    ensures { OnOk result (found.new.items ≡ found.old.items
        ++ found_in_struct_member (bytes_in source.now) member.now) }
{
    match member {
        StructMember::Declaration(declaration) => {
            add_declaration(source, names, false, declaration, found)
        }
        StructMember::CBlock(_) => Ok(()),
    }
}

fn add_struct(
    source: &Source,
    members: &[StructMember],
    found: &mut Vec<Occurrence>,
) -> Result<(), OutOfMemory>
    requires { IsSource source.now.text.now source.now.tokens.now }
    ensures { OnOk result (found.new.items ≡ found.old.items
        ++ flat_map (found_in_struct_member (bytes_in source.now)) members.now) }
{
    let names = Visible::new(source.alloc);
    for member in members {
        add_struct_member(source, &names, member, found)?;
    }
    Ok(())
}

// A definition sees no names here.
fn add_definition(
    source: &Source,
    declaration: &Declaration,
    found: &mut Vec<Occurrence>,
) -> Result<(), OutOfMemory>
    requires { IsSource source.now.text.now source.now.tokens.now }
    ensures { OnOk result (found.new.items ≡ found.old.items
        ++ found_in_declaration (bytes_in source.now) [] false declaration.now) }
{
    let names = Visible::new(source.alloc);
    add_declaration(source, &names, false, declaration, found)
}

// A block at entry or exit of the program.
fn add_outer_block(
    source: &Source,
    block: &[Member],
    found: &mut Vec<Occurrence>,
) -> Result<(), OutOfMemory>
    requires { IsSource source.now.text.now source.now.tokens.now }
    ensures { OnOk result (found.new.items ≡ found.old.items
        ++ found_in_block (bytes_in source.now) block.now [] outside) }
{
    let mut names = Visible::new(source.alloc);
    add_block(source, &mut names, outside(), block, found)
}

#[tactic(auto, unfolding(crate::specs::Items::occurrences))]
fn add_item(source: &Source, tree: &Item, found: &mut Vec<Occurrence>) -> Result<(), OutOfMemory>
    requires { IsSource source.now.text.now source.now.tokens.now }
    ensures { OnOk result (found.new.items ≡ found.old.items
        ++ occurrences (bytes_in source.now) tree.now) }
{
    match tree {
        Item::Definition(declaration) => add_definition(source, declaration.get(), found),
        Item::Entry(block) => add_outer_block(source, block.as_slice(), found),
        Item::Exit(block) => add_outer_block(source, block.as_slice(), found),
        Item::StateBlock { name: _, members } => add_state(source, members.as_slice(), found),
        Item::Function(function) => add_function(source, function.get(), found),
        Item::StructDef { name: _, members } => add_struct(source, members.as_slice(), found),
        Item::Header {
            name: _,
            parameters: _,
        }
        | Item::Foreign(_)
        | Item::Clause(_)
        | Item::OptionLine(_)
        | Item::SsBegin { name: _ }
        | Item::SsEnd
        | Item::CBlock(_)
        | Item::Empty => Ok(()),
    }
}

/// What is found in an item, in the order of its text.
pub fn occurrences(source: &Source, tree: &Item) -> Result<Vec<Occurrence>, OutOfMemory>
    requires { IsSource source.now.text.now source.now.tokens.now }
    ensures { IfOk result (λ v. v.items ≡ occurrences (bytes_in source.now) tree.now) }
{
    // An item with a few tokens has one at most, and the others are seldom more than these.
    let room = source.tokens.len() / 4;
    let mut found = Vec::with_capacity(source.alloc, room)?;
    add_item(source, tree, &mut found)?;
    Ok(found)
}
