//! The names that an item declares outside its blocks: its tree comes in, each name with what a
//! declaration says of it goes out.

ghost use Rattle.snl_summary.specs.Summaries.Declares.{declared_at, declared_by_declaration, declared_by_declarator, declared_by_foreign, declared_by_function, declared_by_member, declared_in, declared_in_tree, dims_by_integer, dims_of, foreign_name, function_name, lone_integer, symbol_kind_of};
ghost use Rattle.snl_walk.specs.Tokens.{IsSource};
ghost use Rattle.std.specs.Prelude.{◌≡◌, ◌++◌, ◌∷◌, [], IfOk, OnOk, option_copied};
ghost use Rattle.std.specs.List.{flat_map};

use crate::summary::{Declared, Dims, SymbolKind, Variable};
use crate::token_names::name_at;
use snl_cut::OutOfMemory;
use snl_grammar::tree::declaration::{Declaration, Declarator};
use snl_grammar::tree::expression::Expr;
use snl_grammar::tree::item::{Function, Item};
use snl_grammar::tree::state::StateMember;
use snl_grammar::tree::types::Base;
use snl_walk::Source;

// What names of a declaration with this base stand for.
fn symbol_kind_of(base: Base) -> SymbolKind
    ensures { result ≡ symbol_kind_of base }
{
    match base {
        Base::Evflag => SymbolKind::EventFlag,
        Base::Void | Base::Enum(_) | Base::Struct(_) | Base::Union(_) | Base::Typename(_) => {
            SymbolKind::Unassignable
        }
        _ => SymbolKind::Assignable,
    }
}

// The token of an integer, where the expression is that alone.
fn lone_integer(expr: &Expr) -> Option<usize>
    ensures { result ≡ lone_integer expr.now }
{
    match expr {
        Expr::Integer(number) => Some(*number),
        _ => None,
    }
}

// What a first length says that one integer is in, if it does.
fn dims_by_integer(source: &Source, integer: Option<usize>) -> Dims
    requires { IsSource source.now.text.now source.now.tokens.now }
    ensures { result ≡ dims_by_integer source.now.text.now source.now.tokens.now integer }
{
    match integer {
        None => Dims::Unknown,
        Some(number) => match source.value(number) {
            None => Dims::Unknown,
            Some(value) => Dims::Known(value),
        },
    }
}

fn dims_of(source: &Source, declarator: &Declarator) -> Dims
    requires { IsSource source.now.text.now source.now.tokens.now }
    ensures { result ≡ dims_of source.now.text.now source.now.tokens.now declarator.now }
{
    match declarator.lengths.get(0) {
        Some(Some(length)) => dims_by_integer(source, lone_integer(length)),
        Some(None) => Dims::Unknown,
        None => {
            if declarator.pointers.len() == 0 {
                Dims::Plain
            } else {
                Dims::Unknown
            }
        }
    }
}

fn declared_at(source: &Source, variable: Variable, number: usize) -> Result<Declared, OutOfMemory>
    requires { IsSource source.now.text.now source.now.tokens.now }
    ensures { IfOk result
        (λ d. d ≡ declared_at source.now.text.now source.now.tokens.now variable number) }
{
    Ok(Declared {
        name: name_at(source, number)?,
        token: number,
        variable,
    })
}

fn declared_by_declarator(
    source: &Source,
    symbol_kind: SymbolKind,
    declarator: &Declarator,
) -> Result<Declared, OutOfMemory>
    requires { IsSource source.now.text.now source.now.tokens.now }
    ensures { IfOk result (λ d. d
        ≡ declared_by_declarator source.now.text.now source.now.tokens.now symbol_kind declarator.now) }
{
    let dims = dims_of(source, declarator);
    declared_at(source, Variable { dims, symbol_kind }, declarator.name)
}

fn add_declaration(
    source: &Source,
    declaration: &Declaration,
    declared: &mut Vec<Declared>,
) -> Result<(), OutOfMemory>
    requires { IsSource source.now.text.now source.now.tokens.now }
    ensures { OnOk result (declared.new.items ≡ declared.old.items
        ++ declared_by_declaration source.now.text.now source.now.tokens.now declaration.now) }
{
    let symbol_kind = symbol_kind_of(declaration.of.base);
    for declarator in declaration.declarators.as_slice() {
        declared.push(declared_by_declarator(source, symbol_kind, declarator)?)?;
    }
    Ok(())
}

fn add_foreign(
    source: &Source,
    names: &[usize],
    declared: &mut Vec<Declared>,
) -> Result<(), OutOfMemory>
    requires { IsSource source.now.text.now source.now.tokens.now }
    ensures { OnOk result (declared.new.items ≡ declared.old.items
        ++ declared_by_foreign source.now.text.now source.now.tokens.now names.now) }
{
    let variable = Variable {
        dims: Dims::Unknown,
        symbol_kind: SymbolKind::Foreign,
    };
    for name in names {
        declared.push(declared_at(source, variable, *name)?)?;
    }
    Ok(())
}

// Adds the name of a function, unless that is a prototype.
fn add_function(
    source: &Source,
    function: &Function,
    declared: &mut Vec<Declared>,
) -> Result<(), OutOfMemory>
    requires { IsSource source.now.text.now source.now.tokens.now }
    ensures { OnOk result (declared.new.items ≡ declared.old.items
        ++ declared_by_function source.now.text.now source.now.tokens.now function.now) }
{
    let variable = Variable {
        dims: Dims::Unknown,
        symbol_kind: SymbolKind::Function,
    };
    match &function.body {
        Some(_) => {
            declared.push(declared_at(source, variable, function.name)?)?;
            Ok(())
        }
        None => Ok(()),
    }
}

fn add_member(
    source: &Source,
    member: &StateMember,
    declared: &mut Vec<Declared>,
) -> Result<(), OutOfMemory>
    requires { IsSource source.now.text.now source.now.tokens.now }
    ensures { OnOk result (declared.new.items ≡ declared.old.items
        ++ declared_by_member source.now.text.now source.now.tokens.now member.now) }
{
    match member {
        StateMember::Declaration(declaration) => add_declaration(source, declaration, declared),
        StateMember::Foreign(names) => add_foreign(source, names.as_slice(), declared),
        StateMember::Clause(_)
        | StateMember::OptionLine(_)
        | StateMember::Empty
        | StateMember::CBlock(_)
        | StateMember::Entry(_)
        | StateMember::Exit(_)
        | StateMember::When(_) => Ok(()),
    }
}

fn add_state(
    source: &Source,
    members: &[StateMember],
    declared: &mut Vec<Declared>,
) -> Result<(), OutOfMemory>
    requires { IsSource source.now.text.now source.now.tokens.now }
    ensures { OnOk result (declared.new.items ≡ declared.old.items
        ++ flat_map (declared_by_member source.now.text.now source.now.tokens.now) members.now) }
{
    for member in members {
        add_member(source, member, declared)?;
    }
    Ok(())
}

fn add_tree(source: &Source, tree: &Item, declared: &mut Vec<Declared>) -> Result<(), OutOfMemory>
    requires { IsSource source.now.text.now source.now.tokens.now }
    ensures { OnOk result (declared.new.items ≡ declared.old.items
        ++ declared_in_tree source.now.text.now source.now.tokens.now tree.now) }
{
    match tree {
        Item::Definition(declaration) => add_declaration(source, declaration.get(), declared),
        Item::Foreign(names) => add_foreign(source, names.as_slice(), declared),
        Item::Function(function) => add_function(source, function.get(), declared),
        Item::StateBlock { name: _, members } => add_state(source, members.as_slice(), declared),
        Item::Header {
            name: _,
            parameters: _,
        }
        | Item::Clause(_)
        | Item::OptionLine(_)
        | Item::Entry(_)
        | Item::Exit(_)
        | Item::SsBegin { name: _ }
        | Item::SsEnd
        | Item::StructDef {
            name: _,
            members: _,
        }
        | Item::CBlock(_)
        | Item::Empty => Ok(()),
    }
}

// How many names an item declares, for which room is made. Those of a state aren't counted.
fn room_for(tree: Option<&Item>) -> usize {
    match tree {
        Some(Item::Definition(declaration)) => declaration.get().declarators.len(),
        Some(Item::Foreign(names)) => names.len(),
        Some(Item::Function(function)) => if function.get().body.is_some() { 1 } else { 0 },
        _ => 0,
    }
}

/// The names that an item declares outside its blocks.
pub(crate) fn declared_in(
    source: &Source,
    tree: Option<&Item>,
) -> Result<Vec<Declared>, OutOfMemory>
    requires { IsSource source.now.text.now source.now.tokens.now }
    ensures { IfOk result (λ v. v.items
        ≡ declared_in source.now.text.now source.now.tokens.now (option_copied tree.entry)) }
{
    let mut declared = Vec::with_capacity(source.alloc, room_for(tree))?;
    if let Some(tree) = tree {
        add_tree(source, tree, &mut declared)?;
    }
    Ok(declared)
}
