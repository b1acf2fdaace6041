//! Reads states and their members.
#![tactic(auto, unfolding(crate::proofs::Opened::States::states))]

ghost use Rattle.std.specs.Prelude.{◌<◌, [], Some};
ghost use Rattle.snl_grammar.specs.Reading.States as spec;
ghost use Rattle.snl_grammar.specs.Reading.Statements as statements;
ghost use Rattle.snl_grammar.specs.Steps as read;
ghost use Rattle.snl_expression.specs.Reads.{ReadsFrom};
ghost use Rattle.snl_lex.specs.declared.kind.Kind.TheVariants as kind;

use crate::clause::{clause, foreign, option_line};
use crate::declaration::declaration;
use crate::statement::{before_paren, block};
use snl_expression::{Stop, beside, expect, kind_at, many};
use snl_grammar::tree::state::{StateMember, Target, Transition};
use snl_grammar::tree::statement::Member;
use snl_lex::Kind;
use sqlite_items::Items;
use std::alloc::Global;

/// `entry` and its block, in so many levels with the one that they are in.
// entry = "entry" block
// entry { n = 0; }
pub fn entry_block(
    alloc: Global,
    kinds: &[Kind],
    at: usize,
    depth: usize,
) -> Result<(Items<Member>, usize), Stop>
    ensures { ReadsFrom kinds.now at result (spec.entry_block (statements.block depth)) }
{
    let at = expect(kinds, at, Kind::Entry)?;
    block(alloc, kinds, at, depth)
}

/// `exit` and its block, in so many levels with the one that they are in.
// exit = "exit" block
// exit { n = 0; }
pub fn exit_block(
    alloc: Global,
    kinds: &[Kind],
    at: usize,
    depth: usize,
) -> Result<(Items<Member>, usize), Stop>
    ensures { ReadsFrom kinds.now at result (spec.exit_block (statements.block depth)) }
{
    let at = expect(kinds, at, Kind::Exit)?;
    block(alloc, kinds, at, depth)
}

// "state" NAME
// state idle
fn next_state(kinds: &[Kind], at: usize) -> Result<(Target, usize), Stop>
    ensures { ReadsFrom kinds.now at result spec.next_state }
{
    let at = expect(kinds, at, Kind::State)?;
    let name = at;
    let at = expect(kinds, at, Kind::Name)?;
    Ok((Target::State(name), at))
}

// "state" NAME | "exit"
// exit
fn target(kinds: &[Kind], at: usize) -> Result<(Target, usize), Stop>
    ensures { ReadsFrom kinds.now at result spec.target }
{
    match kind_at(kinds, at) {
        Some(Kind::State) => next_state(kinds, at),
        Some(Kind::Exit) => {
            let at = expect(kinds, at, Kind::Exit)?;
            Ok((Target::Exit, at))
        }
        _ => Err(Stop::Here(at)),
    }
}

// when = "when" "(" [expr] ")" block ( "state" NAME | "exit" )
// when (v > 3) { n = 1; } state idle
fn transition(
    alloc: Global,
    kinds: &[Kind],
    at: usize,
    depth: usize,
) -> Result<(Transition, usize), Stop>
    requires some { 0 < depth }
    ensures { ReadsFrom kinds.now at result (spec.transition depth) }
{
    let at = expect(kinds, at, Kind::When)?;
    let at = expect(kinds, at, Kind::OpenParen)?;
    let (condition, at) = before_paren(alloc, kinds, at, depth - 1)?;
    let ((condition, block), at) = beside(condition, block(alloc, kinds, at, depth))?;
    let (((condition, block), target), at) = beside((condition, block), target(kinds, at))?;
    let transition = Transition {
        condition,
        block,
        target,
    };
    Ok((transition, at))
}

// decl
// int n = 1;
fn declared_member(
    alloc: Global,
    kinds: &[Kind],
    at: usize,
    depth: usize,
) -> Result<(Option<StateMember>, usize), Stop>
    ensures { ReadsFrom kinds.now at result (spec.declared_member depth) }
{
    let (member, at) = declaration(alloc, kinds, at, depth)?;
    Ok((Some(StateMember::Declaration(member)), at))
}

// entry
// entry { n = 0; }
fn entry_member(
    alloc: Global,
    kinds: &[Kind],
    at: usize,
    depth: usize,
) -> Result<(Option<StateMember>, usize), Stop>
    ensures { ReadsFrom kinds.now at result (spec.entry_member depth) }
{
    let (block, at) = entry_block(alloc, kinds, at, depth)?;
    Ok((Some(StateMember::Entry(block)), at))
}

// exit
// exit { n = 0; }
fn exit_member(
    alloc: Global,
    kinds: &[Kind],
    at: usize,
    depth: usize,
) -> Result<(Option<StateMember>, usize), Stop>
    ensures { ReadsFrom kinds.now at result (spec.exit_member depth) }
{
    let (block, at) = exit_block(alloc, kinds, at, depth)?;
    Ok((Some(StateMember::Exit(block)), at))
}

// when
// when (v > 3) { n = 1; } state idle
fn when_member(
    alloc: Global,
    kinds: &[Kind],
    at: usize,
    depth: usize,
) -> Result<(Option<StateMember>, usize), Stop>
    requires some { 0 < depth }
    ensures { ReadsFrom kinds.now at result (spec.when_member depth) }
{
    let (transition, at) = transition(alloc, kinds, at, depth)?;
    Ok((Some(StateMember::When(transition)), at))
}

// foreign
// foreign stdout;
fn foreign_member(
    alloc: Global,
    kinds: &[Kind],
    at: usize,
) -> Result<(Option<StateMember>, usize), Stop>
    ensures { ReadsFrom kinds.now at result spec.foreign_member }
{
    let (names, at) = foreign(alloc, kinds, at)?;
    Ok((Some(StateMember::Foreign(names)), at))
}

// assign | monitor | sync | syncq
// monitor speed;
fn clause_member(
    alloc: Global,
    kinds: &[Kind],
    at: usize,
) -> Result<(Option<StateMember>, usize), Stop>
    ensures { ReadsFrom kinds.now at result spec.clause_member }
{
    let (clause, at) = clause(alloc, kinds, at)?;
    Ok((Some(StateMember::Clause(clause)), at))
}

// option
// option -t;
fn option_member(kinds: &[Kind], at: usize) -> Result<(Option<StateMember>, usize), Stop>
    ensures { ReadsFrom kinds.now at result spec.option_member }
{
    let (line, at) = option_line(kinds, at)?;
    Ok((Some(StateMember::OptionLine(line)), at))
}

// CCODE
// %{ int ticks; }%
fn c_member(kinds: &[Kind], at: usize) -> Result<(Option<StateMember>, usize), Stop>
    ensures { ReadsFrom kinds.now at result spec.c_member }
{
    let number = at;
    let at = expect(kinds, at, Kind::CCode)?;
    Ok((Some(StateMember::CBlock(number)), at))
}

// ";"
// ;
fn empty_member(kinds: &[Kind], at: usize) -> Result<(Option<StateMember>, usize), Stop>
    ensures { ReadsFrom kinds.now at result (spec.member_by 0 (Some kind.Semicolon)) }
{
    let at = expect(kinds, at, Kind::Semicolon)?;
    Ok((Some(StateMember::Empty), at))
}

// smember, or nothing before "}", where
// smember = decl | foreign | assign | monitor | sync | syncq | option | ";" | CCODE
//     | entry | exit | when
fn next_member(
    alloc: Global,
    kinds: &[Kind],
    at: usize,
    depth: usize,
) -> Result<(Option<StateMember>, usize), Stop>
    requires some { 0 < depth }
    ensures { ReadsFrom kinds.now at result (spec.next_member depth) }
{
    match kind_at(kinds, at) {
        Some(Kind::CloseBrace) => Ok((None, at)),
        Some(Kind::Semicolon) => empty_member(kinds, at),
        Some(Kind::CCode) => c_member(kinds, at),
        Some(Kind::Foreign) => foreign_member(alloc, kinds, at),
        Some(Kind::Option) => option_member(kinds, at),
        Some(Kind::Assign) => clause_member(alloc, kinds, at),
        Some(Kind::Monitor) => clause_member(alloc, kinds, at),
        Some(Kind::Sync) => clause_member(alloc, kinds, at),
        Some(Kind::Syncq) => clause_member(alloc, kinds, at),
        Some(Kind::SyncqCapital) => clause_member(alloc, kinds, at),
        Some(Kind::Entry) => entry_member(alloc, kinds, at, depth),
        Some(Kind::Exit) => exit_member(alloc, kinds, at, depth),
        Some(Kind::When) => when_member(alloc, kinds, at, depth),
        _ => declared_member(alloc, kinds, at, depth),
    }
}

// { smember }
// int n; when () { } exit
fn members(
    alloc: Global,
    kinds: &[Kind],
    start: usize,
    depth: usize,
) -> Result<(Items<StateMember>, usize), Stop>
    requires some { 0 < depth }
    ensures { ReadsFrom kinds.now start result (read.many (spec.next_member depth) []) }
{
    many(
        alloc,
        kinds,
        start,
        Items::new(alloc),
        |kinds, at| next_member(alloc, kinds, at, depth),
    )
}

/// A state's members in braces, within which so many levels are left.
// "{" { smember } "}"
// { int n; when () { } exit }
pub fn state_members(
    alloc: Global,
    kinds: &[Kind],
    at: usize,
    depth: usize,
) -> Result<(Items<StateMember>, usize), Stop>
    requires some { 0 < depth }
    ensures { ReadsFrom kinds.now at result (spec.state_members depth) }
{
    let at = expect(kinds, at, Kind::OpenBrace)?;
    let (all, at) = members(alloc, kinds, at, depth)?;
    let at = expect(kinds, at, Kind::CloseBrace)?;
    Ok((all, at))
}
