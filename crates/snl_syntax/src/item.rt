//! Reads items: the kinds of an item's tokens come in, its tree goes out.
#![tactic(auto, unfolding(crate::proofs::Opened::Items::items))]

ghost use Rattle.std.specs.Prelude.{◌<◌};
ghost use Rattle.snl_grammar.specs.Reading.Items as spec;
ghost use Rattle.snl_syntax.specs.Answered.{ReadsAll};
ghost use Rattle.snl_grammar.specs.Reading.Statements as statements;
ghost use Rattle.snl_grammar.specs.Steps as read;
ghost use Rattle.snl_expression.specs.Reads.{ReadsFrom};
ghost use Rattle.snl_grammar.specs.Tokens.{ahead};
ghost use Rattle.snl_lex.specs.declared.kind.Kind.TheVariants as kind;
ghost use Rattle.snl_grammar.specs.declared.tree.item.Item.TheVariants as items;

use crate::clause::{clause, foreign, option_line};
use crate::function::{Blocks, typed_item};
use crate::state::{entry_block, exit_block, state_members};
use crate::statement::block;
use snl_expression::{Stop, expect, kind_at, texts};
use snl_grammar::tree::item::Item;
use snl_grammar::tree::statement::Member;
use snl_grammar::whole_items_end;
use snl_lex::Kind;
use sqlite_items::{Boxed, Items};
use std::alloc::Global;

/// Blocks of statements, as the bodies of functions.
struct Bodies;

impl Blocks for Bodies {
    ghost reader = { statements.block };

    fn block(
        &self,
        alloc: Global,
        kinds: &[Kind],
        at: usize,
        depth: usize,
    ) -> Result<(Items<Member>, usize), Stop> {
        block(alloc, kinds, at, depth)
    }
}

// "(" texts ")"
// ("P=sp:")
fn some_texts(
    alloc: Global,
    kinds: &[Kind],
    at: usize,
) -> Result<(Option<Items<usize>>, usize), Stop>
    ensures { ReadsFrom kinds.now at result spec.some_texts }
{
    let at = expect(kinds, at, Kind::OpenParen)?;
    let (texts, at) = texts(alloc, kinds, at)?;
    let at = expect(kinds, at, Kind::CloseParen)?;
    Ok((Some(texts), at))
}

// [ "(" texts ")" ]
// ("P=sp:")
fn texts_part(
    alloc: Global,
    kinds: &[Kind],
    at: usize,
) -> Result<(Option<Items<usize>>, usize), Stop>
    ensures { ReadsFrom kinds.now at result spec.texts_part }
{
    match kind_at(kinds, at) {
        Some(Kind::OpenParen) => some_texts(alloc, kinds, at),
        _ => Ok((None, at)),
    }
}

// header = "program" NAME [ "(" texts ")" ]
// program pump ("P=sp:")
fn header(alloc: Global, kinds: &[Kind], at: usize) -> Result<(Item, usize), Stop>
    ensures { ReadsFrom kinds.now at result spec.header }
{
    let at = expect(kinds, at, Kind::Program)?;
    let name = at;
    let at = expect(kinds, at, Kind::Name)?;
    let (parameters, at) = texts_part(alloc, kinds, at)?;
    Ok((Item::Header { name, parameters }, at))
}

// ssbegin = "ss" NAME "{"
// ss valve {
fn set_begin(kinds: &[Kind], at: usize) -> Result<(Item, usize), Stop>
    ensures { ReadsFrom kinds.now at result spec.set_begin }
{
    let at = expect(kinds, at, Kind::Ss)?;
    let name = at;
    let at = expect(kinds, at, Kind::Name)?;
    let at = expect(kinds, at, Kind::OpenBrace)?;
    Ok((Item::SsBegin { name }, at))
}

// ssend = "}"
// }
fn set_end(kinds: &[Kind], at: usize) -> Result<(Item, usize), Stop>
    ensures { ReadsFrom kinds.now at result (read.word kind.CloseBrace items.SsEnd) }
{
    let at = expect(kinds, at, Kind::CloseBrace)?;
    Ok((Item::SsEnd, at))
}

// empty = ";"
// ;
fn empty(kinds: &[Kind], at: usize) -> Result<(Item, usize), Stop>
    ensures { ReadsFrom kinds.now at result (read.word kind.Semicolon items.Empty) }
{
    let at = expect(kinds, at, Kind::Semicolon)?;
    Ok((Item::Empty, at))
}

// cblock = CCODE
// %{ int ticks; }%
fn c_block(kinds: &[Kind], at: usize) -> Result<(Item, usize), Stop>
    ensures { ReadsFrom kinds.now at result spec.c_block }
{
    let number = at;
    let at = expect(kinds, at, Kind::CCode)?;
    Ok((Item::CBlock(number), at))
}

// foreign
// foreign stdout, stderr;
fn foreign_item(alloc: Global, kinds: &[Kind], at: usize) -> Result<(Item, usize), Stop>
    ensures { ReadsFrom kinds.now at result spec.foreign_item }
{
    let (names, at) = foreign(alloc, kinds, at)?;
    Ok((Item::Foreign(names), at))
}

// assign | monitor | sync | syncq
// monitor speed;
fn clause_item(alloc: Global, kinds: &[Kind], at: usize) -> Result<(Item, usize), Stop>
    ensures { ReadsFrom kinds.now at result spec.clause_item }
{
    let (clause, at) = clause(alloc, kinds, at)?;
    Ok((Item::Clause(Boxed::new(alloc, clause)?), at))
}

// option
// option +r;
fn option_item(kinds: &[Kind], at: usize) -> Result<(Item, usize), Stop>
    ensures { ReadsFrom kinds.now at result spec.option_item }
{
    let (line, at) = option_line(kinds, at)?;
    Ok((Item::OptionLine(line), at))
}

// entry
// entry { n = 0; }
fn entry_item(alloc: Global, kinds: &[Kind], at: usize, depth: usize) -> Result<(Item, usize), Stop>
    ensures { ReadsFrom kinds.now at result (spec.entry_item depth) }
{
    let (block, at) = entry_block(alloc, kinds, at, depth)?;
    Ok((Item::Entry(block), at))
}

// exit
// exit { n = 0; }
fn exit_item(alloc: Global, kinds: &[Kind], at: usize, depth: usize) -> Result<(Item, usize), Stop>
    ensures { ReadsFrom kinds.now at result (spec.exit_item depth) }
{
    let (block, at) = exit_block(alloc, kinds, at, depth)?;
    Ok((Item::Exit(block), at))
}

// state = "state" NAME "{" { smember } "}"
// state idle { when () { } exit }
fn state_item(alloc: Global, kinds: &[Kind], at: usize, depth: usize) -> Result<(Item, usize), Stop>
    requires two { 1 < depth }
    ensures { ReadsFrom kinds.now at result (spec.state_item depth) }
{
    let at = expect(kinds, at, Kind::State)?;
    let name = at;
    let at = expect(kinds, at, Kind::Name)?;
    let (members, at) = state_members(alloc, kinds, at, depth - 1)?;
    Ok((Item::StateBlock { name, members }, at))
}

/// An item, in so many levels with the one that it is in.
// item = header | ssbegin | ssend | empty | cblock | foreign | option
//     | assign | monitor | sync | syncq | entry | exit | state | decl | function | struct
fn item(alloc: Global, kinds: &[Kind], at: usize, depth: usize) -> Result<(Item, usize), Stop>
    requires two { 1 < depth }
    ensures { ReadsFrom kinds.now at result (spec.item depth) }
{
    match kind_at(kinds, at) {
        Some(Kind::Program) => header(alloc, kinds, at),
        Some(Kind::Ss) => set_begin(kinds, at),
        Some(Kind::CloseBrace) => set_end(kinds, at),
        Some(Kind::Semicolon) => empty(kinds, at),
        Some(Kind::CCode) => c_block(kinds, at),
        Some(Kind::Foreign) => foreign_item(alloc, kinds, at),
        Some(Kind::Option) => option_item(kinds, at),
        Some(Kind::Assign) => clause_item(alloc, kinds, at),
        Some(Kind::Monitor) => clause_item(alloc, kinds, at),
        Some(Kind::Sync) => clause_item(alloc, kinds, at),
        Some(Kind::Syncq) => clause_item(alloc, kinds, at),
        Some(Kind::SyncqCapital) => clause_item(alloc, kinds, at),
        Some(Kind::Entry) => entry_item(alloc, kinds, at, depth),
        Some(Kind::Exit) => exit_item(alloc, kinds, at, depth),
        Some(Kind::State) => state_item(alloc, kinds, at, depth),
        _ => typed_item(alloc, kinds, at, depth, &Bodies),
    }
}

/// An item after which the tokens end.
// nothing, where the tokens end
fn ended(kinds: &[Kind], at: usize, item: Item) -> Result<(Item, usize), Stop>
    ensures { ReadsFrom kinds.now at result (spec.ended item) }
{
    match kind_at(kinds, at) {
        None => Ok((item, at)),
        Some(_) => Err(Stop::Here(at)),
    }
}

// item, to the end of the tokens
// monitor speed;
fn whole_item(alloc: Global, kinds: &[Kind], at: usize, depth: usize) -> Result<(Item, usize), Stop>
    requires two { 1 < depth }
    ensures { ReadsFrom kinds.now at result (spec.whole_item depth) }
{
    let (item, at) = item(alloc, kinds, at, depth)?;
    ended(kinds, at, item)
}

/// How many levels an item has, with the one that its own tokens are in: no token may lie within
/// more than 100.
const LEVELS: usize = 101;

/// The item that all tokens of these kinds make. A leaf is the number of its token.
pub fn item_in(alloc: Global, kinds: &[Kind]) -> Result<Item, Stop>
    ensures { ReadsAll kinds.now result (spec.whole_item spec.levels (ahead kinds.now 0)) }
{
    whole_items_end();
    let (item, _end) = whole_item(alloc, kinds, 0, LEVELS)?;
    Ok(item)
}
