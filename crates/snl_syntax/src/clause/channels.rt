//! Reads what `assign` names after the variable: its channel or channels.
#![tactic(auto, unfolding(crate::proofs::Opened::Clauses::channels))]

ghost use Rattle.std.specs.Prelude.{Some};
ghost use Rattle.snl_lex.specs.declared.kind.Kind.TheVariants as kind;
ghost use Rattle.snl_grammar.specs.Reading.Clauses as spec;
ghost use Rattle.snl_grammar.specs.Steps as read;
ghost use Rattle.snl_expression.specs.Reads.{ReadsFrom};

use crate::clause::operands::subscript;
use snl_expression::{Stop, accept, expect, kind_at, past, single, texts, until};
use snl_grammar::Step;
use snl_grammar::tree::clause::Channel;
use snl_lex::Kind;
use sqlite_items::Items;
use std::alloc::Global;

// "," [ texts ], with no texts before "}"
// , "sp:b"
fn after_comma(
    alloc: Global,
    kinds: &[Kind],
    at: usize,
) -> Result<(Step<Items<usize>, bool>, usize), Stop>
    ensures { ReadsFrom kinds.now at result spec.after_comma }
{
    let at = expect(kinds, at, Kind::Comma)?;
    match kind_at(kinds, at) {
        Some(Kind::CloseBrace) => Ok((Step::Last(None, true), at)),
        _ => {
            let (text, at) = texts(alloc, kinds, at)?;
            Ok((Step::More(text), at))
        }
    }
}

// [ "," [ texts ] ], with no texts before "}"
// , "sp:b"
fn text_step(
    alloc: Global,
    kinds: &[Kind],
    at: usize,
) -> Result<(Step<Items<usize>, bool>, usize), Stop>
    ensures { ReadsFrom kinds.now at result spec.text_step }
{
    match kind_at(kinds, at) {
        Some(Kind::Comma) => after_comma(alloc, kinds, at),
        _ => Ok((Step::Last(None, false), at)),
    }
}

// texts { "," texts } [","] "}"
// "sp:a", "sp:b" }
fn some_elements(
    alloc: Global,
    kinds: &[Kind],
    at: usize,
    to: bool,
) -> Result<(Channel, usize), Stop>
    ensures { ReadsFrom kinds.now at result (spec.some_elements to) }
{
    let (first, at) = texts(alloc, kinds, at)?;
    let found = single(alloc, first)?;
    let ((texts, trailing), at) = until(
        alloc,
        kinds,
        at,
        found,
        |kinds, at| text_step(alloc, kinds, at),
    )?;
    let channel = Channel::Elements {
        to,
        texts,
        trailing,
    };
    past(kinds, at, Kind::CloseBrace, channel)
}

// "}"
// }
fn no_elements(alloc: Global, kinds: &[Kind], at: usize, to: bool) -> Result<(Channel, usize), Stop>
    ensures { ReadsFrom kinds.now at result (spec.elements_by to (Some kind.CloseBrace)) }
{
    let at = expect(kinds, at, Kind::CloseBrace)?;
    let channel = Channel::Elements {
        to,
        texts: Items::new(alloc),
        trailing: false,
    };
    Ok((channel, at))
}

// "{" [ texts { "," texts } [","] ] "}"
// { "sp:a", "sp:b" }
fn elements(alloc: Global, kinds: &[Kind], at: usize, to: bool) -> Result<(Channel, usize), Stop>
    ensures { ReadsFrom kinds.now at result (spec.elements to) }
{
    let at = expect(kinds, at, Kind::OpenBrace)?;
    match kind_at(kinds, at) {
        Some(Kind::CloseBrace) => no_elements(alloc, kinds, at, to),
        _ => some_elements(alloc, kinds, at, to),
    }
}

// texts
// "sp:" "a"
fn whole(alloc: Global, kinds: &[Kind], at: usize, to: bool) -> Result<(Channel, usize), Stop>
    ensures { ReadsFrom kinds.now at result (spec.whole to) }
{
    let (text, at) = texts(alloc, kinds, at)?;
    Ok((Channel::Whole { to, text }, at))
}

// texts | "{" [ texts { "," texts } [","] ] "}"
// "sp:a"
fn channel_to(alloc: Global, kinds: &[Kind], at: usize, to: bool) -> Result<(Channel, usize), Stop>
    ensures { ReadsFrom kinds.now at result (spec.channel_to to) }
{
    match kind_at(kinds, at) {
        Some(Kind::OpenBrace) => elements(alloc, kinds, at, to),
        _ => whole(alloc, kinds, at, to),
    }
}

// ["to"] ( texts | "{" [ texts { "," texts } [","] ] "}" )
// to { "sp:a", "sp:b" }
fn named_channel(alloc: Global, kinds: &[Kind], at: usize) -> Result<(Channel, usize), Stop>
    ensures { ReadsFrom kinds.now at result spec.named_channel }
{
    let (to, at) = accept(kinds, at, Kind::To);
    channel_to(alloc, kinds, at, to)
}

// "[" INT "]" ["to"] texts
// [2] to "sp:a"
fn element(alloc: Global, kinds: &[Kind], at: usize) -> Result<(Channel, usize), Stop>
    ensures { ReadsFrom kinds.now at result spec.element }
{
    let (subscript, at) = subscript(kinds, at)?;
    let (to, at) = accept(kinds, at, Kind::To);
    let (text, at) = texts(alloc, kinds, at)?;
    let channel = Channel::Element {
        subscript,
        to,
        text,
    };
    Ok((channel, at))
}

// [ "[" INT "]" ["to"] texts | ["to"] ( texts | "{" [ texts { "," texts } [","] ] "}" ) ]
// to "sp:a"
pub(super) fn channel(alloc: Global, kinds: &[Kind], at: usize) -> Result<(Channel, usize), Stop>
    ensures { ReadsFrom kinds.now at result spec.channel }
{
    match kind_at(kinds, at) {
        Some(Kind::Semicolon) => Ok((Channel::Anonymous, at)),
        Some(Kind::OpenBracket) => element(alloc, kinds, at),
        _ => named_channel(alloc, kinds, at),
    }
}
