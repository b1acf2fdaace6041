//! The parser's call: the tokens of one item, as pieces of a text, come in, and its tree goes out.

ghost use Rattle.std.specs.Prelude.{◌≡◌, ◌<◌, All, IfOk, None, Some, min, position, length};
ghost use Rattle.snl_cut.specs.Cut.{ticked};
ghost use Rattle.snl_grammar.specs.Grammar.Items.{IsItem, IsOnlyItem, MakeNoItem};
ghost use Rattle.snl_grammar.specs.Outcome.{parsed_in};
ghost use Rattle.snl_grammar.specs.Parsing.{LiesIn, is_bad, kinds_in};
ghost use Rattle.snl_syntax.specs.Answered.{IfNoItem, bad_in};
ghost use Rattle.snl_grammar.specs.Reading.Items.{fault_of, item_of};
ghost use Rattle.snl_grammar.specs.Spelling.Base.{Matches};
ghost use Rattle.snl_grammar.specs.Spelling.Items.{spell_item};
ghost use Rattle.snl_grammar.specs.Tokens.{ahead};
ghost use Rattle.snl_grammar.specs.Viability.{IsFaultAt};

use crate::fault::ParseFault;
use crate::item::item_in;
use snl_cut::{Count, OutOfMemory};
use snl_expression::Stop;
use snl_grammar::tree::item::Item;
use snl_grammar::{Parsed, blamed_at_fault, item_read, item_spelled, one_item};
use snl_lex::{Class, Kind, Piece, kind_of};
use std::alloc::{AllocError, Global};

fn is_bad(piece: &Piece) -> bool
    ensures { result ≡ is_bad piece.now }
{
    matches!(piece.kind, Class::Bad)
}

// The number of the first faulty token.
fn first_bad(tokens: &[Piece]) -> Option<usize>
    ensures { result ≡ position is_bad tokens.now }
{
    tokens.iter().position(is_bad)
}

fn kinds_of(alloc: Global, text: &[u8], tokens: &[Piece]) -> Result<Vec<Kind>, AllocError>
    requires { All (LiesIn text.now) tokens.now }
    ensures { IfOk result (λ kinds. kinds.items ≡ kinds_in text.now tokens.now) }
{
    let mut kinds = Vec::with_capacity(alloc, tokens.len())?;
    for piece in tokens {
        kinds.push_reserved(kind_of(text, *piece));
    }
    Ok(kinds)
}

// The number of a token: where all were read, it is the last one that is blamed.
pub(crate) fn within(at: usize, last: usize) -> usize
    ensures { result ≡ min at last }
{
    if at < last { at } else { last }
}

#[tactic(auto, unfolding(crate::proofs::Opened::Items::item_of))]
fn read_item(alloc: Global, text: &[u8], tokens: &[Piece]) -> Result<Item, ParseFault>
    requires some { 0 < length tokens.now }
    requires within { All (LiesIn text.now) tokens.now }
    ensures bad { bad_in result ≡ None }
    ensures tree { IfOk result (λ t. item_of (kinds_in text.now tokens.now) ≡ Some t) }
    ensures none { IfNoItem result (λ n. item_of (kinds_in text.now tokens.now) ≡ None) }
    ensures inside { IfNoItem result (λ n. n < length tokens.now) }
    ensures blamed { IfNoItem result (λ n. n ≡ fault_of (kinds_in text.now tokens.now)) }
{
    let kinds = kinds_of(alloc, text, tokens)?;
    match item_in(alloc, &kinds) {
        Ok(item) => Ok(item),
        Err(Stop::OutOfMemory) => Err(ParseFault::OutOfMemory),
        Err(Stop::Here(at)) => Err(ParseFault::NoItem {
            at: within(at, tokens.len() - 1),
        }),
    }
}

/// The tree of the item that consists of these tokens; a leaf is the number of its token, from 0.
///
/// The tokens are pieces of the text, without white space, comments and markers. A faulty token is
/// found before any memory is asked for. The grammar is that of the SNL reference of the EPICS
/// sequencer 2.2 manual, with the additions of this project's profile; no token may lie within more
/// than 100 levels.
pub fn parse_item(
    alloc: Global,
    text: &[u8],
    tokens: &[Piece],
    work: &mut Count,
) -> Result<Item, ParseFault>
    requires some { 0 < length tokens.now }
    requires within { All (LiesIn text.now) tokens.now }
    ensures ticks { work.new ≡ ticked work.old }
    ensures bad { bad_in result ≡ position is_bad tokens.now }
    ensures tree { IfOk result (λ t. item_of (kinds_in text.now tokens.now) ≡ Some t) }
    ensures found { IfOk result (λ t. IsItem t (kinds_in text.now tokens.now)) }
    ensures spelled { IfOk result (λ t.
        Matches (spell_item t) (ahead (kinds_in text.now tokens.now) 0)) }
    ensures only { IfOk result (λ t. IsOnlyItem t (kinds_in text.now tokens.now)) }
    ensures none { IfNoItem result (λ n. item_of (kinds_in text.now tokens.now) ≡ None) }
    ensures no_item { IfNoItem result (λ n. MakeNoItem (kinds_in text.now tokens.now)) }
    ensures inside { IfNoItem result (λ n. n < length tokens.now) }
    ensures blamed { IfNoItem result (λ n. n ≡ fault_of (kinds_in text.now tokens.now)) }
    ensures fault { IfNoItem result (λ n. IsFaultAt (kinds_in text.now tokens.now) n) }
{
    item_read();
    item_spelled();
    one_item();
    blamed_at_fault();
    work.tick();
    match first_bad(tokens) {
        Some(at) => Err(ParseFault::BadPiece { at }),
        None => read_item(alloc, text, tokens),
    }
}

/// What the parser makes of the item that consists of these tokens: `parse_item` with want of
/// memory as the only error.
pub fn parsed(
    alloc: Global,
    text: &[u8],
    tokens: &[Piece],
    work: &mut Count,
) -> Result<Parsed, OutOfMemory>
    requires some { 0 < length tokens.now }
    requires within { All (LiesIn text.now) tokens.now }
    ensures ticks { work.new ≡ ticked work.old }
    ensures outcome { IfOk result (λ p. p ≡ parsed_in text.now tokens.now) }
{
    match parse_item(alloc, text, tokens, work) {
        Ok(tree) => Ok(Parsed::Sound(tree)),
        Err(ParseFault::OutOfMemory) => Err(OutOfMemory),
        Err(ParseFault::BadPiece { at }) => Ok(Parsed::BadToken(at)),
        Err(ParseFault::NoItem { at }) => Ok(Parsed::NoItem(at)),
    }
}
