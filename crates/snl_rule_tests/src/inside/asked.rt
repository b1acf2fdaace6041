//! What an item is asked: a text that is one item comes in, and the answer goes out as words.

ghost use Rattle.std.specs.Prelude.{All, ◌<◌, length};
ghost use Rattle.snl_lex.specs.Pieces.{LiesIn};

use crate::inside::findings::add_findings;
use crate::inside::told::add_occurrences;
use crate::inside::uses::{add_uses, add_wake_uses};
use snl_cut::Count;
use snl_lex::Piece;
use snl_reading::tokens_of;
use snl_syntax::parse_item;
use snl_walk::{Occurrence, Source, occurrences};
use std::alloc::Global;
use std::process::Abort;
use std::test::Fail;

/// What an item is asked.
#[derive(Clone, Copy)]
pub enum Asked {
    /// What occurs in it.
    Occurrences,
    /// What is wrong in it, among items that the tests take for its own.
    Findings,
    /// What it uses, where it leads to and what can wake it.
    Uses,
    /// What can wake it.
    WakeUses,
}

/// An item, and the answer.
pub type Row = (&'static str, &'static str);

fn answer(source: &Source, found: &[Occurrence], asked: Asked) -> Result<Vec<u8>, Fail>
    requires { All (LiesIn source.now.text.now) source.now.tokens.now }
{
    let mut words = Vec::new(source.alloc);
    match asked {
        Asked::Occurrences => add_occurrences(source, &mut words, found)?,
        Asked::Findings => add_findings(source, &mut words, found)?,
        Asked::Uses => add_uses(source, &mut words, found)?,
        Asked::WakeUses => add_wake_uses(source, &mut words, found)?,
    }
    Ok(words)
}

fn answer_at(alloc: Global, text: &[u8], tokens: &[Piece], asked: Asked) -> Result<Vec<u8>, Fail>
    requires lie_in { All (LiesIn text.now) tokens.now }
    requires some { 0 < length tokens.now }
{
    let tree = parse_item(alloc, text, tokens, &mut Count::new())?;
    let source = Source {
        text,
        tokens,
        alloc,
    };
    let found = occurrences(&source, &tree)?;
    answer(&source, &found, asked)
}

fn answer_of(alloc: Global, text: &[u8], asked: Asked) -> Result<Vec<u8>, Fail> {
    let tokens = tokens_of(alloc, text)?;
    if tokens.is_empty() {
        return Err("no item")?;
    }
    answer_at(alloc, text, &tokens, asked)
}

/// Asks an item.
pub fn expect_answer(
    rt: &impl Abort,
    alloc: Global,
    asked: Asked,
    text: &str,
    wanted: &str,
) -> Result<(), Fail> {
    let answer = answer_of(alloc, text.as_bytes(), asked)?;
    assert!(rt;
        answer.as_slice() == wanted.as_bytes(),
        "{text} has {answer:?}"
    );
    Ok(())
}

/// Asks each item.
pub fn expect_answers(
    rt: &impl Abort,
    alloc: Global,
    asked: Asked,
    rows: &[Row],
) -> Result<(), Fail> {
    for (text, wanted) in rows {
        expect_answer(rt, alloc, asked, text, wanted)?;
    }
    Ok(())
}
