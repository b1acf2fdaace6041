//! The note on a token at fault. In: the tokens of its item, and its number. Out: where something
//! is wanted, and the words.

ghost use Rattle.std.specs.Prelude.{◌≡◌, ◌++◌, [], ◌∷◌, All, IfOk, None, Some, false, option_copied};
ghost use Rattle.std.specs.Prelude.{option_map, string_bytes, true};
ghost use Rattle.snl_grammar.specs.Parsing.{LiesIn, kinds_in};
ghost use Rattle.snl_notes.specs.Notes.{meant_word, name_of, note_of, said_at, said_by, said_if, said_of};
ghost use Rattle.snl_notes.specs.Notes.{words_after};

use crate::near::{near_word, text_in};
use crate::words::sentence;
use snl_cut::OutOfMemory;
use snl_expected::{describe, expected_after, may_come};
use snl_lex::{Kind, Piece, kind_of, token_text};
use std::alloc::Global;

/// Only the first tokens of an item are noted.
const FIRST_TOKENS: usize = 4096;

/// Where something is wanted in an item: in the place of a token, or after it. Tokens are counted
/// from 0.
#[derive(Clone, Copy, Debug, PartialEq, Eq)]
pub enum Wanted {
    InPlaceOf(usize),
    After(usize),
}

/// What is said of a token at fault: where something is wanted, and what may come there.
#[derive(Debug, Drop)]
pub struct Note {
    pub wanted: Wanted,
    pub words: String,
}

fn kinds_of(alloc: Global, text: &[u8], tokens: &[Piece]) -> Result<Vec<Kind>, OutOfMemory>
    requires { All (LiesIn text.now) tokens.now }
    ensures { IfOk result (λ kinds. kinds.items ≡ kinds_in text.now tokens.now) }
{
    let mut kinds = Vec::with_capacity(alloc, tokens.len())?;
    for piece in tokens {
        kinds.push_reserved(kind_of(text, *piece));
    }
    Ok(kinds)
}

// The text of a token that is a name.
fn name_of(kind: Kind, bytes: &[u8]) -> Option<&str>
    ensures { option_copied result ≡ name_of kind bytes.now }
{
    if kind == Kind::Name {
        text_in(bytes)
    } else {
        None
    }
}

// The word that may have been meant by a name, among the kinds that may come in its place.
fn meant_word(
    alloc: Global,
    name: Option<&str>,
    expected: &[Kind],
) -> Result<Option<Kind>, OutOfMemory>
    ensures { IfOk result (λ word. word ≡ meant_word (option_copied name.entry) expected.now) }
{
    match name {
        None => Ok(None),
        Some(name) => near_word(alloc, name, expected),
    }
}

// What may come after these tokens, with the word that may have been meant by a name there.
#[tactic(auto, unfolding(crate::specs::Notes::words_after))]
fn words_after(alloc: Global, before: &[Kind], name: Option<&str>) -> Result<String, OutOfMemory>
    ensures { IfOk result (λ words. string_bytes words
        ≡ words_after before.now (option_copied name.entry)) }
{
    let expected = expected_after(alloc, before)?;
    let description = describe(alloc, &expected.kinds, &expected.others)?;
    let meant = meant_word(alloc, name, &expected.kinds)?;
    let words = sentence(alloc, &description, meant)?;
    Ok(words)
}

// What is said where the token at fault may come.
fn note_after(alloc: Global, before: &[Kind], fault: Kind) -> Result<Note, OutOfMemory>
    ensures { IfOk result (λ note. said_by note ≡ said_if true before.now fault []) }
{
    let mut tokens = Vec::new(alloc);
    tokens.extend_from_slice(before)?;
    tokens.push(fault)?;
    let words = words_after(alloc, &tokens, None)?;
    Ok(Note {
        wanted: Wanted::After(before.len()),
        words,
    })
}

// What is said where it may not.
fn note_in_place(
    alloc: Global,
    before: &[Kind],
    fault: Kind,
    bytes: &[u8],
) -> Result<Note, OutOfMemory>
    ensures { IfOk result (λ note. said_by note ≡ said_if false before.now fault bytes.now) }
{
    let words = words_after(alloc, before, name_of(fault, bytes))?;
    Ok(Note {
        wanted: Wanted::InPlaceOf(before.len()),
        words,
    })
}

// What is said of the token at fault, by the kinds of those before it.
#[tactic(auto, unfolding(crate::specs::Notes::said_of))]
fn note_by(alloc: Global, before: &[Kind], fault: Kind, bytes: &[u8]) -> Result<Note, OutOfMemory>
    ensures { IfOk result (λ note. said_by note ≡ said_of before.now fault bytes.now) }
{
    if may_come(alloc, before, fault)? {
        note_after(alloc, before, fault)
    } else {
        note_in_place(alloc, before, fault, bytes)
    }
}

/// The note on the token with a number, which is at fault in the item that consists of these
/// tokens. There is none on a token that comes after 4,096 others. The tokens before it are parsed
/// some 100 times.
#[tactic(auto, unfolding(crate::specs::Notes::note_of))]
pub fn note_of(
    alloc: Global,
    text: &[u8],
    tokens: &[Piece],
    at: usize,
) -> Result<Option<Note>, OutOfMemory>
    requires { All (LiesIn text.now) tokens.now }
    ensures { IfOk result (λ note. option_map (λ n. said_by n) note
        ≡ note_of text.now tokens.now at) }
{
    if at >= FIRST_TOKENS {
        return Ok(None);
    }
    let Some(token) = tokens.get(at) else {
        return Ok(None);
    };
    let before = kinds_of(alloc, text, &tokens[..at])?;
    let note = note_by(
        alloc,
        &before,
        kind_of(text, *token),
        token_text(text, *token),
    )?;
    Ok(Some(note))
}
