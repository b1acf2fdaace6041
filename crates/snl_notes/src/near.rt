//! The word that a name is nearly spelled as. In: the name, and the kinds of the tokens that may
//! come. Out: one of these, if it is a word and few changes of the name lead to it.

ghost use Rattle.std.specs.Prelude.{◌≡◌, IfOk, fold, option_copied};
ghost use Rattle.snl_notes.specs.Near.{distance, few, near_word, nearer, nearest_of, none_yet};
ghost use Rattle.snl_notes.specs.Near.{quotes_word, text_in, without_quotes, word_in};
ghost use Rattle.snl_notes.specs.Near.{word_of};

use snl_cut::OutOfMemory;
use snl_expected::phrase;
use snl_lex::Kind;
use std::alloc::Global;
use std::str;
use strsim::osa_distance;

/// A longer name is near to none of the words.
const LONGEST: usize = 16;

/// The nearest word so far, if there is one, and how many changes are too many for a nearer one.
#[derive(Clone, Copy)]
pub struct Nearest {
    pub word: Option<Kind>,
    pub below: usize,
}

// Whether a phrase is a word in quotes.
fn quotes_word(phrase: &[u8]) -> bool
    ensures { result ≡ quotes_word phrase.now }
{
    phrase.len() > 1 && phrase[0] == b'\'' && b'a' <= phrase[1] && phrase[1] <= b'z'
}

fn without_quotes(phrase: &'static [u8]) -> &'static [u8]
    ensures { result.now ≡ without_quotes phrase.now }
{
    if phrase.len() < 2 {
        return b"";
    }
    &phrase[1..phrase.len() - 1]
}

/// Bytes as text, where they are text.
#[tactic(auto, using(crate::proofs::Texts::is_text, crate::proofs::Texts::is_no_text))]
pub fn text_in(bytes: &[u8]) -> Option<&str>
    ensures { option_copied result ≡ text_in bytes.now }
{
    match str::from_utf8(bytes) {
        Ok(text) => Some(text),
        Err(_) => None,
    }
}

// The text of a kind that is a reserved word.
fn word_of(kind: Kind) -> Option<&'static str>
    ensures { option_copied result ≡ word_of kind }
{
    let phrase = phrase(kind).as_bytes();
    if !quotes_word(phrase) {
        return None;
    }
    text_in(without_quotes(phrase))
}

fn distance(alloc: Global, name: &str, word: &str) -> Result<usize, OutOfMemory>
    ensures { IfOk result (λ changes. changes ≡ distance name.now word.now) }
{
    Ok(osa_distance(alloc, name, word)?)
}

// The nearest word, with one more that is looked at.
fn nearer(alloc: Global, name: &str, nearest: Nearest, kind: Kind) -> Result<Nearest, OutOfMemory>
    ensures { IfOk result (λ next. next ≡ nearer name.now nearest kind) }
{
    let Some(word) = word_of(kind) else {
        return Ok(nearest);
    };
    let changes = distance(alloc, name, word)?;
    if changes < nearest.below {
        return Ok(Nearest {
            word: Some(kind),
            below: changes,
        });
    }
    Ok(nearest)
}

// How many changes of a name are few.
fn few(name: &str) -> usize
    ensures { result ≡ few name.now }
{
    (name.len() / 3).min(3)
}

fn nearest_of(alloc: Global, name: &str, kinds: &[Kind]) -> Result<Nearest, OutOfMemory>
    ensures { IfOk result (λ nearest. nearest ≡ nearest_of name.now kinds.now) }
{
    let mut nearest = Nearest {
        word: None,
        below: few(name) + 1,
    };
    for kind in kinds {
        nearest = nearer(alloc, name, nearest, *kind)?;
    }
    Ok(nearest)
}

/// The first of the nearest words among these kinds, if few changes of the name lead to one.
#[tactic(auto, unfolding(crate::specs::Near::near_word))]
pub fn near_word(alloc: Global, name: &str, kinds: &[Kind]) -> Result<Option<Kind>, OutOfMemory>
    ensures { IfOk result (λ word. word ≡ near_word name.now kinds.now) }
{
    if name.len() > LONGEST {
        return Ok(None);
    }
    let nearest = nearest_of(alloc, name, kinds)?;
    Ok(nearest.word)
}
