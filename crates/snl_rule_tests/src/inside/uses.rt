//! Items with the names that they use, the states that they lead to, and what can wake them.

ghost use Rattle.std.specs.Prelude.{All};
ghost use Rattle.snl_lex.specs.Pieces.{LiesIn};

use crate::inside::asked::{Asked, Row, expect_answers};
use crate::words::add_word;
use snl_walk::{Occurrence, Source, WakeUse, targets, uses, wake_uses};
use std::test::Fail;

// The tokens with these numbers.
fn add_tokens(source: &Source, words: &mut Vec<u8>, tokens: &[usize]) -> Result<(), Fail>
    requires { All (LiesIn source.now.text.now) source.now.tokens.now }
{
    for token in tokens {
        add_word(words, source.bytes(*token))?;
    }
    Ok(())
}

fn add_wake_use(source: &Source, words: &mut Vec<u8>, one: &WakeUse) -> Result<(), Fail>
    requires { All (LiesIn source.now.text.now) source.now.tokens.now }
{
    words.extend_from_slice(source.bytes(one.token))?;
    if let Some(value) = one.subscript {
        words.extend_from_slice(format!(in source.alloc; "[{value}]")?.as_bytes())?;
    }
    Ok(words.push(b' ')?)
}

/// Adds what can wake an item: each use in its conditions, with its subscript in brackets.
pub fn add_wake_uses(source: &Source, words: &mut Vec<u8>, found: &[Occurrence]) -> Result<(), Fail>
    requires { All (LiesIn source.now.text.now) source.now.tokens.now }
{
    for one in &wake_uses(source, found)? {
        add_wake_use(source, words, one)?;
    }
    Ok(())
}

/// Adds what an item uses; after a bar the states that it leads to; after another what can wake it.
pub fn add_uses(source: &Source, words: &mut Vec<u8>, found: &[Occurrence]) -> Result<(), Fail>
    requires { All (LiesIn source.now.text.now) source.now.tokens.now }
{
    add_tokens(source, words, &uses(source.alloc, found)?)?;
    words.extend_from_slice(b"| ")?;
    add_tokens(source, words, &targets(source.alloc, found)?)?;
    words.extend_from_slice(b"| ")?;
    add_wake_uses(source, words, found)
}

static ITEMS: [Row; 4] = [
    ("int x = y;", "y | | "),
    ("entry { f(a, a); state j; }", "a a | | "),
    (
        "state i { int x = y[1]; when (b[2] && c(d[e])[3] || k[1.0]) { f; state l; } state c when () { } exit }",
        "y b d e k f | l c | b[2] d e k ",
    ),
    (
        "state i { when (a[0x10u], a[(1)], a[1][2].m, a.m[1], (a)[1]) { } state i }",
        "a a a a a | i | a[16] a a[1] a a ",
    ),
];

#[test]
fn what_items_say(rt: HostRuntime) -> Result<(), Fail> {
    expect_answers(&rt, rt.alloc(), Asked::Uses, &ITEMS)
}
