//! What is said where an item stops: where something is wanted, and the words.

use crate::reading::{fault_of, tokens_of};
use snl_lex::Piece;
use snl_notes::{Note, Wanted, note_of};
use snl_syntax::ParseFault;
use std::alloc::Global;
use std::process::Abort;
use std::test::Fail;

/// A text that is no item, where something is wanted, and the words.
type Row = (&'static str, Wanted, &'static str);

const ROWS: [Row; 29] = [
    (
        "int x",
        Wanted::After(1),
        "expected ';', ',', '(', '[' or '='",
    ),
    (
        "state s { int x }",
        Wanted::InPlaceOf(5),
        "expected ';', ',', '[' or '='",
    ),
    (
        "exit { a }",
        Wanted::InPlaceOf(3),
        "expected ';', ',' or an operator",
    ),
    (
        "int x = ;",
        Wanted::InPlaceOf(3),
        "expected '{' or an operand",
    ),
    (
        "assign x \"pv\" monitor",
        Wanted::InPlaceOf(3),
        "expected ';' or a string",
    ),
    (
        "state s { when () { } }",
        Wanted::InPlaceOf(8),
        "expected 'state' or 'exit'",
    ),
    ("option r;", Wanted::InPlaceOf(1), "expected '+' or '-'"),
    ("sync x f y;", Wanted::InPlaceOf(3), "expected ';'"),
    (
        "unsigned float x;",
        Wanted::InPlaceOf(1),
        "expected 'const', 'char', 'short', 'int', 'long', a name or '*'",
    ),
    (
        "int f(int a, ) { }",
        Wanted::InPlaceOf(6),
        "expected a type",
    ),
    (
        "exit { for (i = 0; i < 3) { } }",
        Wanted::InPlaceOf(11),
        "expected ';', ',' or an operator",
    ),
    (
        "exit { if (a) b else c; }",
        Wanted::InPlaceOf(7),
        "expected ';', ',' or an operator",
    ),
    (
        "state s { when (x > 3 { }",
        Wanted::InPlaceOf(8),
        "expected ')', ',' or an operator",
    ),
    ("ss a", Wanted::After(1), "expected '{'"),
    ("program p (", Wanted::After(2), "expected a string"),
    ("when () { }", Wanted::InPlaceOf(0), "expected an item"),
    (
        "state s { when (a) { if (a) x;",
        Wanted::After(13),
        "expected '}', 'else' or a statement",
    ),
    (
        "stat s {",
        Wanted::InPlaceOf(0),
        "expected an item; did you mean 'state'?",
    ),
    (
        "monitr x;",
        Wanted::InPlaceOf(0),
        "expected an item; did you mean 'monitor'?",
    ),
    (
        "sync2 x f;",
        Wanted::InPlaceOf(0),
        "expected an item; did you mean 'sync'?",
    ),
    ("level = 3;", Wanted::InPlaceOf(0), "expected an item"),
    (
        "state s { whn (a) { } exit }",
        Wanted::InPlaceOf(3),
        "expected '}' or a member of a state; did you mean 'when'?",
    ),
    (
        "exit { if (a) { x; } els { y; } }",
        Wanted::InPlaceOf(11),
        "expected ';', ',' or an operator",
    ),
    (
        "state s { when () { } xit }",
        Wanted::InPlaceOf(8),
        "expected 'state' or 'exit'; did you mean 'exit'?",
    ),
    (
        "assign x too \"pv\";",
        Wanted::InPlaceOf(2),
        "expected ';', '{', 'to', a string or '['; did you mean 'to'?",
    ),
    (
        "int f(a) { }",
        Wanted::InPlaceOf(3),
        "expected ')' or a type",
    ),
    (
        "staet s {",
        Wanted::InPlaceOf(0),
        "expected an item; did you mean 'state'?",
    ),
    ("xi { }", Wanted::InPlaceOf(0), "expected an item"),
    (
        "int x; int y;",
        Wanted::InPlaceOf(3),
        "nothing may come here within 100 levels",
    ),
];

fn note_in(alloc: Global, text: &[u8]) -> Result<Option<Note>, Fail> {
    let tokens = tokens_of(alloc, text)?;
    match fault_of(alloc, text, &tokens) {
        Some(ParseFault::NoItem { at }) => Ok(note_of(alloc, text, &tokens, at)?),
        _ => Ok(None),
    }
}

fn is_said(note: &Option<Note>, wanted: Wanted, words: &str) -> bool {
    match note {
        Some(note) => note.wanted == wanted && note.words.as_str() == words,
        None => false,
    }
}

fn try_row(rt: &impl Abort, alloc: Global, row: &Row) -> Result<(), Fail> {
    let (text, wanted, words) = row;
    let note = note_in(alloc, text.as_bytes())?;
    assert!(rt; is_said(&note, *wanted, words), "in {text}");
    Ok(())
}

#[test]
fn says_what_is_wanted(rt: HostRuntime) -> Result<(), Fail> {
    for row in &ROWS {
        try_row(&rt, rt.alloc(), row)?;
    }
    Ok(())
}

// So many open parentheses.
fn add_open(text: &mut String, count: usize) -> Result<(), Fail> {
    for _ in 0..count {
        text.push_str("(")?;
    }
    Ok(())
}

// What is said after so many, the last of which is the token with a number.
fn try_levels(
    rt: &impl Abort,
    alloc: Global,
    count: usize,
    last: usize,
    words: &str,
) -> Result<(), Fail> {
    let mut text = String::from_str(alloc, "int v = ")?;
    add_open(&mut text, count)?;
    let note = note_in(alloc, text.as_bytes())?;
    assert!(rt;
        is_said(&note, Wanted::After(last), words),
        "{count} levels"
    );
    Ok(())
}

#[test]
fn says_where_levels_end(rt: HostRuntime) -> Result<(), Fail> {
    try_levels(&rt, rt.alloc(), 100, 102, "expected a type or an operand")?;
    let none = "nothing may come here within 100 levels";
    try_levels(&rt, rt.alloc(), 101, 103, none)
}
