//! What may come after some tokens of an item: single kinds, then groups.

use crate::reading::tokens_of;
use snl_cut::OutOfMemory;
use snl_expected::{Description, describe, expected_after, phrase};
use snl_lex::kind_of;
use std::alloc::Global;
use std::process::Abort;
use std::test::Fail;

/// The front of an item, and what may come after it.
type Row = (&'static str, &'static str);

const ROWS: [Row; 20] = [
    ("", "an item"),
    ("when", ""),
    ("int x;", ""),
    ("int x", "';' ',' '(' '[' '='"),
    ("int x =", "'{' an operand"),
    ("int f(int a,", "a type"),
    ("unsigned", "'const' 'char' 'short' 'int' 'long' a name '*'"),
    ("program p", "'('"),
    ("program p (", "a string"),
    ("ss a", "'{'"),
    ("option", "'+' '-'"),
    ("sync x f", "';'"),
    ("assign x \"pv\"", "';' a string"),
    ("exit { a", "';' ',' an operator"),
    ("exit { if (a) b", "';' ',' an operator"),
    ("exit { for (i = 0; i < 3", "';' ',' an operator"),
    ("state s {", "'}' a member of a state"),
    ("state s { int x", "';' ',' '[' '='"),
    ("state s { when () { }", "'state' 'exit'"),
    ("state s { when (a) { if (a) x;", "'}' 'else' a statement"),
];

fn add(text: &mut String, phrase: &str) -> Result<(), OutOfMemory> {
    if !text.is_empty() {
        text.push_str(" ")?;
    }
    text.push_str(phrase)?;
    Ok(())
}

fn words_of(alloc: Global, description: &Description) -> Result<String, OutOfMemory> {
    let mut text = String::new(alloc);
    for kind in &description.kinds {
        add(&mut text, phrase(*kind))?;
    }
    for group in &description.groups {
        add(&mut text, group.phrase())?;
    }
    Ok(text)
}

fn expected_in(alloc: Global, text: &str) -> Result<String, Fail> {
    let bytes = text.as_bytes();
    let mut kinds = Vec::new(alloc);
    for piece in &tokens_of(alloc, bytes)? {
        kinds.push(kind_of(bytes, *piece))?;
    }
    let expected = expected_after(alloc, &kinds)?;
    let description = describe(alloc, &expected.kinds, &expected.others)?;
    Ok(words_of(alloc, &description)?)
}

fn try_row(rt: &impl Abort, alloc: Global, row: &Row) -> Result<(), Fail> {
    let (text, wanted) = row;
    let found = expected_in(alloc, text)?;
    assert!(rt; found.as_str() == *wanted, "after {text}");
    Ok(())
}

#[test]
fn tells_what_may_come(rt: HostRuntime) -> Result<(), Fail> {
    for row in &ROWS {
        try_row(&rt, rt.alloc(), row)?;
    }
    Ok(())
}
