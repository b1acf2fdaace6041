//! Nesting: a hundred levels of each kind are read and let go on the stack that a program has, and
//! one level more is refused.

use crate::reading::{fault_of, tokens_of};
use snl_syntax::ParseFault;
use std::alloc::Global;
use std::test::Fail;

/// A text is a head, an opening part so many times, an inner part, a closing part as many times,
/// and a tail. After these five parts come how many times the opening part is within 100 levels,
/// and the first token within 101, where it is there once more.
type Nest = (
    &'static str,
    &'static str,
    &'static str,
    &'static str,
    &'static str,
    usize,
    usize,
);

static NESTS: [Nest; 36] = [
    ("int x = ", "(", "1", ")", ";", 100, 104),
    ("int x = ", "a[", "1", "]", ";", 100, 205),
    ("int x = ", "f(", "1", ")", ";", 100, 205),
    ("int x = ", "f(", "", ")", ";", 101, 205),
    ("int x = ", "((int)", "1", ")", ";", 99, 401),
    ("int x = ", "(", "sizeof(int)", ")", ";", 99, 105),
    ("int x = ", "a ? ", "1", " : 2", ";", 100, 205),
    ("int x = ", "{", "1", "}", ";", 100, 104),
    ("int x = ", "{", "{}", ",}", ";", 100, 104),
    ("int x[", "(", "1", ")", "];", 99, 103),
    ("int f(int x[", "(", "1", ")", "]);", 98, 105),
    ("struct s { int x[", "(", "1", ")", "]; };", 98, 105),
    ("exit ", "{", ";", "}", "", 100, 102),
    ("exit ", "{", "", "}", "", 101, 102),
    ("exit { ", "if (a) ", ";", "", "}", 99, 400),
    ("exit { ", "while (a) ", ";", "", "}", 99, 400),
    ("exit { ", "for (;;) ", ";", "", "}", 99, 499),
    ("exit { ", "for (a;;) ", ";", "", "}", 99, 598),
    ("exit { ", "if (a) ; else while (a) ", ";", "", "}", 49, 500),
    ("state i { when (", "(", "1", ")", ") { } exit }", 98, 104),
    ("state i { when () { ", "{", "", "}", " } exit }", 99, 106),
    (
        "state i { when () { ",
        "{",
        "if (1) ;",
        "}",
        " } exit }",
        97,
        107,
    ),
    ("state i { entry ", "{", "", "}", " }", 100, 104),
    ("state i { int x = ", "(", "1", ")", "; }", 99, 106),
    ("int f() ", "{", "", "}", "", 101, 105),
    ("exit { int x = ", "{", "", "}", "; }", 100, 105),
    // what is directly in the innermost braces
    ("exit ", "{", "int x;", "}", "", 100, 102),
    ("exit ", "{", "%{c}%", "}", "", 100, 102),
    ("exit ", "{", "break;", "}", "", 100, 102),
    ("exit ", "{", "return;", "}", "", 100, 102),
    ("exit ", "{", "state j;", "}", "", 100, 102),
    ("exit ", "{", "int x[] = {};", "}", "", 100, 102),
    ("exit ", "{", "if (a) { }", "}", "", 99, 103),
    ("exit ", "{", "while (a) { }", "}", "", 99, 103),
    ("exit ", "{", "for (;;) { }", "}", "", 99, 103),
    ("exit ", "{", "int x[1];", "}", "", 99, 104),
];

fn text_of(alloc: Global, nest: &Nest, times: usize) -> Result<Vec<u8>, Fail> {
    let (head, open, inner, close, tail, _most, _blamed) = *nest;
    let mut text = Vec::from_slice(alloc, head.as_bytes())?;
    for _time in 0..times {
        text.extend_from_slice(open.as_bytes())?;
    }
    text.extend_from_slice(inner.as_bytes())?;
    for _time in 0..times {
        text.extend_from_slice(close.as_bytes())?;
    }
    text.extend_from_slice(tail.as_bytes())?;
    Ok(text)
}

// What is answered for a text.
fn fault_in(alloc: Global, text: &[u8]) -> Result<Option<ParseFault>, Fail> {
    let tokens = tokens_of(alloc, text)?;
    Ok(fault_of(alloc, text, &tokens))
}

// What is answered where the opening part is in the text so many times.
fn fault_at(alloc: Global, nest: &Nest, times: usize) -> Result<Option<ParseFault>, Fail> {
    let text = text_of(alloc, nest, times)?;
    fault_in(alloc, &text)
}

#[test]
fn a_hundred_levels_are_read(rt: HostRuntime) -> Result<(), Fail> {
    for nest in &NESTS {
        let (head, open, inner, _close, _tail, most, blamed) = *nest;
        let found = fault_at(rt.alloc(), nest, most)?;
        let found_beyond = fault_at(rt.alloc(), nest, most.saturating_add(1))?;
        let wanted = Some(ParseFault::NoItem { at: blamed });
        assert!(rt;
            found == None && found_beyond == wanted,
            "at {head} {open} {inner}"
        );
    }
    Ok(())
}

// Texts that are as long as they may be, since nothing in them opens a level: a head, a part so
// many times, and a tail.
static CHAINS: [(&str, &str, &str); 5] = [
    // an `if` after an `else` is no level deeper
    ("exit { ", "if (a) ; else ", "; }"),
    // nor is a prefix, an operator, a suffix, a condition or an assignment
    ("int x = ", "- (int) a + ", "1;"),
    ("int x = ", "a[1] = ", "b;"),
    ("int x = ", "a ? 1 : ", "b;"),
    ("int x = a", "[1](2).b", ";"),
];

#[test]
fn chains_have_no_levels(rt: HostRuntime) -> Result<(), Fail> {
    for (head, part, tail) in &CHAINS {
        let found = fault_at(rt.alloc(), &(head, part, tail, "", "", 0, 0), 1000)?;
        assert!(rt; found == None, "at {head} {part}");
    }
    Ok(())
}
