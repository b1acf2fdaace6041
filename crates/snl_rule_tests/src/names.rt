//! Texts with what their names mean, told from the rules on scopes.

use crate::questions::{Question, Row, expect_answers};
use std::test::Fail;

static SCOPES: &[u8] = b"program p\nint a, b, a;\nss s {\nint b;\nstate i { int a; }\n}\n%{ }%";

static IN_SCOPES: [Row; 21] = [
    (Question::EnclosingSet(1), b"-"),
    (Question::EnclosingSet(2), b"-"),
    (Question::EnclosingSet(3), b"2"),
    (Question::EnclosingSet(5), b"2"),
    (Question::EnclosingSet(6), b"-"),
    (Question::EnclosingSet(7), b"-"),
    (Question::BeginsSet(2), b"yes"),
    (Question::BeginsSet(5), b"no"),
    (Question::BeginsSet(7), b"no"),
    (Question::NamedState(4), b"yes"),
    (Question::NamedState(2), b"no"),
    (Question::NamedState(7), b"no"),
    (Question::Level(4, b"b"), b"state set"),
    (Question::Level(4, b"a"), b"program"),
    (Question::Level(6, b"b"), b"program"),
    (Question::Level(4, b"i"), b"-"),
    (Question::Level(7, b"a"), b"-"),
    (Question::Target(4, b"i"), b"yes"),
    (Question::Target(4, b"s"), b"no"),
    (Question::Target(6, b"i"), b"no"),
    (Question::Kind(6, b"b"), b"other"),
];

// Its declarations have the numbers 0 to 4, 6 and 8 to 10; 5 is the state set and 7 its state.
static DECLARED: &[u8] =
    b"evflag a;\nint x, f;\nevflag f;\nint a;\nss s {\nevflag b;\nstate i { evflag a; int x; when () { } exit }\n}\nstate k { evflag c; when () { } exit }";

static IN_DECLARED: [Row; 23] = [
    (Question::Flags, b"0 6 8 10 "),
    (Question::FlagNumber(0), b"1"),
    (Question::FlagNumber(6), b"2"),
    (Question::FlagNumber(8), b"3"),
    (Question::FlagNumber(10), b"4"),
    (Question::FlagNumber(1), b"-"),
    (Question::FlagNumber(3), b"-"),
    (Question::FlagNumber(5), b"-"),
    (Question::FlagNumber(11), b"-"),
    (Question::Meaning(6, b"a"), b"8"),
    (Question::Meaning(5, b"a"), b"0"),
    (Question::Meaning(6, b"b"), b"6"),
    (Question::Meaning(0, b"b"), b"-"),
    (Question::Meaning(6, b"f"), b"2"),
    (Question::Meaning(6, b"i"), b"-"),
    (Question::Meaning(8, b"c"), b"10"),
    (Question::Meaning(0, b"c"), b"-"),
    (Question::Declared(8), b"state 6 at 6.4 .e"),
    (Question::Declared(4), b"program at 3.1 .a"),
    (Question::Declared(6), b"state set 4 at 5.1 .e"),
    (Question::Declared(5), b"-"),
    (Question::Declared(7), b"-"),
    (Question::Declared(11), b"-"),
];

#[test]
fn what_names_mean(rt: HostRuntime) -> Result<(), Fail> {
    expect_answers(&rt, rt.alloc(), SCOPES, &IN_SCOPES)?;
    expect_answers(&rt, rt.alloc(), DECLARED, &IN_DECLARED)
}

// A text, and what the name `n` stands for in its first item.
static BASES: [(&[u8], Row); 5] = [
    (b"int n;", (Question::Kind(0, b"n"), b"other")),
    (b"evflag n;", (Question::Kind(0, b"n"), b"event flag")),
    (b"foreign n;", (Question::Kind(0, b"n"), b"foreign")),
    (b"int n() { }", (Question::Kind(0, b"n"), b"function")),
    (b"int m;", (Question::Kind(0, b"n"), b"-")),
];

#[test]
fn what_names_stand_for(rt: HostRuntime) -> Result<(), Fail> {
    for (text, row) in &BASES {
        expect_answers(&rt, rt.alloc(), text, &[*row])?;
    }
    Ok(())
}
