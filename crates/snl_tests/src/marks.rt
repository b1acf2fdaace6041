//! What tokens are to the cut into items, and where the items of their lists end.

ghost use Rattle.snl_lex.specs.Pieces.{LiesIn};
ghost use Rattle.std.specs.Prelude.{All};

use crate::reading::{fault_of, tokens_of};
use snl_cut::{Count, Front, cut_all};
use snl_lex::Piece;
use snl_syntax::{Mark, ParseFault, Tokens, mark};
use std::alloc::Global;
use std::process::Abort;
use std::test::Fail;

// Tokens, and their marks.
static MARKS: [(&str, &[Mark]); 12] = [
    ("program ss", &[Mark::Program, Mark::Ss]),
    ("state entry exit", &[Mark::Body, Mark::Body, Mark::Body]),
    ("when if for", &[Mark::Other, Mark::Other, Mark::Other]),
    ("syncq syncQ", &[Mark::Other, Mark::Other]),
    (
        "int8_t struct typename",
        &[Mark::Other, Mark::Other, Mark::Other],
    ),
    (
        "State x ss_ _",
        &[Mark::Name, Mark::Name, Mark::Name, Mark::Name],
    ),
    ("\"x\" 'x'", &[Mark::Text, Mark::Other]),
    ("0x1F 1.5", &[Mark::Other, Mark::Other]),
    ("%{c}% %% d", &[Mark::CCode, Mark::CCode]),
    ("@ 'a", &[Mark::Other, Mark::Other]),
    (
        "{}();",
        &[
            Mark::OpenBrace,
            Mark::CloseBrace,
            Mark::OpenParen,
            Mark::CloseParen,
            Mark::Semicolon,
        ],
    ),
    (
        "[ ] , -> >>=",
        &[
            Mark::Other,
            Mark::Other,
            Mark::Other,
            Mark::Other,
            Mark::Other,
        ],
    ),
];

// The marks of the tokens of a text.
fn marks_in(alloc: Global, text: &[u8]) -> Result<Vec<Mark>, Fail> {
    let tokens = tokens_of(alloc, text)?;
    let mut marks = Vec::new(alloc);
    for token in &tokens {
        marks.push(mark(text, *token))?;
    }
    Ok(marks)
}

#[test]
fn tells_marks(rt: HostRuntime) -> Result<(), Fail> {
    for (text, wanted) in &MARKS {
        let marks = marks_in(rt.alloc(), text.as_bytes())?;
        assert_eq!(rt; marks.as_slice(), *wanted, "at {text}");
    }
    Ok(())
}

// The ends of the cut, and how many members were counted, through the front's bound.
fn ends_by<F: Front>(
    alloc: Global,
    front: &F,
    units: &[F::Unit],
) -> Result<(Vec<usize>, u64), Fail> {
    let mut work = Count::new();
    let ends = cut_all(alloc, front, units, &mut work)?;
    Ok((ends, work.ticks()))
}

// Where the items of a text end, and how many were counted.
fn ends_in(alloc: Global, text: &[u8]) -> Result<(Vec<usize>, u64), Fail> {
    let marks = marks_in(alloc, text)?;
    ends_by(alloc, &Tokens, &marks)
}

// Texts, and where their items end.
static CUTS: [(&str, &[usize]); 36] = [
    ("", &[]),
    ("int a = {1};", &[7]),
    ("int f() { } int x;", &[6, 9]),
    ("struct s { int x; };", &[8]),
    ("ss a x;", &[2, 4]),
    ("state i { ss b {", &[3, 6]),
    // white space, comments and markers are no tokens
    ("# 1 \"f\"\n int /* a */ x; // b\n", &[3]),
    // the block of a function ends its item, after a list of values too
    ("int a = {1}, f() { } int x;", &[12, 15]),
    ("int f(int a) { if (a) { } return 1; } ;", &[17, 18]),
    ("f() { } x;", &[5, 7]),
    // the brace that a `)` is before is the one that is closed
    ("int a = g() + {1}; int x;", &[11, 14]),
    ("int a = {f() {1}}; int x;", &[12, 15]),
    // a header has a text at least
    ("program p ()", &[3, 4]),
    ("program p (\"x\" \"y\") int x;", &[6, 9]),
    ("program p (\"x\" \"y\" int", &[5, 6]),
    ("program p (\"x\", \"y\")", &[4, 7]),
    ("program p ss a {", &[2, 5]),
    ("program program p", &[1, 3]),
    ("program;", &[1, 2]),
    // a semicolon counts braces alone
    ("int f(int a; int b) { }", &[6, 11]),
    ("struct s { int x; } int y;", &[10]),
    ("int x = (1; 2);", &[6, 9]),
    // state sets
    ("ss a { state i { when () { } exit } }", &[3, 13, 14]),
    ("ss { }", &[1, 3]),
    ("ss", &[1]),
    // what ends and begins alone
    ("}}; ; %{c}% %{d}% x", &[1, 2, 3, 4, 5, 6, 7]),
    ("int %{c}% x;", &[4]),
    ("entry { ; } exit { { } } state i { } ;", &[4, 9, 13, 14]),
    ("entry ; { }", &[2, 4]),
    // a block that follows no parenthesis ends nothing
    ("when { } x;", &[5]),
    ("{{{{", &[4]),
    ("int a = 1 { } ;", &[7]),
    // an item ends before a brace that closes nothing, and before a header or a state set anywhere
    ("int x }", &[2, 3]),
    ("int f() { program p", &[5, 7]),
    ("int f() { int ss a { }", &[6, 9, 10]),
    ("@ x; ' ", &[3, 4]),
];

fn expect_ends(rt: &impl Abort, alloc: Global, text: &str, wanted: &[usize]) -> Result<(), Fail> {
    let (ends, ticks) = ends_in(alloc, text.as_bytes())?;
    assert!(rt;
        ends.as_slice() == wanted && ticks == wanted.len() as u64,
        "{ends:?} in {text}"
    );
    Ok(())
}

#[test]
fn cuts_texts(rt: HostRuntime) -> Result<(), Fail> {
    for (text, wanted) in &CUTS {
        expect_ends(&rt, rt.alloc(), text, wanted)?;
    }
    Ok(())
}

// Texts, and the tokens of the text at which their faulty items are blamed.
static FAULTS: [(&str, &[usize]); 11] = [
    ("program p () int x;", &[2, 3]),
    ("int a = {1}, f() { } int x;", &[8]),
    ("int f(int a; int b) { } ;", &[5, 8]),
    ("struct s { int x; } int y; int z;", &[7]),
    ("ss a x;", &[1, 2]),
    ("state i { when () { ss b { } exit } }", &[6, 11]),
    ("program p ss a { state i { when () { } exit } }", &[]),
    ("int x int f() { } int y;", &[2]),
    ("int\nx\nss s { state i { } }", &[1]),
    ("} } ; int } x", &[3, 5]),
    ("program p (\"x", &[2]),
];

// The numbers, among all tokens, of those that are blamed in the items that end at these.
fn blamed_in(
    alloc: Global,
    text: &[u8],
    tokens: &[Piece],
    ends: &[usize],
) -> Result<Vec<usize>, Fail>
    requires { All (LiesIn text.now) tokens.now }
{
    let mut blamed = Vec::new(alloc);
    let mut start: usize = 0;
    for end in ends {
        let item = tokens.get(start..*end).unwrap_or(&[]);
        if let Some(ParseFault::NoItem { at }) = fault_of(alloc, text, item) {
            blamed.push(start.saturating_add(at))?;
        }
        start = *end;
    }
    Ok(blamed)
}

fn expect_blamed(rt: &impl Abort, alloc: Global, text: &str, wanted: &[usize]) -> Result<(), Fail> {
    let tokens = tokens_of(alloc, text.as_bytes())?;
    let (ends, _ticks) = ends_in(alloc, text.as_bytes())?;
    let blamed = blamed_in(alloc, text.as_bytes(), &tokens, &ends)?;
    assert!(rt; blamed.as_slice() == wanted, "{blamed:?} in {text}");
    Ok(())
}

#[test]
fn blames_tokens_of_texts(rt: HostRuntime) -> Result<(), Fail> {
    for (text, wanted) in &FAULTS {
        expect_blamed(&rt, rt.alloc(), text, wanted)?;
    }
    Ok(())
}
