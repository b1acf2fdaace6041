//! Items: which tokens make one, which number is blamed where they don't, and the faulty pieces
//! among them.

use crate::reading::{Row, fault_of, read_tables, tokens_of};
use snl_cut::Count;
use snl_syntax::{ParseFault, parse_item};
use std::test::Fail;

const HEADERS: [Row; 10] = [
    ("program p", None),
    ("program p (\"x\")", None),
    ("program p (\"x\" \"y\")", None),
    ("program", Some(0)),
    ("program (", Some(1)),
    ("program p (", Some(2)),
    ("program p ()", Some(3)),
    ("program p (x)", Some(3)),
    ("program p (\"x\", \"y\")", Some(4)),
    ("program p;", Some(2)),
];

const SETS: [Row; 6] = [
    ("ss a {", None),
    ("ss {", Some(1)),
    ("ss a;", Some(2)),
    ("ss a { }", Some(3)),
    ("}", None),
    ("};", Some(1)),
];

const SMALL: [Row; 11] = [
    (";", None),
    (";;", Some(1)),
    ("%{c}%", None),
    ("%% c", None),
    ("%{c}% ;", Some(1)),
    ("a = 1;", Some(0)),
    ("intx ;", Some(0)),
    ("when () { } exit", Some(0)),
    ("{ }", Some(0)),
    ("()", Some(0)),
    ("if (a) ;", Some(0)),
];

const CLAUSES: [Row; 44] = [
    ("assign a;", None),
    ("assign a to \"x\" \"y\";", None),
    ("assign a \"x\";", None),
    ("assign a[1] to \"x\";", None),
    ("assign a[1] \"x\" \"y\";", None),
    ("assign a to {};", None),
    ("assign a to {\"x\"};", None),
    ("assign a {\"x\" \"y\", \"z\",};", None),
    ("assign ;", Some(1)),
    ("assign a to ;", Some(3)),
    ("assign a to b;", Some(3)),
    ("assign a.b \"x\";", Some(2)),
    ("assign a \"x\", \"y\";", Some(3)),
    ("assign a[1];", Some(5)),
    ("assign a[1 \"x\";", Some(4)),
    ("assign a[] \"x\";", Some(3)),
    ("assign a[i] \"x\";", Some(3)),
    ("assign a[1][2] \"x\";", Some(5)),
    ("assign a[1] to ;", Some(6)),
    ("assign a[1] to {\"x\"};", Some(6)),
    ("assign a to {,};", Some(4)),
    ("assign a to {1};", Some(4)),
    ("assign a to {\"x\",,};", Some(6)),
    ("assign a to {\"x\";", Some(5)),
    ("monitor a;", None),
    ("monitor a[2];", None),
    ("monitor ;", Some(1)),
    ("monitor a, b;", Some(2)),
    ("monitor a[x];", Some(3)),
    ("monitor a[2;", Some(4)),
    ("sync a f;", None),
    ("sync a to f;", None),
    ("sync a[1] to f;", None),
    ("sync a;", Some(2)),
    ("sync a to;", Some(3)),
    ("sync a to f 3;", Some(4)),
    ("syncq a;", None),
    ("syncq a[1] to f 3;", None),
    ("syncQ a f 3;", None),
    ("syncq a 3;", None),
    ("syncq a to 3;", Some(3)),
    ("syncq a f g;", Some(3)),
    ("syncq a 3 f;", Some(3)),
    ("syncq a to f 3 4;", Some(5)),
];

const OPTIONS: [Row; 12] = [
    ("option +a;", None),
    ("option -abc;", None),
    ("option a;", Some(1)),
    ("option ++a;", Some(1)),
    ("option +;", Some(2)),
    ("option +1;", Some(2)),
    ("option +to;", Some(2)),
    ("option +a b;", Some(3)),
    ("foreign a, b;", None),
    ("foreign ;", Some(1)),
    ("foreign a,;", Some(3)),
    ("foreign a b;", Some(2)),
];

const STATES: [Row; 30] = [
    ("entry { a = 1; }", None),
    ("entry ;", Some(1)),
    ("entry { };", Some(3)),
    ("exit { }", None),
    ("exit a;", Some(1)),
    ("exit { } }", Some(3)),
    ("state i { }", None),
    ("state { }", Some(1)),
    ("state i ;", Some(2)),
    ("state i { };", Some(4)),
    ("state i { int x; ; %{c}% foreign y; option -e; }", None),
    (
        "state i { assign x; monitor x; sync x f; syncq x; syncQ x; }",
        None,
    ),
    ("state i { entry { } exit { } when () { } exit }", None),
    (
        "state i { when (a > 1, b) { b = 2; } state j when () { } exit ; }",
        None,
    ),
    ("state i { program p }", Some(3)),
    ("state i { ss a { } }", Some(3)),
    ("state i { state j { } }", Some(3)),
    ("state i { a = 1; }", Some(3)),
    ("state i { { } }", Some(3)),
    ("state i { int f(); }", Some(5)),
    ("state i { struct s { int x; }; }", Some(5)),
    ("state i { entry ; }", Some(4)),
    ("state i { when { } exit }", Some(4)),
    ("state i { when (;) { } exit }", Some(5)),
    ("state i { when (a b) { } exit }", Some(6)),
    ("state i { when () state j }", Some(6)),
    ("state i { when () { } }", Some(8)),
    ("state i { when () { } state }", Some(9)),
    ("state i { when () { } exit", Some(8)),
    ("state i { when () { a = b + = c; } exit }", Some(11)),
];

static TABLES: [&[Row]; 6] = [&HEADERS, &SETS, &SMALL, &CLAUSES, &OPTIONS, &STATES];

#[test]
fn reads_items(rt: HostRuntime) -> Result<(), Fail> {
    read_tables(&rt, rt.alloc(), &TABLES)
}

// A text with faulty pieces, and the number of the first one.
static FAULTY: [(&str, usize); 5] = [
    ("@", 0),
    ("int a @ 1 @", 2),
    ("; @", 1),
    ("int a = 08;", 3),
    ("x 'a", 1),
];

#[test]
fn tells_the_first_faulty_piece(rt: HostRuntime) -> Result<(), Fail> {
    for (text, at) in &FAULTY {
        let tokens = tokens_of(rt.alloc(), text.as_bytes())?;
        let wanted = Some(ParseFault::BadPiece { at: *at });
        assert_eq!(rt;
            fault_of(rt.alloc(), text.as_bytes(), &tokens),
            wanted,
            "at {text}"
        );
    }
    Ok(())
}

#[test]
fn counts_each_call(rt: HostRuntime) -> Result<(), Fail> {
    let mut work = Count::new();
    for text in [";", "; ;", "@"] {
        let tokens = tokens_of(rt.alloc(), text.as_bytes())?;
        if !tokens.is_empty() {
            let _item = parse_item(rt.alloc(), text.as_bytes(), &tokens, &mut work);
        }
    }
    assert_eq!(rt; work.ticks(), 3);
    Ok(())
}

// Every front part of an item but a header's is none, and its last token is blamed.
#[test]
fn a_part_of_an_item_is_none(rt: HostRuntime) -> Result<(), Fail> {
    let text =
        b"state i { int x[2] = {1, f(2)}; entry { if (a) x = (int) -b; else for (;;) break; } when () { } state j }";
    let tokens = tokens_of(rt.alloc(), text)?;
    for end in 1..tokens.len() {
        let wanted = Some(ParseFault::NoItem { at: end - 1 });
        assert_eq!(rt; fault_of(rt.alloc(), text, &tokens[..end]), wanted);
    }
    assert_eq!(rt; fault_of(rt.alloc(), text, &tokens), None);
    Ok(())
}
