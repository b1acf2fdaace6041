//! Blocks and statements, each in the block of an `exit`: which tokens make them, and which number
//! is blamed where they don't.

use crate::reading::{Row, read_tables};
use std::test::Fail;

const PLAIN: [Row; 34] = [
    ("exit { ; }", None),
    ("exit { a; }", None),
    ("exit { a = 1, b = 2; }", None),
    ("exit { { } { ; { } } }", None),
    ("exit { %{c}% %% d\n }", None),
    ("exit { break; continue; }", None),
    ("exit { return; return a, b; }", None),
    ("exit { state j; }", None),
    ("exit { int x; x = 1; struct s *y[2] = {1}; ; }", None),
    ("exit { a }", Some(3)),
    ("exit { a = b + = c; }", Some(6)),
    ("exit { { ; }", Some(4)),
    ("exit { ( ) ; }", Some(3)),
    ("exit { break }", Some(3)),
    ("exit { break 1; }", Some(3)),
    ("exit { continue }", Some(3)),
    ("exit { return int; }", Some(3)),
    ("exit { return }", Some(3)),
    ("exit { return a }", Some(4)),
    ("exit { state ; }", Some(3)),
    ("exit { state j }", Some(4)),
    ("exit { state j { } }", Some(4)),
    ("exit { int ; }", Some(3)),
    ("exit { int x }", Some(4)),
    ("exit { int f(); }", Some(4)),
    ("exit { struct s { int x; }; }", Some(4)),
    ("exit { foreign x; }", Some(2)),
    ("exit { assign x; }", Some(2)),
    ("exit { monitor x; }", Some(2)),
    ("exit { option +a; }", Some(2)),
    ("exit { entry { } }", Some(2)),
    ("exit { exit { } }", Some(2)),
    ("exit { when () { } exit }", Some(2)),
    ("exit { program p }", Some(2)),
];

const CONDITIONS: [Row; 18] = [
    ("exit { if (a) ; }", None),
    ("exit { if (a, b) ; else ; }", None),
    ("exit { if (a) { } else { } }", None),
    ("exit { if (a) if (b) ; else ; else ; }", None),
    ("exit { if (a) ; else if (b) ; else if (c) ; else ; }", None),
    (
        "exit { if (a) while (b) if (c) ; else for (;;) if (d) ; else ; }",
        None,
    ),
    ("exit { if a ; }", Some(3)),
    ("exit { if () ; }", Some(4)),
    ("exit { if (a ; }", Some(5)),
    ("exit { if (int x) ; }", Some(4)),
    ("exit { if (a) }", Some(6)),
    ("exit { if (a) int x; }", Some(6)),
    ("exit { if (a) else ; }", Some(6)),
    ("exit { if (a) ; else }", Some(8)),
    ("exit { if (a) ; else int x; }", Some(8)),
    ("exit { if (a) ; else ; else ; }", Some(9)),
    ("exit { if (a) { ; } ; else ; }", Some(10)),
    ("exit { else ; }", Some(2)),
];

const LOOPS: [Row; 20] = [
    ("exit { while (a) ; }", None),
    ("exit { while (a, b) { break; } }", None),
    ("exit { for (;;) ; }", None),
    ("exit { for (i = 0, j = 1; i < 3; i++, j--) { } }", None),
    ("exit { for (; a;) for (; ; b) ; }", None),
    ("exit { while a ; }", Some(3)),
    ("exit { while () ; }", Some(4)),
    ("exit { while (a }", Some(5)),
    ("exit { while (a) }", Some(6)),
    ("exit { while (a) int x; }", Some(6)),
    ("exit { while (a) ; else ; }", Some(7)),
    ("exit { for ; }", Some(3)),
    ("exit { for () ; }", Some(4)),
    ("exit { for (a) ; }", Some(5)),
    ("exit { for (;) ; }", Some(5)),
    ("exit { for (;;;) ; }", Some(6)),
    ("exit { for (; ; a; }", Some(7)),
    ("exit { for (;;) }", Some(7)),
    ("exit { for (;;) int x; }", Some(7)),
    ("exit { for (int i; ;) ; }", Some(4)),
];

static TABLES: [&[Row]; 3] = [&PLAIN, &CONDITIONS, &LOOPS];

#[test]
fn reads_statements(rt: HostRuntime) -> Result<(), Fail> {
    read_tables(&rt, rt.alloc(), &TABLES)
}
