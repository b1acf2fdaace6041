//! Conditions with the uses in them, told from the language's rules.

use crate::inside::asked::{Asked, Row, expect_answer, expect_answers};
use std::test::Fail;

// A condition, and the uses in it.
static CONDITIONS: [Row; 24] = [
    ("", ""),
    ("1", ""),
    ("a", "a "),
    ("a[1]", "a[1] "),
    ("a[01]", "a[1] "),
    ("a[0x10u]", "a[16] "),
    ("a[i]", "a i "),
    ("a[(1)]", "a "),
    ("a[1 + 0]", "a "),
    ("a[-1]", "a "),
    ("a[1.0]", "a "),
    ("(a)[1]", "a "),
    ("a[1][k]", "a[1] k "),
    ("a[k][1]", "a k "),
    ("a[1].m", "a[1] "),
    ("a.m[1]", "a "),
    ("a->m[1]", "a "),
    ("f(a[1], g(b))", "a[1] b "),
    ("f[1](a)", "f[1] a "),
    ("(f)(a)", "f a "),
    ("a[b[2]]", "a b[2] "),
    ("-a[1] + sizeof b[2]++", "a[1] b[2] "),
    ("a[1] ? b : c[2], d = e[3] = x", "a[1] b c[2] d e[3] x "),
    ("delay(1) && efTest(f) || a[2] > a[3]", "f a[2] a[3] "),
];

#[test]
fn conditions(rt: HostRuntime) -> Result<(), Fail> {
    for (condition, wanted) in &CONDITIONS {
        let text = format!(in rt.alloc();
            "state i {{ when ({condition}) {{ w = v[1]; }} state w }}"
        )?;
        expect_answer(&rt, rt.alloc(), Asked::WakeUses, &text, wanted)?;
    }
    Ok(())
}

// An item, and the uses in its conditions.
static ITEMS: [Row; 3] = [
    (
        "state i { int x = y[1]; when (b[2]) { c; } state c when () { } exit when (a) { } exit exit { d; } }",
        "b[2] a ",
    ),
    ("entry { a[1]; }", ""),
    ("int a = b[1];", ""),
];

#[test]
fn the_conditions_of_an_item(rt: HostRuntime) -> Result<(), Fail> {
    expect_answers(&rt, rt.alloc(), Asked::WakeUses, &ITEMS)
}
