//! Texts with what is found by the order of items and by their names, and the codes of findings.

use crate::questions::{Question, expect_answers};
use snl_codes::Code;
use std::test::Fail;

// A text, and what its links find. What is missing altogether is after the last item.
static TEXTS: [(&[u8], &[u8]); 4] = [
    (
        b"program p program r ss a { } ss a { state i { } state i { } }",
        b"E05@1.0 E06@2.0 E08@4.1 E09@6.1 ",
    ),
    (
        b"program p ss a { state i { } } int x; ss a { }",
        b"E03@5.0 E06@5.0 E08@5.1 ",
    ),
    (
        b"} ss a { ss a {",
        b"E04@0.0 E04@1.0 E04@2.0 E05@3.0 E06@1.0 E06@2.0 E08@2.1 ",
    ),
    (
        b"program p int a, b, a; ss s { int b; state i { int a; } } %{ }%",
        b"E07@1.5 ",
    ),
];

#[test]
fn what_is_found_by_order_and_names(rt: HostRuntime) -> Result<(), Fail> {
    for (text, wanted) in &TEXTS {
        expect_answers(&rt, rt.alloc(), text, &[(Question::Faults, *wanted)])?;
    }
    Ok(())
}

// A code, its name, its message, whether it is an error, and how many bytes it quotes of a token of
// seven.
static CODES: [(Code, &str, &str, bool, usize); 6] = [
    (Code::E06, "E06", "state set or state is missing", true, 0),
    (Code::E10, "E10", "unknown state", true, 7),
    (Code::E22, "E22", "synced twice", true, 7),
    (Code::W01, "W01", "undeclared name", false, 7),
    (Code::W04, "W04", "unknown option letter", false, 1),
    (Code::W05, "W05", "monitored twice", false, 7),
];

#[test]
fn tells_names_and_messages(rt: HostRuntime) {
    for (code, name, message, is_error, quoted) in &CODES {
        assert!(rt;
            code.name() == *name && code.message() == *message,
            "{name}"
        );
        assert!(rt;
            code.is_error() == *is_error && code.quoted_bytes(7) == *quoted,
            "{name}"
        );
    }
}
