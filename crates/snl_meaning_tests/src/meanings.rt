//! What names of a text mean.

use snl_questions::{meaning_near, span_bytes};
use snl_session::Session;
use std::process::Abort;
use std::test::Fail;

const TEXT: &[u8] =
    b"program p\nint x, v[3];\nevflag e;\nassign x to \"pv\";\nmonitor x;\nsync x to e;\nint y = x;\nstruct s { int x; };\nforeign g;\nvoid f(int q) { y = q; { int q; q = v[q]; } }\nss a {\n  int x;\n  state one {\n    int z;\n    assign z to \"pz\";\n    entry { f(x); none(g); }\n    when (x > z) { int x; x = 1; state two; } state two\n  }\n  state two { when (efTest(e)) { } state one }\n  state two { when () { } exit }\n  state bad { when ( }\n}\nss b {\n  state one { when (x) { } state one when () { } state two }\n}\n";

// Where a name begins, and where the one begins that it means.
static NAMES: [(usize, Option<usize>); 44] = [
    (14, Some(14)),
    (17, Some(17)),
    (30, Some(30)),
    (40, Some(14)),
    (59, Some(14)),
    (67, Some(14)),
    (72, Some(30)),
    (79, Some(79)),
    (83, Some(14)),
    (101, None),
    (115, Some(115)),
    (123, Some(123)),
    (129, Some(129)),
    (134, Some(79)),
    (138, Some(129)),
    (147, Some(147)),
    (150, Some(147)),
    (154, Some(17)),
    (156, Some(147)),
    (167, Some(167)),
    (177, Some(177)),
    (188, Some(188)),
    (202, Some(202)),
    (216, Some(202)),
    (239, Some(123)),
    (241, Some(177)),
    (245, None),
    (250, Some(115)),
    (266, Some(177)),
    (270, Some(202)),
    (279, Some(279)),
    (282, Some(279)),
    (295, Some(324)),
    (308, Some(324)),
    (324, Some(324)),
    (343, Some(30)),
    (357, Some(188)),
    (371, Some(371)),
    (404, Some(404)),
    (424, Some(424)),
    (436, Some(436)),
    (448, Some(14)),
    (461, Some(436)),
    (483, None),
];

#[test]
fn names_mean_declarations(rt: HostRuntime) -> Result<(), Fail> {
    let mut session = Session::new(rt.alloc())?;
    session.edit(0, 0, TEXT)?;
    for (offset, wanted) in &NAMES {
        let found = match meaning_near(
            rt.alloc(),
            session.text(),
            &session.kept().lists,
            *offset,
        )? {
            Some(meaning) => Some(meaning.declared.start),
            None => None,
        };
        assert!(rt; found == *wanted, "at {offset}");
    }
    Ok(())
}

// Where a cursor is, and where the name begins that it is on: right before a name, in it and right
// after it.
static NEAR: [(usize, Option<usize>); 8] = [
    (0, None),
    (13, None),
    (14, Some(14)),
    (15, Some(14)),
    (16, None),
    (18, Some(17)),
    (324, Some(324)),
    (327, Some(324)),
];

#[test]
fn cursors_are_on_names(rt: HostRuntime) -> Result<(), Fail> {
    let mut session = Session::new(rt.alloc())?;
    session.edit(0, 0, TEXT)?;
    for (cursor, wanted) in &NEAR {
        let found = match meaning_near(
            rt.alloc(),
            session.text(),
            &session.kept().lists,
            *cursor,
        )? {
            Some(meaning) => Some(meaning.name.start),
            None => None,
        };
        assert!(rt; found == *wanted, "at {cursor}");
    }
    Ok(())
}

#[test]
fn names_are_spelled_alike(rt: HostRuntime) -> Result<(), Fail> {
    let mut session = Session::new(rt.alloc())?;
    session.edit(0, 0, TEXT)?;
    let text = session.text();
    let meaning = meaning_near(rt.alloc(), text, &session.kept().lists, 308)?.ok_or("no meaning")?;
    assert!(rt; span_bytes(text, meaning.name) == span_bytes(text, meaning.declared));
    Ok(())
}
