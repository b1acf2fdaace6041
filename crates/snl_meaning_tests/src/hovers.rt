//! What a hover says of the names of a text.

use snl_questions::{Hover, hover_at};
use snl_session::Session;
use std::alloc::{AllocError, Global};
use std::process::Abort;
use std::test::Fail;

const TEXT: &str =
    "program p\nint x;\n  int v[3], w; // two\t\r\nevflag e;\nforeign g;\nassign x to \"pv:\" \"x\";\nmonitor x;\nsync x to e;\nassign v to {\"a\", \"b\"};\nmonitor v[1];\nsyncq v[1] to e 10;\nsyncq v[0];\nint big[9];\nassign big to {\"0\", \"1\", \"2\", \"3\", \"4\", \"5\", \"6\", \"7\", \"8\"};\nvoid f(\n    int q) { g(q); none(q); }\nss a {\n  state one {\n    int z;\n    assign z to \"pz\";\n    when (x > z && efTest(e)) { int x; x = v[1]; } state two\n  }\n  state two { when (big[2]) { } exit }\n  state three { when (big) { } state two }\n}\n";

// Where a cursor is, where the name begins that it is on, and what is said of that.
static SAID: [(usize, usize, &str); 16] = [
    (14, 14, "int x;\nchannel 0 \"pv:x\" monitored, sync e"),
    (94, 93, "int x;\nchannel 0 \"pv:x\" monitored, sync e"),
    (
        24,
        23,
        "int v[3], w; // two\nchannel 1 [0] \"a\", syncq\nchannel 2 [1] \"b\" monitored, syncq e 10",
    ),
    (
        387,
        387,
        "int v[3], w; // two\nchannel 1 [0] \"a\", syncq\nchannel 2 [1] \"b\" monitored, syncq e 10",
    ),
    (29, 29, "int v[3], w; // two"),
    (370, 370, "evflag e;\nevent flag 1"),
    (59, 59, "foreign g;"),
    (257, 257, "void f("),
    (285, 284, "int q) { g(q); none(q); }"),
    (293, 293, "ss a {"),
    (307, 305, "state one {\nreached\nwakes on e, x, z"),
    (358, 358, "int z;\nchannel 12 \"pz\""),
    (
        383,
        383,
        "when (x > z && efTest(e)) { int x; x = v[1]; } state two",
    ),
    (
        404,
        401,
        "state two { when (big[2]) { } exit }\nreached\nwakes on big[2]",
    ),
    (
        456,
        456,
        "state three { when (big) { } state two }\nunreached\nwakes on big[0], big[1], big[2], big[3], big[4], big[5], big[6], big[7], ..",
    ),
    (
        470,
        470,
        "int big[9];\nchannel 3 [0] \"0\"\nchannel 4 [1] \"1\"\nchannel 5 [2] \"2\"\nchannel 6 [3] \"3\"\nchannel 7 [4] \"4\"\nchannel 8 [5] \"5\"\nchannel 9 [6] \"6\"\nchannel 10 [7] \"7\"\n..",
    ),
];

// Where nothing is said: at the name of the program, in white space, at names that nothing declares,
// in a comment, in a string, and at the text's end.
static SILENT: [usize; 7] = [8, 298, 279, 363, 36, 340, 493];

// A line has 9 bytes, so many more, and then a character of four and one of two: how many bytes of
// it are shown.
static CUT: [(usize, usize); 6] = [
    (100, 117),
    (185, 200),
    (187, 200),
    (188, 197),
    (190, 199),
    (191, 200),
];

fn session_over(alloc: Global, text: &[u8]) -> Result<Session, Fail> {
    let mut session = Session::new(alloc)?;
    session.edit(0, 0, text)?;
    Ok(session)
}

fn is_said(hover: &Option<Hover>, name: usize, lines: &[u8]) -> bool {
    match hover {
        Some(hover) => hover.name.start == name && hover.lines.as_slice() == lines,
        None => false,
    }
}

#[test]
fn hovers_say_lines(rt: HostRuntime) -> Result<(), Fail> {
    let session = session_over(rt.alloc(), TEXT.as_bytes())?;
    for (cursor, name, lines) in &SAID {
        let hover = hover_at(rt.alloc(), session.text(), session.kept(), *cursor)?;
        assert!(rt; is_said(&hover, *name, lines.as_bytes()), "at {cursor}");
    }
    Ok(())
}

#[test]
fn nothing_is_said_of_other_bytes(rt: HostRuntime) -> Result<(), Fail> {
    let session = session_over(rt.alloc(), TEXT.as_bytes())?;
    for cursor in &SILENT {
        let hover = hover_at(rt.alloc(), session.text(), session.kept(), *cursor)?;
        assert!(rt; hover.is_none(), "at {cursor}");
    }
    Ok(())
}

fn long_line(alloc: Global, count: usize) -> Result<Vec<u8>, AllocError> {
    let mut text = Vec::from_slice(alloc, b"int y; /*")?;
    for _ in 0..count {
        text.push(b'a')?;
    }
    text.extend_from_slice("\u{1F600}\u{E9}*/".as_bytes())?;
    Ok(text)
}

#[test]
fn long_lines_are_cut_at_characters(rt: HostRuntime) -> Result<(), Fail> {
    for (count, shown) in &CUT {
        let line = long_line(rt.alloc(), *count)?;
        let session = session_over(rt.alloc(), &line)?;
        let hover = hover_at(rt.alloc(), session.text(), session.kept(), 4)?;
        let wanted = &line[..(*shown).min(line.len())];
        assert!(rt; is_said(&hover, 4, wanted), "after {count}");
    }
    Ok(())
}
