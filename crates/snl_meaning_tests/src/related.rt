//! The places that findings are related to.

use snl_codes::Code;
use snl_kept::Diagnostic;
use snl_questions::{all_tokens, span_bytes};
use snl_related::{Related, RelatedKind, Relations};
use snl_session::Session;
use std::alloc::Global;
use std::process::Abort;
use std::test::Fail;

// A text with one finding of a code first, what the place is to it, where that begins, and its bytes.
type Row = (
    &'static [u8],
    Code,
    Option<(RelatedKind, usize, &'static [u8])>,
);

static ROWS: [Row; 21] = [
    (
        b"program p\nint x;\nint x;\nss s { state a { when () { } state a } }\n",
        Code::E07,
        Some((RelatedKind::FirstDeclared, 14, b"x")),
    ),
    (
        b"program p\nss s { state a { int x; int x; when (x) { } state a } }\n",
        Code::E07,
        Some((RelatedKind::FirstDeclared, 31, b"x")),
    ),
    (
        b"program p\nss s { state a { when () { } state a } }\nss s { state a { when () { } state a } }\n",
        Code::E08,
        Some((RelatedKind::FirstNamed, 13, b"s")),
    ),
    (
        b"program p\nss s { state a { when () { } state a } state a { when () { } state a } }\n",
        Code::E09,
        Some((RelatedKind::FirstNamed, 23, b"a")),
    ),
    (
        b"program p\nss s { state open { when () { } state opened } }\nss t { state opener { when () { } state opener } }\n",
        Code::E10,
        Some((RelatedKind::Near, 23, b"open")),
    ),
    (
        b"program p\nss s { state a { when () { } state b } }\n",
        Code::E10,
        None,
    ),
    (
        b"program p\nint valve;\nassign vavle to \"v\";\nss s { state a { when () { } state a } }\n",
        Code::E11,
        Some((RelatedKind::Near, 14, b"valve")),
    ),
    (
        b"program p\nint x;\nassign x to \"a\";\nassign x to \"b\";\nss s { state a { when (x) { } state a } }\n",
        Code::E12,
        Some((RelatedKind::Assigned, 24, b"x")),
    ),
    (
        b"program p\nint x;\nmonitor x;\nss s { state a { when (x) { } state a } }\n",
        Code::E13,
        Some((RelatedKind::Declared, 14, b"x")),
    ),
    (
        b"program p\nint x;\nint f;\nassign x to \"a\";\nmonitor x;\nsync x to f;\nss s { state a { when (x) { } state a } }\n",
        Code::E14,
        Some((RelatedKind::Declared, 21, b"f")),
    ),
    (
        b"program p\nint x;\nevflag ready;\nint readz;\nassign x to \"a\";\nmonitor x;\nsync x to reedy;\nss s { state a { when (x) { } state a } }\n",
        Code::E14,
        Some((RelatedKind::Near, 24, b"ready")),
    ),
    (
        b"program p\nvoid *v;\nassign v to \"a\";\nss s { state a { when (v) { } state a } }\n",
        Code::E15,
        Some((RelatedKind::Declared, 16, b"v")),
    ),
    (
        b"program p\nint x;\nassign x[1] to \"a\";\nss s { state a { when (x) { } state a } }\n",
        Code::E16,
        Some((RelatedKind::Declared, 14, b"x")),
    ),
    (
        b"program p\nint f;\nss s { state a { when (efTest(f)) { } state a } }\n",
        Code::E20,
        Some((RelatedKind::Declared, 14, b"f")),
    ),
    (
        b"program p\nint x;\nss s { state a { when (x) { pvPut(x); } state a } }\n",
        Code::E21,
        Some((RelatedKind::Declared, 14, b"x")),
    ),
    (
        b"program p\nint x;\nevflag f;\nevflag g;\nassign x to \"a\";\nmonitor x;\nsync x to f;\nsync x to g;\nss s { state a { when (x) { } state a } }\n",
        Code::E22,
        Some((RelatedKind::Synced, 70, b"x")),
    ),
    (
        b"program p\nint x;\nassign x to \"a\";\nmonitor x;\nmonitor x;\nss s { state a { when (x) { } state a } }\n",
        Code::W05,
        Some((RelatedKind::Monitored, 42, b"x")),
    ),
    (
        b"program p\nint accelerating;\nss s { state a { when (acelerating) { } state a } }\n",
        Code::W01,
        Some((RelatedKind::Near, 14, b"accelerating")),
    ),
    (
        b"program p\nint counter;\nint countre;\nss s { state a { when (countr) { } state a } }\n",
        Code::W01,
        Some((RelatedKind::Near, 14, b"counter")),
    ),
    (
        b"program p\nint xy;\nss s { state a { when (xz) { } state a } }\n",
        Code::W01,
        None,
    ),
    (
        b"program p\nss s { state a { when () { } state a } }\n}\n",
        Code::E04,
        Some((RelatedKind::SetEnded, 49, b"}")),
    ),
];

fn session_over(alloc: Global, text: &[u8]) -> Result<Session, Fail> {
    let mut session = Session::new(alloc)?;
    session.edit(0, 0, text)?;
    Ok(session)
}

// The first diagnostic with a code.
fn found_with(session: &Session, code: Code) -> Option<Diagnostic> {
    session
        .diagnostics()
        .iter()
        .copied()
        .find(|found| found.code == code)
}

fn related_to(alloc: Global, session: &Session, code: Code) -> Result<Option<Related>, Fail> {
    let tokens = all_tokens(alloc, &session.kept().lists.pieces)?;
    let relations = Relations::of_text(alloc, session.text(), &session.kept().lists, &tokens);
    match found_with(session, code) {
        Some(found) => Ok(relations.related_to(&found)?),
        None => Ok(None),
    }
}

fn is_that(
    text: &[u8],
    related: Option<Related>,
    wanted: Option<(RelatedKind, usize, &[u8])>,
) -> bool {
    match (related, wanted) {
        (Some(related), Some((kind, start, bytes))) => {
            related.kind == kind
                && related.span.start == start
                && span_bytes(text, related.span) == bytes
        }
        (None, None) => true,
        _ => false,
    }
}

#[test]
fn findings_are_related_to_places(rt: HostRuntime) -> Result<(), Fail> {
    for (number, (text, code, wanted)) in ROWS.iter().enumerate() {
        let session = session_over(rt.alloc(), text)?;
        assert!(rt;
            found_with(&session, *code).is_some(),
            "row {number}: it isn't found"
        );
        let related = related_to(rt.alloc(), &session, *code)?;
        assert!(rt;
            is_that(text, related, *wanted),
            "row {number}: {related:?}"
        );
    }
    Ok(())
}
