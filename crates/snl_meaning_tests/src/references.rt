//! The references of the names of a text.

use snl_questions::{Mention, Reference, all_mentions, references};
use snl_session::Session;
use std::alloc::Global;
use std::process::Abort;
use std::test::Fail;

const PROTOTYPES: &[u8] =
    b"program p\nint f(int);\nint g(int);\nint f(int a) { return f(a); }\nss s { state one { when (f(1)) { g(f(2)); } state one } }\n";

const SCOPES: &[u8] =
    b"program p\nint x;\nassign x to \"x\";\nmonitor x;\nevflag e;\nsync x to e;\nvoid f(int x) { x = 1; { int x; x = 2; } }\nss s {\n  int x;\n  state a {\n    int x = 3;\n    assign x;\n    entry { x = 4; efSet(e); }\n    when (x > 5) { int x; x = 6; state b; } state b\n  }\n  state b { when (x) { } exit }\n  state a { when () { } state a }\n}\nss t { state b { when (x) { efClear(e); } state b } }\n";

// Where a name is declared, and where all its references begin.
type Name = (usize, &'static [usize]);

// The first has a prototype. The last two are those of a state set and of a state.
static WITH_PROTOTYPES: [Name; 4] = [
    (38, &[14, 38, 56, 89, 99]),
    (44, &[44, 58]),
    (67, &[67]),
    (77, &[77, 114]),
];

// `x` of the program, of a parameter, of a block in the function, of a state set, of a state and of
// a block of it; the flag, the function, both state sets, and the states. The state `a` is there
// twice: a target means the first.
static IN_SCOPES: [Name; 14] = [
    (14, &[14, 24, 42, 60, 346]),
    (79, &[79, 84]),
    (97, &[97, 100]),
    (124, &[124, 273]),
    (147, &[147, 165, 180, 209]),
    (222, &[222, 225]),
    (52, &[52, 65, 193, 359]),
    (73, &[73]),
    (114, &[114]),
    (326, &[326]),
    (135, &[135, 317]),
    (295, &[295]),
    (263, &[238, 249, 263]),
    (336, &[336, 371]),
];

// Where a cursor is on no name that means something: a prototype of a function that has no body,
// and a call of it; the name of the program; a word; a brace, and the text's end.
static SILENT: [usize; 6] = [26, 97, 8, 11, 120, 122];

fn session_over(alloc: Global, text: &[u8]) -> Result<Session, Fail> {
    let mut session = Session::new(alloc)?;
    session.edit(0, 0, text)?;
    Ok(session)
}

fn references_at(alloc: Global, session: &Session, cursor: usize) -> Result<Vec<Reference>, Fail> {
    let found = references(alloc, session.text(), &session.kept().lists, cursor)?;
    Ok(found)
}

fn are_those(found: &[Reference], declared: usize, starts: &[usize]) -> bool {
    for (reference, start) in found.iter().zip(starts) {
        let is_declared = *start == declared;
        if reference.span.start != *start || reference.is_declaration != is_declared {
            return false;
        }
    }
    found.len() == starts.len()
}

// Each of the references of a name leads to all of them.
fn are_found(alloc: Global, session: &Session, names: &[Name]) -> Result<bool, Fail> {
    for (declared, starts) in names {
        for start in *starts {
            let found = references_at(alloc, session, *start)?;
            if !are_those(&found, *declared, starts) {
                return Ok(false);
            }
        }
    }
    Ok(true)
}

#[test]
fn references_are_found(rt: HostRuntime) -> Result<(), Fail> {
    let session = session_over(rt.alloc(), SCOPES)?;
    assert!(rt; are_found(rt.alloc(), &session, &IN_SCOPES)?);
    Ok(())
}

#[test]
fn prototypes_are_references(rt: HostRuntime) -> Result<(), Fail> {
    let session = session_over(rt.alloc(), PROTOTYPES)?;
    assert!(rt; are_found(rt.alloc(), &session, &WITH_PROTOTYPES)?);
    Ok(())
}

#[test]
fn cursors_after_words_are_on_them(rt: HostRuntime) -> Result<(), Fail> {
    let session = session_over(rt.alloc(), PROTOTYPES)?;
    let found = references_at(rt.alloc(), &session, 80)?;
    assert!(rt; are_those(&found, 77, &[77, 114]));
    Ok(())
}

#[test]
fn nothing_is_found_at_other_places(rt: HostRuntime) -> Result<(), Fail> {
    let session = session_over(rt.alloc(), PROTOTYPES)?;
    for cursor in &SILENT {
        let found = references_at(rt.alloc(), &session, *cursor)?;
        assert!(rt; found.is_empty(), "at {cursor}");
    }
    Ok(())
}

// How many of the mentions mean themselves.
fn declared_among(mentions: &[Mention]) -> usize {
    mentions
        .iter()
        .filter(|mention| mention.at == mention.means)
        .count()
}

#[test]
fn mentions_are_all_references(rt: HostRuntime) -> Result<(), Fail> {
    let session = session_over(rt.alloc(), SCOPES)?;
    let mentions = all_mentions(rt.alloc(), session.text(), &session.kept().lists)?;
    assert!(rt; mentions.len() == 32);
    assert!(rt; declared_among(&mentions) == IN_SCOPES.len());
    Ok(())
}
