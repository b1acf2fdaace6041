//! What is said of tokens at fault in a text.

use snl_questions::{FaultNote, hover_at, note_at};
use snl_session::Session;
use std::alloc::Global;
use std::process::Abort;
use std::test::Fail;

const TEXT: &str =
    "program p\nint level\nevflag f;\nss s {\n  state a { whn (level) { } exit }\n}\nint x";

const DECLARATOR: &str = "expected ';', ',', '(', '[' or '='";

// Where a token at fault begins, where something is wanted, and what may come there.
static NOTED: [(usize, usize, &str); 3] = [
    (20, 20, DECLARATOR),
    (
        49,
        49,
        "expected '}' or a member of a state; did you mean 'when'?",
    ),
    (78, 79, DECLARATOR),
];

// Tokens that are not at fault, in a faulty item and in a sound one; white space; the text's end.
static SOUND: [usize; 5] = [10, 27, 30, 19, 79];

fn session_over(alloc: Global, text: &[u8]) -> Result<Session, Fail> {
    let mut session = Session::new(alloc)?;
    session.edit(0, 0, text)?;
    Ok(session)
}

fn is_noted(note: &Option<FaultNote>, token: usize, wanted: usize, words: &str) -> bool {
    match note {
        Some(note) => {
            note.token.start == token && note.wanted == wanted && note.words.as_str() == words
        }
        None => false,
    }
}

#[test]
fn tokens_at_fault_have_notes(rt: HostRuntime) -> Result<(), Fail> {
    let session = session_over(rt.alloc(), TEXT.as_bytes())?;
    for (token, wanted, words) in &NOTED {
        let note = note_at(rt.alloc(), session.text(), &session.kept().lists, *token)?;
        assert!(rt; is_noted(&note, *token, *wanted, words), "at {token}");
    }
    Ok(())
}

#[test]
fn other_tokens_have_none(rt: HostRuntime) -> Result<(), Fail> {
    let session = session_over(rt.alloc(), TEXT.as_bytes())?;
    for offset in &SOUND {
        let note = note_at(rt.alloc(), session.text(), &session.kept().lists, *offset)?;
        assert!(rt; note.is_none(), "at {offset}");
    }
    Ok(())
}

// A hover says the note right after the token, too.
#[test]
fn hovers_say_notes(rt: HostRuntime) -> Result<(), Fail> {
    let session = session_over(rt.alloc(), TEXT.as_bytes())?;
    let hover = hover_at(rt.alloc(), session.text(), session.kept(), 79)?.ok_or("no hover")?;
    assert!(rt; hover.name.start == 78);
    assert!(rt; hover.lines.as_slice() == DECLARATOR.as_bytes());
    Ok(())
}
