//! Other names for names of a text. A row has a text with `@` before the name, the new name, and
//! the text after the rename, or why there is none.

use snl_rename::{Renaming, Replacement, rename};
use snl_session::Session;
use std::alloc::Global;
use std::process::Abort;
use std::test::Fail;

type Row = (&'static [u8], &'static [u8], &'static [u8]);

// What is named at several places: by clauses, by a prototype, as a flag, as a state's target; and
// a name that two kinds of things have.
static OFFERED: [Row; 9] = [
    (
        b"program p\nint @x;\nassign x to \"x\";\nmonitor x;\n/* x */ ss s { state a { when (x) { x = 1; } state a } }\n",
        b"level",
        b"program p\nint level;\nassign level to \"x\";\nmonitor level;\n/* x */ ss s { state a { when (level) { level = 1; } state a } }\n",
    ),
    (
        b"program p\nint x;\nevflag done;\nassign x to \"x\";\nmonitor x;\nsync x to done;\nss s { state a { when (efTest(@done)) { } state a } }\n",
        b"e",
        b"program p\nint x;\nevflag e;\nassign x to \"x\";\nmonitor x;\nsync x to e;\nss s { state a { when (efTest(e)) { } state a } }\n",
    ),
    (
        b"program p\nint f(int);\nint @f(int a) { return f(a); }\nss s { state one { when (f(1)) { } exit } }\n",
        b"twice",
        b"program p\nint twice(int);\nint twice(int a) { return twice(a); }\nss s { state one { when (twice(1)) { } exit } }\n",
    ),
    (
        b"program p\nint @f(int);\nint f(int a) { return f(a); }\nss s { state one { when (f(1)) { } exit } }\n",
        b"f_",
        b"program p\nint f_(int);\nint f_(int a) { return f_(a); }\nss s { state one { when (f_(1)) { } exit } }\n",
    ),
    (
        b"program p\nint a;\nss s { state a { when (@a) { } state a } }\n",
        b"b",
        b"program p\nint b;\nss s { state a { when (b) { } state a } }\n",
    ),
    (
        b"program p\nint a;\nss s { state @a { when (a) { } state a } }\n",
        b"s",
        b"program p\nint a;\nss s { state s { when (a) { } state s } }\n",
    ),
    (
        b"program p\nss s { state a { when () { } state @wait } state wait { when () { state a; } state a } }\n",
        b"w",
        b"program p\nss s { state a { when () { } state w } state w { when () { state a; } state a } }\n",
    ),
    (
        b"program p\nint x;\nint @x;\nss s { state a { when (x) { } exit } }\n",
        b"y",
        b"program p\nint y;\nint y;\nss s { state a { when (y) { } exit } }\n",
    ),
    (
        b"program p\nint x;\nvoid f(int x) { { int @x = 1; x++; } x = 2; }\nss s { state a { when (x) { } exit } }\n",
        b"inner",
        b"program p\nint x;\nvoid f(int x) { { int inner = 1; inner++; } x = 2; }\nss s { state a { when (x) { } exit } }\n",
    ),
];

// The names of blocks, of parameters, of states and of state sets that would be meant instead; a
// name that would mean the new one; findings that would go or come.
static CAPTURED: [Row; 9] = [
    (
        b"program p\nint @x;\nss s { state a { when () { int y;\nx = 1; } exit } }\n",
        b"y",
        b"line 4: 'x' would mean another declaration",
    ),
    (
        b"program p\nint @x;\nvoid f(int y) {\nx = y; }\nss s { state a { when () { } exit } }\n",
        b"y",
        b"line 4: 'x' would mean another declaration",
    ),
    (
        b"program p\nint @x;\nss s { state a { int y;\nwhen (x) { } exit } }\n",
        b"y",
        b"line 4: 'x' would mean another declaration",
    ),
    (
        b"program p\nint @x;\nss s { int y;\nstate a { when (x) { } exit } }\n",
        b"y",
        b"line 4: 'x' would mean another declaration",
    ),
    (
        b"program p\nint x;\nss s { state a { when () { int @y;\nx = y; } exit } }\n",
        b"x",
        b"line 4: 'x' would mean another declaration",
    ),
    (
        b"program p\nint @x;\nss s { state a { when (x) {\ny = 1; } exit } }\n",
        b"y",
        b"line 4: 'y' would mean another declaration",
    ),
    (
        b"program p\nss s { state a { when () { } state @b }\nstate b { when () { } exit }\nstate b { when () { } exit } }\n",
        b"c",
        b"line 4: E09 would go",
    ),
    (
        b"program p\nint @x;\nint y;\nss s { state a { when () { } exit } }\n",
        b"y",
        b"line 3: 'y' would mean another declaration",
    ),
    (
        b"program p\nss s { state a { when () { } state @b }\nstate b { when () { } state c }\nstate c { when () { } exit } }\n",
        b"c",
        b"line 3: 'c' would mean another declaration",
    ),
];

// What is refused before anything is compared.
static REFUSED: [Row; 12] = [
    (
        b"@program p\nint x;\nss s { state a { when (x) { } exit } }\n",
        b"y",
        b"no name that is declared here",
    ),
    (
        b"program p\nint @x;\nss s { state a { when (x) { } exit } }\n",
        b"delay",
        b"the new name is no free name",
    ),
    (
        b"program p\nint @x;\nss s { state a { when (x) { } exit } }\n",
        b"when",
        b"the new name is no free name",
    ),
    (
        b"program p\nint @x;\nss s { state a { when (x) { } exit } }\n",
        b"pvStatOK",
        b"the new name is no free name",
    ),
    (
        b"program p\nint @x;\nss s { state a { when (x) { } exit } }\n",
        b"y z",
        b"the new name is no free name",
    ),
    (
        b"program p\nint @x;\nss s { state a { when (x) { } exit } }\n",
        b"",
        b"the new name is no free name",
    ),
    (
        b"program p\nforeign errno;\nss s { state a { when (@errno) { } exit } }\n",
        b"e",
        b"C code declares 'errno'",
    ),
    (
        b"program p\nint @low;\n%{ static int f(void) {\nreturn low; } }%\nss s { state a { when (low) { } exit } }\n",
        b"high",
        b"line 3: 'low' is in C code, which is not read",
    ),
    (
        b"program p\nint @x;\n%% #define LIMIT 3\nss s { state a { when (x) { } exit } }\n",
        b"LIMIT",
        b"line 3: 'LIMIT' is in C code, which is not read",
    ),
    (
        b"program p\n#define y x\nint @x;\nss s { state a { when (x) { } exit } }\n",
        b"z",
        b"line 2: 'x' is in C code, which is not read",
    ),
    (
        b"program p\nint @x;\nss s { state a { when (x) { } exit }\nstate b { when (x +) { } exit } }\n",
        b"y",
        b"line 4: 'x' is in a faulty item",
    ),
    (
        b"program p\nint @x;\nss s { state a { when (x) { } exit }\nstate b { when (y +) { } exit } }\n",
        b"y",
        b"line 4: 'y' is in a faulty item",
    ),
];

// Adds the bytes of a text from one place up to another.
fn add_between(to: &mut Vec<u8>, text: &[u8], start: usize, stop: usize) -> Result<(), Fail> {
    to.extend_from_slice(text.get(start..stop).unwrap_or(&[]))?;
    Ok(())
}

fn place_of(template: &[u8]) -> usize {
    template
        .iter()
        .position(|byte| *byte == b'@')
        .unwrap_or(template.len())
}

fn text_of(alloc: Global, template: &[u8], place: usize) -> Result<Vec<u8>, Fail> {
    let mut text = Vec::new(alloc);
    add_between(&mut text, template, 0, place)?;
    add_between(&mut text, template, place.saturating_add(1), template.len())?;
    Ok(text)
}

fn with_edits(alloc: Global, text: &[u8], edits: &[Replacement<'_>]) -> Result<Vec<u8>, Fail> {
    let mut new = Vec::new(alloc);
    let mut base = 0;
    for edit in edits {
        add_between(&mut new, text, base, edit.start)?;
        new.extend_from_slice(edit.new)?;
        base = edit.stop;
    }
    add_between(&mut new, text, base, text.len())?;
    Ok(new)
}

// The text after a rename, or why there is none.
fn answered(alloc: Global, session: &Session, offset: usize, name: &[u8]) -> Result<Vec<u8>, Fail> {
    match rename(alloc, session.text(), session.kept(), offset, name)? {
        Renaming::Offered(edits) => with_edits(alloc, session.text(), &edits),
        Renaming::Refused(refusal) => Ok(refusal.words(alloc)?),
    }
}

fn renamed(alloc: Global, template: &[u8], name: &[u8]) -> Result<Vec<u8>, Fail> {
    let place = place_of(template);
    let text = text_of(alloc, template, place)?;
    let mut session = Session::new(alloc)?;
    session.edit(0, 0, &text)?;
    answered(alloc, &session, place, name)
}

// The number of the first row that is answered otherwise.
fn first_wrong(alloc: Global, rows: &[Row]) -> Result<Option<usize>, Fail> {
    for (number, (template, name, wanted)) in rows.iter().enumerate() {
        let told = renamed(alloc, template, name)?;
        if told.as_slice() != *wanted {
            return Ok(Some(number));
        }
    }
    Ok(None)
}

#[test]
fn renames_are_offered(rt: HostRuntime) -> Result<(), Fail> {
    let wrong = first_wrong(rt.alloc(), &OFFERED)?;
    assert!(rt; wrong.is_none(), "row {wrong:?}");
    Ok(())
}

#[test]
fn captures_are_refused(rt: HostRuntime) -> Result<(), Fail> {
    let wrong = first_wrong(rt.alloc(), &CAPTURED)?;
    assert!(rt; wrong.is_none(), "row {wrong:?}");
    Ok(())
}

#[test]
fn objections_are_told(rt: HostRuntime) -> Result<(), Fail> {
    let wrong = first_wrong(rt.alloc(), &REFUSED)?;
    assert!(rt; wrong.is_none(), "row {wrong:?}");
    Ok(())
}
