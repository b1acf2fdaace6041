//! Sessions with edits in turn: what each answers, what the text is then, and what is found in it.

use snl_session::{Refused, Session, Work};
use std::alloc::Global;
use std::process::Abort;
use std::test::Fail;

// An edit, how many pieces and items it makes anew and how many items it checks, and the lines and
// codes of what is found after it.
struct Step {
    start: usize,
    stop: usize,
    new: &'static [u8],
    lexed: u64,
    parsed: u64,
    checked: u64,
    found: &'static [(usize, &'static str)],
}

static STEPS: [Step; 9] = [
    Step {
        start: 0,
        stop: 0,
        new: b"program p\nint x;\nassign x to \"dev:x\";\nmonitor x;\nevflag f;\nsync x to f;\nss a {\nstate s1 {\nwhen (efTest(f) && x > 3) {\npvPut(x);\n} state s2\n}\nstate s2 {\nwhen () { } state s1\n}\n}\n",
        lexed: 105,
        parsed: 10,
        checked: 10,
        found: &[],
    },
    // another state set begins before the second state
    Step {
        start: 141,
        stop: 141,
        new: b"} ss b {\n",
        lexed: 9,
        parsed: 3,
        checked: 4,
        found: &[(11, "E10"), (15, "E10")],
    },
    Step {
        start: 141,
        stop: 150,
        new: b"",
        lexed: 1,
        parsed: 1,
        checked: 2,
        found: &[],
    },
    // a comment that isn't closed takes the second state
    Step {
        start: 141,
        stop: 141,
        new: b"/*",
        lexed: 2,
        parsed: 2,
        checked: 1,
        found: &[(7, "E04"), (11, "E10"), (13, "E01")],
    },
    // the comment goes, and the second state has another name
    Step {
        start: 141,
        stop: 151,
        new: b"state s2x",
        lexed: 24,
        parsed: 3,
        checked: 3,
        found: &[(11, "E10"), (13, "W02")],
    },
    // a comment of lines before it
    Step {
        start: 90,
        stop: 90,
        new: b"/*\n\n\n*/",
        lexed: 2,
        parsed: 0,
        checked: 0,
        found: &[(14, "E10"), (16, "W02")],
    },
    // an option that turns warnings off
    Step {
        start: 10,
        stop: 10,
        new: b"option -w;\n",
        lexed: 7,
        parsed: 2,
        checked: 2,
        found: &[(15, "E10")],
    },
    Step {
        start: 10,
        stop: 21,
        new: b"",
        lexed: 1,
        parsed: 1,
        checked: 1,
        found: &[(14, "E10"), (16, "W02")],
    },
    // nothing is left
    Step {
        start: 0,
        stop: 185,
        new: b"",
        lexed: 0,
        parsed: 0,
        checked: 0,
        found: &[(1, "E05"), (1, "E06")],
    },
];

// The lines and codes of what is found.
fn found_in(alloc: Global, session: &Session) -> Result<Vec<(usize, &'static str)>, Fail> {
    let mut found = Vec::new(alloc);
    for diagnostic in session.diagnostics() {
        found.push((diagnostic.line, diagnostic.code.name()))?;
    }
    Ok(found)
}

#[test]
fn judges_the_text_anew_after_each_edit(rt: HostRuntime) -> Result<(), Fail> {
    let mut session = Session::new(rt.alloc())?;
    for step in &STEPS {
        let work = session.edit(step.start, step.stop, step.new)?;
        assert_eq!(rt; work.lexed, step.lexed, "at {}", step.start);
        assert_eq!(rt; work.parsed, step.parsed, "at {}", step.start);
        assert_eq!(rt; work.checked, step.checked, "at {}", step.start);
        let found = found_in(rt.alloc(), &session)?;
        assert_eq!(rt; found.as_slice(), step.found, "at {}", step.start);
    }
    Ok(())
}

const ONE_PIECE: Work = Work {
    lexed: 1,
    parsed: 0,
    checked: 0,
};

// An edit that puts so many blanks in the place of a range, what it answers, and how long the text
// is then.
static ANSWERS: [(usize, usize, usize, Result<Work, Refused>, usize); 10] = [
    (5, 4, 0, Err(Refused::Range), 0),
    (0, 1, 0, Err(Refused::Range), 0),
    // the range is tested before the size
    (0, 1, 1_048_577, Err(Refused::Range), 0),
    (0, 0, 1_048_577, Err(Refused::Size), 0),
    (0, 0, 50, Ok(ONE_PIECE), 50),
    (50, 51, 0, Err(Refused::Range), 50),
    (50, 50, 1_048_575, Err(Refused::Size), 50),
    (50, 50, 1_048_526, Ok(ONE_PIECE), 1_048_576),
    (1_048_576, 1_048_576, 1, Err(Refused::Size), 1_048_576),
    (50, 1_048_576, 0, Ok(ONE_PIECE), 50),
];

// An edit of the first step's text, how many pieces and items it makes anew, and how many items it
// checks.
static FRESH: [(usize, usize, &[u8], u64, u64, u64); 7] = [
    // the name of a state, to which another one leads
    (149, 149, b"x", 1, 1, 2),
    // a comment is opened over the rest: the header ends where it begins
    (10, 10, b"/*", 2, 2, 1),
    // a comment inside a state
    (90, 90, b"/*\n\n\n*/", 2, 0, 0),
    // the same text again
    (10, 16, b"int x;", 5, 0, 0),
    // an assignment is taken away: the state that uses the variable is checked again
    (17, 38, b"", 1, 1, 2),
    // nothing is changed, at the first byte of a name
    (30, 30, b"", 1, 0, 0),
    (0, 177, b"", 0, 0, 0),
];

#[test]
fn makes_and_checks_what_changed_alone(rt: HostRuntime) -> Result<(), Fail> {
    for (start, stop, new, lexed, parsed, checked) in &FRESH {
        let mut session = Session::new(rt.alloc())?;
        session.edit(0, 0, STEPS[0].new)?;
        let work = session.edit(*start, *stop, new)?;
        assert_eq!(rt; work.lexed, *lexed, "from {start} to {stop}");
        assert_eq!(rt; work.parsed, *parsed, "from {start} to {stop}");
        assert_eq!(rt; work.checked, *checked, "from {start} to {stop}");
    }
    Ok(())
}

// Texts with nothing, with no item, and with faults.
static OPENED: [&[u8]; 4] = [
    b"",
    b" // nothing\n",
    b"# 3 \"f.st\"\nprogram p\nss a { state i { when (x) { } state j",
    b"ss a { state i { int i; assign i to \"c\"; when (i) { } state i } } %{ @",
];

// What the edit costs that puts a text into the empty one.
fn cost_of(alloc: Global, text: &[u8]) -> Result<Work, Fail> {
    let mut session = Session::new(alloc)?;
    Ok(session.edit(0, 0, text)?)
}

// Opens a text, which costs what that edit does.
fn expect_opened(rt: &impl Abort, alloc: Global, text: &[u8]) -> Result<(), Fail> {
    let (opened, work) = Session::over(alloc, Vec::from_slice(alloc, text)?)?;
    assert!(rt; opened.text() == text);
    assert_eq!(rt; work, cost_of(alloc, text)?);
    Ok(())
}

#[test]
fn opens_a_text_at_the_cost_of_an_edit(rt: HostRuntime) -> Result<(), Fail> {
    for text in &OPENED {
        expect_opened(&rt, rt.alloc(), text)?;
    }
    expect_opened(&rt, rt.alloc(), STEPS[0].new)
}

#[test]
fn opens_no_text_that_is_too_large(rt: HostRuntime) -> Result<(), Fail> {
    let large = vec![in rt.alloc(); b' '; 1_048_577]?;
    assert!(rt; matches!(Session::over(rt.alloc(), large), Err(Refused::Size)));
    Ok(())
}

#[test]
fn refuses_in_order_and_changes_nothing(rt: HostRuntime) -> Result<(), Fail> {
    let blanks = vec![in rt.alloc(); b' '; 1_048_577]?;
    let mut session = Session::new(rt.alloc())?;
    for (start, stop, added, wanted, size) in &ANSWERS {
        let new = blanks.get(..*added).unwrap_or(&[]);
        assert_eq!(rt;
            session.edit(*start, *stop, new),
            *wanted,
            "{start} to {stop}"
        );
        assert!(rt; blanks.get(..*size) == Some(session.text()));
    }
    Ok(())
}
