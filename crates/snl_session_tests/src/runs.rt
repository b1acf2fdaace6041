//! Runs of scripts: what they write and how they end.
//! In: scripts, from readers that give few bytes a call. Out: the answers.

use crate::fakes::{Asking, Endless, Failure, Pieces, Takes, Telling};
use snl_run::{RunFault, Status, Watched, run};
use std::cell::Cell;
use std::io::{Read, Write};
use std::process::Abort;
use std::test::Fail;

/// More calls than any script here takes.
pub const MANY: u64 = 10_000_000;

/// One state, whose target is none.
const FIRST: &[u8] = b"edit 0 0 50\nprogram p ss a { state i { when () { } state j } }\ncheck\n";

const FIRST_SAID: &[u8] = b"ok\n1: E10 unknown state 'j'\nerrors 1 warnings 0\n";

/// The answer to a check of the empty text.
const EMPTY_SAID: &[u8] =
    b"1: E05 one program header is required\n1: E06 state set or state is missing\nerrors 2 warnings 0\n";

/// Runs a script that is read in pieces of a few thousand bytes.
pub fn expect_run(
    rt: &(impl Abort + AllocGlobal),
    script: &[u8],
    end: Result<Status, RunFault>,
    said: &[u8],
) {
    let mut script = Watched::new(Pieces::new(script, 4096, MANY));
    let mut out = Watched::new(Vec::new(rt.alloc()));
    assert_eq!(rt; run(rt.alloc(), b"", &mut script, &mut out), end);
    assert_eq!(rt; out.inner().as_slice(), said);
}

#[test]
fn answers_an_edit_and_a_check(rt: HostRuntime) {
    expect_run(&rt, FIRST, Ok(Status::Errors), FIRST_SAID);
    expect_run(&rt, b"check\n", Ok(Status::Errors), EMPTY_SAID);
    expect_run(&rt, b"", Ok(Status::Errors), b"");
}

#[test]
fn ends_clean_where_the_last_text_has_no_errors(rt: HostRuntime) {
    expect_run(
        &rt,
        b"edit 0 0 50\nprogram p ss a { state i { when () { } state i } }\ncheck\n",
        Ok(Status::Clean),
        b"ok\nerrors 0 warnings 0\n",
    );
}

#[test]
fn goes_on_after_a_refused_edit(rt: HostRuntime) {
    expect_run(
        &rt,
        b"edit 5 4 0\n\nedit 0 1 0\n\nedit 0 0 1\n}\ncheck\n",
        Ok(Status::Errors),
        b"refused range\nrefused range\nok\n1: E04 state set braces do not match\n1: E05 one program header is required\n1: E06 state set or state is missing\nerrors 3 warnings 0\n",
    );
}

// Scripts with a place where no command is: its offset, and what was written before.
static NO_COMMANDS: [(&[u8], usize, &[u8]); 22] = [
    (b"edit 0 0 10\nabcdef", 0, b""),
    (b"check\nedit 0 0 5\nab", 6, EMPTY_SAID),
    (b"check", 0, b""),
    (b"check \n", 0, b""),
    (b" check\n", 0, b""),
    (b"check\r\n", 0, b""),
    (b"\n", 0, b""),
    (b"list", 0, b""),
    (b"lists\n", 0, b""),
    (b"work", 0, b""),
    (b"work \n", 0, b""),
    (b"work 1\n", 0, b""),
    (b"works\n", 0, b""),
    (b"Work\n", 0, b""),
    (b"edit 0 0\n\n", 0, b""),
    (b"edit 0 0 0 \n\n", 0, b""),
    (b"edit 0  0 0\n\n", 0, b""),
    (b"edit 0 0 +0\n\n", 0, b""),
    (b"edit 0 0 1\n;;", 0, b""),
    (b"edit 0 0 1\n;\nlist x\n", 13, b"ok\n"),
    // a line of 81 bytes, and a number of 20 digits
    (
        b"aaaaaaaaaaaaaaaaaaaaaaaaaaaaaaaaaaaaaaaaaaaaaaaaaaaaaaaaaaaaaaaaaaaaaaaaaaaaaaaaa\n",
        0,
        b"",
    ),
    (b"edit 00000000000000000000 0 0\n\n", 0, b""),
];

#[test]
fn breaks_off_where_no_command_is(rt: HostRuntime) {
    for (script, at, said) in &NO_COMMANDS {
        expect_run(&rt, script, Err(RunFault::Script(*at)), said);
    }
}

// Scripts of one command that is one just about, with its answer.
static JUST_COMMANDS: [(&[u8], &[u8]); 4] = [
    (b"edit 0000000000000000000 0 0\n\n", b"ok\n"),
    (b"edit 9999999999999999999 0 0\n\n", b"refused range\n"),
    (b"list\n", b"program -\nend\n"),
    (b"work\n", b"work lexed 0 parsed 0 checked 0\n"),
];

#[test]
fn takes_numbers_of_19_digits_and_lone_words(rt: HostRuntime) {
    for (script, said) in &JUST_COMMANDS {
        expect_run(&rt, script, Ok(Status::Errors), said);
    }
}

#[test]
fn tells_what_the_last_edit_that_was_made_cost(rt: HostRuntime) {
    expect_run(
        &rt,
        b"edit 0 0 1\n \nwork\nedit 0 9 0\n\nwork\nedit 1 1 5\n/*c*/\nwork\nwork\n",
        Ok(Status::Errors),
        b"ok\nwork lexed 1 parsed 0 checked 0\nrefused range\nwork lexed 1 parsed 0 checked 0\nok\nwork lexed 2 parsed 0 checked 0\nwork lexed 2 parsed 0 checked 0\n",
    );
}

#[test]
fn refuses_what_is_too_large(rt: HostRuntime) -> Result<(), Fail> {
    let mut script = Vec::from_slice(rt.alloc(), b"edit 0 0 2097152\n")?;
    script.resize(2_097_169, b' ')?;
    script.push(b'\n')?;
    expect_run(&rt, &script, Ok(Status::Errors), b"refused size\n");
    let mut script = Vec::from_slice(rt.alloc(), b"edit 0 0 2097153\n")?;
    script.resize(2_097_170, b' ')?;
    script.push(b'\n')?;
    expect_run(&rt, &script, Err(RunFault::Script(0)), b"");
    let source = vec![in rt.alloc(); b' '; 1_048_577]?;
    let mut empty = Watched::new(Pieces::new(b"", 1, MANY));
    let mut out = Watched::new(Vec::new(rt.alloc()));
    assert_eq!(rt;
        run(rt.alloc(), &source, &mut empty, &mut out),
        Err(RunFault::Source)
    );
    assert!(rt; out.inner().is_empty());
    Ok(())
}

#[test]
fn begins_with_the_source(rt: HostRuntime) {
    let source = b"program p ss a { state i { when () { } state j } }";
    let mut script = Watched::new(Pieces::new(b"check\nedit 45 46 1\ni\ncheck\n", 4096, MANY));
    let mut out = Watched::new(Vec::new(rt.alloc()));
    assert_eq!(rt;
        run(rt.alloc(), source, &mut script, &mut out),
        Ok(Status::Clean)
    );
    assert_eq!(rt;
        out.inner().as_slice(),
        b"1: E10 unknown state 'j'\nerrors 1 warnings 0\nok\nerrors 0 warnings 0\n".as_slice()
    );
}

#[test]
fn reads_in_any_pieces(rt: HostRuntime) {
    for most in [1, 2, 3, 64] {
        let mut script = Watched::new(Pieces::new(FIRST, most, MANY));
        let mut out = Watched::new(Vec::new(rt.alloc()));
        assert_eq!(rt;
            run(rt.alloc(), b"", &mut script, &mut out),
            Ok(Status::Errors)
        );
        assert!(rt; !script.failed() && !out.failed());
        assert_eq!(rt; out.inner().as_slice(), FIRST_SAID, "in pieces of {most}");
    }
}

// Each read finds the answers to all the commands that were given before.
#[test]
fn writes_an_answer_before_it_reads_on(rt: HostRuntime) {
    let written = Cell::new(0);
    let commands = [
        b"check\n".as_slice(),
        b"edit 0 0 0\n\n".as_slice(),
        b"check\n".as_slice(),
    ];
    let mut script = Watched::new(Asking::new(&commands, &[0, 95, 98, 193], &written));
    let mut out = Watched::new(Telling::new(&written));
    assert_eq!(rt;
        run(rt.alloc(), b"", &mut script, &mut out),
        Ok(Status::Errors)
    );
    assert!(rt; script.inner().was_answered());
}

#[test]
fn reads_16777216_times_at_most(rt: HostRuntime) {
    let mut script = Watched::new(Endless::new(b"edit 0 0 0\n\n"));
    let mut out = Watched::new(Vec::new(rt.alloc()));
    assert_eq!(rt;
        run(rt.alloc(), b"", &mut script, &mut out),
        Err(RunFault::TooManyTurns)
    );
    assert_eq!(rt; script.calls(), 16_777_216);
    assert_eq!(rt; out.inner().len(), 4_194_303);
    assert!(rt; out.inner().ends_with(b"ok\n"));
}

#[test]
fn watches_each_call(rt: HostRuntime) -> Result<(), Fail> {
    let mut reader = Watched::new(Pieces::new(b"ab", 1, 1));
    let mut buf = [0; 4];
    assert_eq!(rt; reader.read(&mut buf).ok(), Some(1));
    assert!(rt; !reader.failed());
    assert!(rt; reader.read(&mut buf).is_err());
    assert!(rt; reader.failed());
    assert_eq!(rt; reader.calls(), 2);

    let taken = Takes::new(Vec::new(rt.alloc()), 4, 1, Failure::TakesNothing);
    let mut writer = Watched::new(taken);
    assert_eq!(rt; writer.write(b"abcdef").ok(), Some(4));
    assert_eq!(rt; writer.write(b"").ok(), Some(0));
    assert!(rt; !writer.failed());
    assert_eq!(rt; writer.write(b"x").ok(), Some(0));
    assert!(rt; writer.failed());
    assert_eq!(rt; writer.calls(), 3);
    assert_eq!(rt; writer.inner().taken(), b"abcd".as_slice());
    Ok(())
}
