//! A program after edits: how many pieces are made anew, and that they are as many as without the
//! old ones.

ghost use Rattle.snl_cut.specs.Cut.{IsEdit};
ghost use Rattle.std.specs.Prelude.{◌≡◌, ◌≤◌, ◌+◌, ◌++◌, IfOk, drop, length, take};

use crate::pieces::PROGRAM;
use snl_cut::Count;
use snl_lex::{lex, relex};
use std::alloc::Global;
use std::process::Abort;
use std::test::Fail;

// The text with the bytes from `start` to `stop` replaced.
fn spliced(
    alloc: Global,
    text: &[u8],
    start: usize,
    stop: usize,
    new: &[u8],
) -> Result<Vec<u8>, Fail>
    requires order { start ≤ stop }
    requires inside { stop ≤ length text.now }
    ensures { IfOk result (λ now. now.items ≡ (take start text.now ++ new.now) ++ drop stop text.now) }
{
    let mut now = Vec::from_slice(alloc, &text[..start])?;
    now.extend_from_slice(new)?;
    now.extend_from_slice(&text[stop..])?;
    Ok(now)
}

pub fn edited(
    alloc: Global,
    text: &[u8],
    start: usize,
    stop: usize,
    new: &[u8],
) -> Result<Vec<u8>, Fail>
    requires order { start ≤ stop }
    requires inside { stop ≤ length text.now }
    ensures { IfOk result (λ now. IsEdit text.now now.items start stop (start + length new.now)) }
{
    let now = spliced(alloc, text, start, stop, new)?;
    Ok(now)
}

// How many pieces a text has.
fn count_in(alloc: Global, text: &[u8]) -> Result<usize, Fail> {
    let pieces = lex(alloc, text, &mut Count::new())?;
    Ok(pieces.len())
}

// Says how many pieces an edit makes anew, and that as many are there after it as without the old
// ones.
fn made_by(
    rt: &impl Abort,
    alloc: Global,
    text: &[u8],
    now: &[u8],
    start: usize,
    stop: usize,
    new_stop: usize,
) -> Result<u64, Fail>
    requires { IsEdit text.now now.now start stop new_stop }
{
    let old = lex(alloc, text, &mut Count::new())?;
    let mut work = Count::new();
    let made = relex(alloc, text, &old, now, start, stop, new_stop, &mut work)?;
    assert_eq!(rt; made.made.len() as u64, work.ticks());
    let kept = made.kept_front.saturating_add(made.kept_back);
    assert_eq!(rt; kept.saturating_add(made.made.len()), count_in(alloc, now)?);
    Ok(work.ticks())
}

// Edits a text, and says how many pieces were made anew.
fn relexed(
    rt: &impl Abort,
    alloc: Global,
    text: &[u8],
    start: usize,
    stop: usize,
    new: &[u8],
) -> Result<u64, Fail> {
    assert!(rt; start <= stop && stop <= text.len() && new.len() < 1000 && start < 1000);
    let now = edited(alloc, text, start, stop, new)?;
    made_by(rt, alloc, text, &now, start, stop, start + new.len())
}

// What is put into the program before the edit, and where; the edit's range and its new bytes; how
// many pieces it makes.
struct Case {
    at: usize,
    before: &'static [u8],
    start: usize,
    stop: usize,
    new: &'static [u8],
    made: u64,
}

static CASES: [Case; 7] = [
    // a name gets longer
    Case {
        at: 0,
        before: b"",
        start: 149,
        stop: 149,
        new: b"x",
        made: 1,
    },
    Case {
        at: 0,
        before: b"",
        start: 141,
        stop: 141,
        new: b"} ss b {\n",
        made: 9,
    },
    Case {
        at: 0,
        before: b"",
        start: 10,
        stop: 16,
        new: b"int x;",
        made: 5,
    },
    // nothing changes
    Case {
        at: 0,
        before: b"",
        start: 30,
        stop: 30,
        new: b"",
        made: 1,
    },
    // a comment of lines, and a marker
    Case {
        at: 149,
        before: b"x",
        start: 90,
        stop: 90,
        new: b"/*\n\n\n*/",
        made: 2,
    },
    Case {
        at: 149,
        before: b"x",
        start: 0,
        stop: 0,
        new: b"# 10 \"a.st\"\n",
        made: 2,
    },
    // a comment that takes all up to the end of another
    Case {
        at: 177,
        before: b"/*c*/",
        start: 10,
        stop: 10,
        new: b"/*",
        made: 2,
    },
];

fn expect_made(rt: &impl Abort, alloc: Global, case: &Case) -> Result<(), Fail> {
    assert!(rt; case.at <= PROGRAM.len());
    let text = spliced(alloc, PROGRAM, case.at, case.at, case.before)?;
    let made = relexed(rt, alloc, &text, case.start, case.stop, case.new)?;
    assert!(rt; made == case.made, "at {}", case.start);
    Ok(())
}

#[test]
fn makes_fresh_pieces_alone(rt: HostRuntime) -> Result<(), Fail> {
    for case in &CASES {
        expect_made(&rt, rt.alloc(), case)?;
    }
    Ok(())
}
