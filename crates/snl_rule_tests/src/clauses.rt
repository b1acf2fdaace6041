//! Texts with what is found at their clauses, and with what these say of variables and channels,
//! told from the language's rules.

use crate::questions::{Question, Row, expect_answers};
use std::test::Fail;

// A text with an item on each line, what is found at its clauses, and what its clauses are.
static TEXTS: [(&[u8], &[u8], &[u8]); 8] = [
    (
        b"program q\nint x;\nassign x to \"a\";\nassign x to \"b\";\nmonitor x;\nmonitor x;\nevflag f;\nsync x to f;\nsyncq x to f 4;\nsync x to x;",
        b"E12@3.1 W05@5.1 E22@8.1 E22@9.1 E14@9.3 ",
        b"20-+ 30-! 40-+ 50-+ 701+ 801! 900! ",
    ),
    (
        b"int a[2];\nevflag e;\nassign e to \"e\";\nassign a[2] to \"x\";\nassign z to \"z\";\nmonitor a;",
        b"E15@2.1 E16@3.1 E11@4.1 ",
        b"21-! 30-! 4--! 50-+ ",
    ),
    (
        b"int a[2], b, *c, d[n];\nforeign g;\nstruct s t;\nassign a to {\"x\", \"y\", \"z\"};\nassign b[0] to \"x\";\nassign b to {};\nassign c[9] to \"x\";\nassign d to {\"x\", \"y\", \"z\"};\nassign g to \"x\";\nassign t to \"x\";",
        b"E16@3.1 E16@4.1 E16@5.1 E15@8.1 E15@9.1 ",
        b"30-! 41-! 51-! 62-+ 73-+ 84-! 95-! ",
    ),
    (
        b"int a[4];\nassign a[0] to \"x\";\nassign a to {\"p\", \"q\"};\nassign a[1] to \"y\";\nassign a to \"w\";\nmonitor a[1];\nmonitor a[2];\nmonitor a;\nmonitor a[3];",
        b"E12@2.1 E12@4.1 W05@7.1 W05@8.1 ",
        b"10-+ 20-! 30-+ 40-! 50-+ 60-+ 70-+ 80-+ ",
    ),
    (
        b"int a[4], b[4];\nassign a to {\"p\", \"q\"};\nassign a[1] to \"y\";\nassign a[2] to \"z\";\nassign a to {\"p\"};\nassign b[1] to \"y\";\nevflag f;\nsync a[1] to f;\nsyncq a[2];\nsyncq a;",
        b"E12@2.1 E12@4.1 E22@9.1 ",
        b"10-+ 20-! 30-+ 40-! 51-+ 702+ 80-+ 90-! ",
    ),
    (
        b"int a[2], b;\nassign a to {};\nassign a to {};\nassign a[0] to \"x\";\nassign a to \"w\";\nmonitor a;\nint c[2];\nassign c to \"w\";\nassign c to {};",
        b"E12@4.1 E12@8.1 ",
        b"10-+ 20-+ 30-+ 40-! 50-+ 72-+ 82-! ",
    ),
    (
        b"int x, y, z;\nmonitor x;\nmonitor y;\nmonitor z;\nassign x;\nassign y[0] to \"p\";\nsync z to NOEVFLAG;\nsyncq x;",
        b"E13@3.1 E16@5.1 E13@6.1 E14@6.3 ",
        b"10-+ 21-+ 32-! 40-+ 51-! 62-! 70-+ ",
    ),
    (
        b"int x;\nmonitor x;\nss s {\nint y[2];\nassign y[0] to \"q\";\nstate i { int x; evflag f; assign x to \"p\"; sync x to f; monitor y; when () { } exit }\n}\nmonitor y;",
        b"E13@1.1 E11@7.1 ",
        b"10-! 42-+ 54-+ 545+ 52-+ 7--! ",
    ),
];

#[test]
fn what_is_found_at_clauses(rt: HostRuntime) -> Result<(), Fail> {
    for (text, found, told) in &TEXTS {
        let rows = [(Question::ClauseFaults, *found), (Question::Clauses, *told)];
        expect_answers(&rt, rt.alloc(), text, &rows)?;
    }
    Ok(())
}

const ASSIGNS: &[u8] =
    b"int a[2], b[2], c, d[2], e;\nassign a[1] to \"x\";\nassign a to \"y\";\nassign b to \"y\";\nassign b[1] to \"x\";\nassign c[0] to \"x\";\nassign d to {};";

// To what a variable is assigned there: the first clause that assigns it says it, sound or not.
static ASSIGNED: [Row; 5] = [
    (Question::Assigned(0, b"a"), b"elements"),
    (Question::Assigned(0, b"b"), b"whole"),
    (Question::Assigned(0, b"c"), b"elements"),
    (Question::Assigned(0, b"d"), b"elements"),
    (Question::Assigned(0, b"e"), b"unassigned"),
];

// Declarations 0 to 3 are `a`, `b`, `c` and `f`. Clauses are numbered from the first `assign` on:
// the `sync` of `c` names no event flag, the `monitor` of `a[5]` is beyond the length, and the last
// `syncq` comes too late.
static CHANNELS: &[u8] =
    b"int a[4], b, c[2];\nassign a to {\"p\", \"q\"};\nassign a[2] to \"r\";\nassign b;\nassign c to \"v\";\nmonitor a[1];\nmonitor b;\nmonitor c[0];\nevflag f;\nsync a[2] to f;\nsyncq a[0];\nsync c to b;\nmonitor a[5];\nsync b to f;\nsyncq c;\nsyncq b;";

static MONITORED: [Row; 11] = [
    (Question::Monitored(0, None), b"yes"),
    (Question::Monitored(0, Some(0)), b"no"),
    (Question::Monitored(0, Some(1)), b"yes"),
    (Question::Monitored(0, Some(5)), b"no"),
    (Question::Monitored(1, None), b"yes"),
    (Question::Monitored(1, Some(0)), b"yes"),
    (Question::Monitored(2, None), b"yes"),
    (Question::Monitored(2, Some(0)), b"yes"),
    (Question::Monitored(2, Some(1)), b"no"),
    (Question::Monitored(3, None), b"no"),
    (Question::Monitored(9, None), b"no"),
];

static SYNCS: [Row; 10] = [
    (Question::Sync(0, None), b"7"),
    (Question::Sync(0, Some(0)), b"8"),
    (Question::Sync(0, Some(1)), b"-"),
    (Question::Sync(0, Some(2)), b"7"),
    (Question::Sync(1, None), b"11"),
    (Question::Sync(2, None), b"12"),
    (Question::Sync(2, Some(1)), b"12"),
    (Question::Sync(3, None), b"-"),
    (Question::Sync(9, None), b"-"),
    (Question::Sync(9, Some(0)), b"-"),
];

#[test]
fn what_clauses_say_of_channels(rt: HostRuntime) -> Result<(), Fail> {
    expect_answers(&rt, rt.alloc(), ASSIGNS, &ASSIGNED)?;
    expect_answers(&rt, rt.alloc(), CHANNELS, &MONITORED)?;
    expect_answers(&rt, rt.alloc(), CHANNELS, &SYNCS)
}

static COVERED: &[u8] =
    b"assign a to {\"p\", \"q\"};\nsyncq a;\nstate i { assign a[3] to \"r\"; monitor a[3]; sync a[2] to f; when () { } exit }";

// The token of each clause's variable in its item, its kind, and what it covers.
static COVERAGES: [Row; 1] = [(Question::Coverages, b"1=#2 1q.. 4=@3 12m@3 18s@2 ")];

#[test]
fn what_clauses_cover_and_where_they_stand(rt: HostRuntime) -> Result<(), Fail> {
    expect_answers(&rt, rt.alloc(), COVERED, &COVERAGES)
}
