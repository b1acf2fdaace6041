//! Runs whose reader or writer fails.
//! In: a script, from a reader that gives few bytes a call and fails. Out: the answers, to a writer
//! that takes few and fails.

use crate::fakes::{Failure, Pieces, Takes};
use crate::runs::{MANY, expect_run};
use snl_run::{RunFault, Status, Watched, run};
use std::process::Abort;

/// A script that gives a program, and asks for all that is told of it.
const WHOLE: &[u8] =
    b"edit 0 0 177\nprogram p\nint x;\nassign x to \"dev:x\";\nmonitor x;\nevflag f;\nsync x to f;\nss a {\nstate s1 {\nwhen (efTest(f) && x > 3) {\npvPut(x);\n} state s2\n}\nstate s2 {\nwhen () { } state s1\n}\n}\n\ncheck\nlist\nwork\n";

const WHOLE_SAID: &[u8] =
    b"ok\nerrors 0 warnings 0\nprogram p\nflag 1 f program\nchannel 0 x program \"dev:x\" monitor sync 1\nss a line 7\nstate s1 line 8 reached\n  when 0 s2\n  wake f1 c0\nstate s2 line 13 reached\n  when 0 s1\n  wake -\nend\nwork lexed 105 parsed 10 checked 10\n";

/// The bytes of that script from which on a command is whole, and how many bytes are written when
/// it is answered.
static ANSWERED: [(u64, usize); 5] = [(0, 0), (191, 3), (197, 23), (202, 204), (207, 240)];

/// What the whole commands among so many bytes of that script are answered.
fn said_by(read: u64) -> &'static [u8] {
    let said = ANSWERED
        .iter()
        .filter(|(whole, _)| *whole <= read)
        .map(|(_, said)| *said)
        .last()
        .unwrap_or(0);
    WHOLE_SAID.get(..said).unwrap_or(&[])
}

#[test]
fn breaks_off_where_a_read_fails(rt: HostRuntime) {
    expect_run(&rt, WHOLE, Ok(Status::Clean), WHOLE_SAID);
    for calls in 0..208 {
        let mut script = Watched::new(Pieces::new(WHOLE, 1, calls));
        let mut out = Watched::new(Vec::new(rt.alloc()));
        assert_eq!(rt;
            run(rt.alloc(), b"", &mut script, &mut out),
            Err(RunFault::Read)
        );
        assert!(rt; script.failed() && !out.failed());
        assert_eq!(rt; script.calls(), calls + 1);
        assert_eq!(rt; out.inner().as_slice(), said_by(calls), "{calls} reads");
    }
}

// A run that writes to a writer that takes so many bytes a call, and fails once so many calls were
// made.
fn expect_write_fault(rt: &(impl Abort + AllocGlobal), most: usize, calls: u64, failure: Failure) {
    let mut script = Watched::new(Pieces::new(WHOLE, 5, MANY));
    let taken = Takes::new(Vec::new(rt.alloc()), most, calls, failure);
    let mut out = Watched::new(taken);
    assert_eq!(rt;
        run(rt.alloc(), b"", &mut script, &mut out),
        Err(RunFault::Write)
    );
    assert!(rt; out.failed() && !script.failed());
    assert_eq!(rt; out.calls(), calls.saturating_add(1));
    assert!(rt; WHOLE_SAID.starts_with(out.inner().taken()));
}

// How many calls of a writer that takes so many bytes a call the whole answer takes.
fn calls_of_writers(rt: &(impl Abort + AllocGlobal), most: usize) -> u64 {
    let mut script = Watched::new(Pieces::new(WHOLE, 5, MANY));
    let taken = Takes::new(Vec::new(rt.alloc()), most, MANY, Failure::Error);
    let mut out = Watched::new(taken);
    assert_eq!(rt;
        run(rt.alloc(), b"", &mut script, &mut out),
        Ok(Status::Clean)
    );
    out.calls()
}

#[test]
fn breaks_off_where_a_write_fails(rt: HostRuntime) {
    for most in [1, 7, 4096] {
        for calls in 0..calls_of_writers(&rt, most) {
            expect_write_fault(&rt, most, calls, Failure::Error);
            expect_write_fault(&rt, most, calls, Failure::TakesNothing);
        }
    }
}
