//! Items with what is found wrong in them.

ghost use Rattle.std.specs.Prelude.{◌≡◌, All};
ghost use Rattle.snl_lex.specs.Pieces.{LiesIn};
ghost use Rattle.snl_rule_tests.specs.Around.{misses, outer_of, passing};

use crate::inside::asked::{Asked, Row, expect_answers};
use crate::words::add_word;
use snl_walk::{Finding, Occurrence, OtherItems, Outer, Source, findings};
use std::test::Fail;

/// Around the items of these tests there are an event flag `e`, a variable `c` with a channel and
/// one without, `v`, and a foreign name `g`, in a state set whose one state is `z`.
struct Around;

fn passing(flag: bool, channel: bool) -> Option<Outer>
    ensures { result ≡ passing flag channel }
{
    Some(Outer { flag, channel })
}

impl OtherItems for Around {
    ghost outer_of = { λ s name. outer_of name };

    ghost misses = { λ s name. misses name };

    fn outer(&self, name: &[u8]) -> Option<Outer> {
        if name == b"e".as_slice() {
            passing(true, false)
        } else if name == b"c".as_slice() {
            passing(false, true)
        } else if name == b"g".as_slice() {
            passing(true, true)
        } else if name == b"v".as_slice() {
            passing(false, false)
        } else {
            None
        }
    }

    fn misses_state(&self, name: &[u8]) -> bool {
        name != b"z".as_slice()
    }
}

fn add_finding(source: &Source, words: &mut Vec<u8>, one: &Finding) -> Result<(), Fail>
    requires { All (LiesIn source.now.text.now) source.now.tokens.now }
{
    words.extend_from_slice(one.code.name().as_bytes())?;
    words.push(b':')?;
    add_word(words, source.bytes(one.token))
}

/// Adds each finding: its code, and its token.
pub fn add_findings(source: &Source, words: &mut Vec<u8>, found: &[Occurrence]) -> Result<(), Fail>
    requires { All (LiesIn source.now.text.now) source.now.tokens.now }
{
    for one in &findings(source, &Around, found)? {
        add_finding(source, words, one)?;
    }
    Ok(())
}

static ITEMS: [Row; 6] = [
    (
        "state i { int x; when (v && u && u) { int x; int x; evflag h; } exit }",
        "E07:x E17:h W01:u ",
    ),
    (
        "state i { when () { state z; if (v) state q; else state r; } state w when () { } state z exit { state v; } }",
        "E10:q E10:r E10:w E18:state ",
    ),
    (
        "exit { efSet(v); efSet(e); efSet(g); efSet(v[0]); pvPut(v); pvPut(v[1]); pvPut(c[1]); pvPut(g); pvGet(u); }",
        "E20:v E21:v E21:v W01:u ",
    ),
    (
        "entry { while (v) break; break; delay(2); pvStatNo; pvSevr; TRUE; FALSE; SYNC; ASYNC; NOEVFLAG; true; }",
        "E19:break W03:delay W01:true ",
    ),
    (
        "state i { evflag e; int c, w; assign w; when (delay(1)) { efSet(e); efSet(c); pvPut(c); pvPut(w); { evflag e; int w; efTest(e); pvPut(w); } } state z }",
        "E20:c E21:c E17:e E21:w ",
    ),
    ("int f(int p) { pvPut(p); efSet(p); q; q; }", "E20:p W01:q "),
];

#[test]
fn what_is_wrong_in_items(rt: HostRuntime) -> Result<(), Fail> {
    expect_answers(&rt, rt.alloc(), Asked::Findings, &ITEMS)
}
