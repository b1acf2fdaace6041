//! Items with what is found in them, told from the language's rules.

ghost use Rattle.std.specs.Prelude.{All, ◌≡◌, ◌<◌, length};
ghost use Rattle.snl_item_check.specs.Items.{EndsWithin};
ghost use Rattle.snl_lex.specs.Pieces.{LiesIn};
ghost use Rattle.snl_reading.specs.ItemsRead.{ReadFrom};

use crate::words::add_word;
use snl_cut::Count;
use snl_item_check::{ItemFault, check_item, warning_setting};
use snl_lex::Piece;
use snl_reading::{ReadItem, item_ends_of, items_of, links_among, tokens_of, trees_of};
use snl_scope::Links;
use snl_walk::Source;
use std::alloc::Global;
use std::process::Abort;
use std::test::Fail;

/// A text, and what is found in its last item: each code, and what is at its place in its token.
type Row = (&'static [u8], &'static [u8]);

// What is told of the last item of a text: its findings, and what it says of warnings.
#[derive(Drop)]
struct Told {
    found: Vec<u8>,
    setting: Option<bool>,
}

// Findings: each code, and what is at its place in its token.
fn words_of(source: &Source, faults: &[ItemFault]) -> Result<Vec<u8>, Fail>
    requires { All (LiesIn source.now.text.now) source.now.tokens.now }
{
    let mut words = Vec::new(source.alloc);
    for fault in faults {
        words.extend_from_slice(fault.code.name().as_bytes())?;
        words.push(b':')?;
        let token = source.bytes(fault.token);
        add_word(&mut words, token.get(fault.byte..).unwrap_or(&[]))?;
    }
    Ok(words)
}

// What is told of the item with a number.
fn told_of(
    alloc: Global,
    text: &[u8],
    item: &ReadItem,
    links: &Links,
    number: usize,
) -> Result<Told, Fail>
    requires { ReadFrom text.now item.now }
{
    let Some(tree) = item.tree else {
        return Err("no tree")?;
    };
    let source = Source {
        text,
        tokens: item.tokens,
        alloc,
    };
    let mut work = Count::new();
    let checked = check_item(alloc, text, item.tokens, tree, links, number, &mut work)?;
    Ok(Told {
        found: words_of(&source, checked.faults.as_slice())?,
        setting: warning_setting(&source, tree, links, number),
    })
}

// What is told of the last of these items.
fn told_of_last(alloc: Global, text: &[u8], items: &[ReadItem]) -> Result<Told, Fail>
    requires { All (ReadFrom text.now) items.now }
{
    if items.is_empty() {
        return Err("no item")?;
    }
    let links = links_among(alloc, text, items)?;
    let number = items.len() - 1;
    told_of(alloc, text, &items[number], &links, number)
}

// What is told of the last of the items that end at these tokens.
fn told_along(alloc: Global, text: &[u8], tokens: &[Piece], ends: &[usize]) -> Result<Told, Fail>
    requires tokens { All (LiesIn text.now) tokens.now }
    requires ends { EndsWithin 0 ends.now (length tokens.now) }
{
    let trees = trees_of(alloc, text, tokens, ends)?;
    let items = items_of(alloc, tokens, ends, &trees)?;
    told_of_last(alloc, text, &items)
}

// What is told of the last item of a text.
fn told_in(alloc: Global, text: &[u8]) -> Result<Told, Fail> {
    let tokens = tokens_of(alloc, text)?;
    let ends = item_ends_of(alloc, text, &tokens)?;
    told_along(alloc, text, &tokens, &ends)
}

// What comes before the items of most tables: a state set that has a state `z`, after a
// declaration.
const BEFORE: &[u8] = b"int y; ss s { state z { } ";

fn expect_row(rt: &impl Abort, alloc: Global, before: &[u8], row: &Row) -> Result<(), Fail> {
    let (text, wanted) = row;
    let mut whole = Vec::from_slice(alloc, before)?;
    whole.extend_from_slice(text)?;
    let told = told_in(alloc, &whole)?;
    assert!(rt;
        told.found.as_slice() == *wanted,
        "{text:?} has {:?}",
        told.found
    );
    Ok(())
}

// Each text after those parts.
fn expect_found(rt: &impl Abort, alloc: Global, before: &[u8], rows: &[Row]) -> Result<(), Fail> {
    for row in rows {
        expect_row(rt, alloc, before, row)?;
    }
    Ok(())
}

// States with several findings.
const STATES: [Row; 3] = [
    (
        b"state i { int x; when (y && u && u) { int x; int x; evflag h; } exit }",
        b"E07:x E17:h W01:u ",
    ),
    (
        b"state i { when () { state z; if (y) state q; else state r; } state w when () { } state z exit { state v; } }",
        b"E10:q E10:r E10:w E18:state ",
    ),
    (
        b"state i { option +tz; entry { state i; } when (delay(1)) { efSet(y); pvPut(y); break; delay(2); } state z }",
        b"E18:state E20:y E21:y E19:break W03:delay W04:z ",
    ),
];

// Event flags that are declared wrongly.
const EVENT_FLAGS: [Row; 5] = [
    (b"evflag g[2], h, *p, k = 1;", b"E17:g E17:p E17:k "),
    (b"const evflag f;", b""),
    (b"struct s { evflag f; evflag g[1]; };", b"E17:g "),
    (b"int f(evflag *g) { if (y) { evflag h; } }", b"E17:h "),
    (b"int f(evflag *g);", b""),
];

// Names that are declared twice in a scope.
const TWICE: [Row; 5] = [
    (
        b"state i { int a, a; foreign b, a; entry { int b; { int b, b; } } }",
        b"E07:a E07:a E07:b ",
    ),
    (b"int f(int a, int b, int a) { int a; }", b"E07:a "),
    (b"int f(int a, int a);", b""),
    (b"struct s { int a; int a; };", b""),
    (b"int a, a;", b""),
];

// Names that nothing declares.
const UNDECLARED: [Row; 7] = [
    (b"int f(int n, int a[n]);", b"W01:n "),
    (b"int f(int n, int a[n]) { a = n + m; }", b"W01:m "),
    (
        b"int f(int n) { { int k[l]; k; } k; g(l, p.q->r); (h)(1); int l; }",
        b"W01:k W01:p W01:h ",
    ),
    (
        b"int a = TRUE + pvStatOK + pvSevrMAJOR + pvStats + pvSta + NOEVFLAG + SYNC;",
        b"W01:pvSta ",
    ),
    (
        b"state i { when (a) { b; } exit exit { a; c; } int a[c]; foreign b; }",
        b"W01:c ",
    ),
    (
        b"entry { sizeof u; (int) v; w = w; }",
        b"W01:u W01:v W01:w ",
    ),
    (b"struct s { int a[N]; };", b"W01:N "),
];

// Changes of the state outside transitions.
const STATE_CHANGES: [Row; 3] = [
    (
        b"state i { when () { if (y) state z; { while (y) state z; } } exit exit { if (y) ; else state q; } }",
        b"E18:state ",
    ),
    (
        b"int f() { while (y) { state z; } for (;;) state z; if (y) state z; else if (y) state z; }",
        b"E18:state E18:state E18:state E18:state ",
    ),
    (b"entry { state z; }", b"E18:state "),
];

// Jumps in no loop.
const JUMPS: [Row; 3] = [
    (b"exit { while (1) { } break; }", b"E19:break "),
    (
        b"int f() { while (y) { if (y) break; { continue; } } for (;;) continue; if (y) continue; else { break; } }",
        b"E19:continue E19:break ",
    ),
    (
        b"state i { entry { continue; } when () { break; } exit exit { while (y) ; break; } }",
        b"E19:continue E19:break E19:break ",
    ),
];

// Delays outside conditions.
const DELAYS: [Row; 5] = [
    (
        b"state i { when (y && (delay(1) || !delay(delay(2)))) { } exit }",
        b"",
    ),
    (
        b"state i { int a[delay(1)] = {y, delay(2)}; entry { for (y; delay(3); y) y = -delay(4); } exit { return (delay(5)); } }",
        b"W03:delay W03:delay W03:delay W03:delay W03:delay ",
    ),
    (b"int f(int a[delay(1)]);", b"W03:delay "),
    (b"struct s { int a[delay(1)]; };", b"W03:delay "),
    (
        b"int f(int delay) { delay(1); delay; delay[0](1); (delay)(1); y.delay(1); delays(1); g(delay(2)); }",
        b"W03:delay W03:delay ",
    ),
];

// Letters of options.
const LETTERS: [Row; 2] = [
    (b"state i { option +tex; option -ta_; }", b"W04:a_ W04:_ "),
    (b"option +xyz;", b""),
];

// Arguments of calls, by scopes too.
const ARGUMENTS: [Row; 7] = [
    (
        b"state i { int x; evflag f; entry { efSet(x); pvPut(x); efSet(f); pvPut(f); efSet(y); pvGet(y); efSet(u); } }",
        b"E20:x E21:x E21:f E20:y E21:y W01:u ",
    ),
    (
        b"entry { efSet((y)); pvGet(&y); efTest(y[1]); pvGet(y[1][2]); pvPut(y.m[1]); pvPut(y, 1); efClear(1); pvGet(); (pvGet)(y); pvGet[0](y); g(pvGet(y)); }",
        b"E21:y E21:y E21:y W01:pvGet ",
    ),
    (
        b"int f(int pvStatus) { efTest(y), efTestAndClear(y); pvMonitor(y); pvStopMonitor(y); pvAssign(y); pvConnected(y); pvAssigned(y); pvStatus(y); pvSeverity(y); pvTimeStamp(y); pvFlush(y); }",
        b"E20:y E20:y E21:y E21:y E21:y E21:y E21:y E21:y E21:y E21:y ",
    ),
    (
        b"state i { int a[pvGet(y)] = {efTest(y)}; when (pvGet(y)) { } state z }",
        b"E21:y E20:y E21:y ",
    ),
    (
        b"int f(int y, evflag g) { efSet(y); pvPut(y); efSet(g); pvPut(g); { int g; evflag y; efSet(y); efSet(g); pvPut(g); } }",
        b"E20:y E17:y E20:g E21:g ",
    ),
    (
        b"state i { foreign y; int x; assign x to \"c\"; evflag g; int g; entry { efSet(y); pvPut(y); pvPut(x); efSet(x); efSet(g); pvPut(g); } }",
        b"E07:g E20:x E21:g ",
    ),
    (
        b"state i { int x; monitor x; exit { pvPut(x); { assert(x); pvPut(x[1]); } } }",
        b"E21:x E21:x ",
    ),
];

// Texts of which nothing is in a state set.
const ALONE: [Row; 5] = [
    (b"option -acdeilmrswW;", b""),
    (b"option +tax0;", b"W04:tax0 W04:x0 W04:0 "),
    (b"state i { option +w; }", b"W04:w "),
    (b"state i { when (a) { } state q }", b"W01:a "),
    (
        b"evflag f; foreign g; evflag h() { } entry { efSet(f); pvPut(f); efSet(g); pvPut(g); efSet(h); pvPut(h); efSet(u); pvPut(u); }",
        b"E21:f E20:h E21:h W01:u ",
    ),
];

// The tables of items, and what comes before their texts.
static TABLES: [(&[u8], &[Row]); 10] = [
    (BEFORE, &STATES),
    (BEFORE, &EVENT_FLAGS),
    (BEFORE, &TWICE),
    (BEFORE, &UNDECLARED),
    (BEFORE, &STATE_CHANGES),
    (BEFORE, &JUMPS),
    (BEFORE, &DELAYS),
    (BEFORE, &LETTERS),
    (BEFORE, &ARGUMENTS),
    (b"", &ALONE),
];

#[test]
fn what_is_found_in_items(rt: HostRuntime) -> Result<(), Fail> {
    for (before, rows) in &TABLES {
        expect_found(&rt, rt.alloc(), before, rows)?;
    }
    Ok(())
}

// A text, and what its last item says of warnings.
static SETTINGS: [(&[u8], Option<bool>); 8] = [
    (b"option -w;", Some(false)),
    (b"option -aw;", Some(false)),
    (b"option +w;", Some(true)),
    (b"option +a;", None),
    (b"option -W;", None),
    (b"int w;", None),
    (b"ss s { option -w;", None),
    (b"state i { option -w; when () { } exit }", None),
];

#[test]
fn what_options_say_of_warnings(rt: HostRuntime) -> Result<(), Fail> {
    for (text, wanted) in &SETTINGS {
        let setting = told_in(rt.alloc(), text)?.setting;
        assert!(rt; setting == *wanted, "{text:?}");
    }
    Ok(())
}
