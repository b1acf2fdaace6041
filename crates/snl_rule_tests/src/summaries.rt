//! Items with what their summaries say, told from the language's rules.

use crate::reading::summary;
use crate::words::{add_coverage, add_variable, add_word, clause_letter};
use snl_scope::{ItemKind, Opening, Summary};
use std::alloc::Global;
use std::process::Abort;
use std::test::Fail;

// What is asked of a summary.
#[derive(Clone, Copy)]
enum Part {
    Uses,
    Declares,
    Clauses,
    Targets,
}

fn tell(alloc: Global, summary: &Summary, part: Part) -> Result<Vec<u8>, Fail> {
    let mut words = Vec::new(alloc);
    match part {
        Part::Uses => add_uses(summary, &mut words)?,
        Part::Declares => add_declares(summary, &mut words)?,
        Part::Clauses => add_clauses(summary, &mut words)?,
        Part::Targets => add_targets(summary, &mut words)?,
    }
    Ok(words)
}

fn told(alloc: Global, text: &[u8], part: Part) -> Result<Vec<u8>, Fail> {
    let summary = summary(alloc, text)?;
    tell(alloc, &summary, part)
}

/// An item, and what is told of it.
type Row = (&'static [u8], &'static [u8]);

fn expect_row(rt: &impl Abort, alloc: Global, part: Part, row: &Row) -> Result<(), Fail> {
    let (text, wanted) = row;
    let words = told(alloc, text, part)?;
    assert!(rt; words.as_slice() == *wanted, "{text:?} has {words:?}");
    Ok(())
}

fn expect_told(rt: &impl Abort, alloc: Global, part: Part, rows: &[Row]) -> Result<(), Fail> {
    for row in rows {
        expect_row(rt, alloc, part, row)?;
    }
    Ok(())
}

fn add_uses(summary: &Summary, words: &mut Vec<u8>) -> Result<(), Fail> {
    for name in summary.uses.as_slice() {
        add_word(words, name.bytes())?;
    }
    Ok(())
}

// An item, and the names that it uses.
const USES: [Row; 22] = [
    (b"int a = b + c * b, d[e][f] = {g, {h}};", b"b c e f g h "),
    (b"int a[b];", b"b "),
    (b"int f(int n, int a[n]);", b"n "),
    (b"int f(int a[m]) { int b[k]; return x; }", b"m k x "),
    (b"struct s { int a[b]; int c = d; };", b"b d "),
    (b"int a = f(x)(y);", b"x y "),
    (b"int a = (f)(x);", b"f x "),
    (b"int a = f[0](x);", b"f x "),
    (b"int a = s.m->n + t->m;", b"s t "),
    (
        b"int a = sizeof x + sizeof(struct q) + (struct r)y + (typename z *)w;",
        b"x y w ",
    ),
    (b"entry { a = b += c; d ? e : f, g; }", b"a b c d e f g "),
    (b"exit { a++; --b; !c; f(d, f); }", b"a b c d f "),
    (
        b"entry { for (a; b; c) d; for (;;) ; while (e) f; return; }",
        b"a b c d e f ",
    ),
    (
        b"entry { if (a) b; else if (c) d; else e; { g; } }",
        b"a b c d e g ",
    ),
    (
        b"state i { int v = w; when (c) { x = y; state z; } state j entry { e; } }",
        b"w c x y e ",
    ),
    (
        b"state i { assign a to \"b\"; monitor a; sync a to f; option -x; foreign g; }",
        b"",
    ),
    (b"assign a[1] to \"b\";", b""),
    (b"foreign a, b;", b""),
    (b"program p (\"a\")", b""),
    (b"int a = ;", b""),
    (b"int a = \"b\" 'c' + 1.5;", b""),
    (b"ss a {", b""),
];

// Each declared name, with a mark for its dims and a letter for its nature.
fn add_declares(summary: &Summary, words: &mut Vec<u8>) -> Result<(), Fail> {
    for declared in summary.outline.declares.as_slice() {
        words.extend_from_slice(declared.name.bytes())?;
        add_variable(declared.variable, words)?;
        words.push(b' ')?;
    }
    Ok(())
}

// An item, and the names that it declares outside its blocks.
const DECLARES: [Row; 14] = [
    (
        b"int a, *b, c[3], d[0x4][2], *e[5], f[], g[n], h[(1)], i[1 + 1];",
        b"a.a b?a c3a d4a e5a f?a g?a h?a i?a ",
    ),
    (b"evflag a, b[2];", b"a.e b2e "),
    (b"struct s a, *b;", b"a.u b?u "),
    (b"enum s a; ", b"a.u "),
    (b"union s a;", b"a.u "),
    (b"typename s a;", b"a.u "),
    (b"void a;", b"a.u "),
    (b"const unsigned int a = b;", b"a.a "),
    (b"foreign a, b;", b"a?f b?f "),
    (b"int f(int a) { int b; }", b"f?F "),
    (b"int f(int a);", b""),
    (b"struct s { int a; };", b""),
    (
        b"state i { int a; foreign b; when () { int c; } exit entry { int d; } evflag e; }",
        b"a.a b?f e.e ",
    ),
    (b"entry { int a; }", b""),
];

// Each clause: its kind, its variable, what it covers, and its flag.
fn add_clauses(summary: &Summary, words: &mut Vec<u8>) -> Result<(), Fail> {
    for clause in summary.outline.clauses.as_slice() {
        words.push(clause_letter(clause.kind))?;
        words.extend_from_slice(clause.variable.name.bytes())?;
        add_coverage(clause.coverage, words)?;
        if let Some(flag) = &clause.flag {
            words.extend_from_slice(flag.name.bytes())?;
        }
        words.push(b' ')?;
    }
    Ok(())
}

// An item, and its clauses.
const CLAUSES: [Row; 12] = [
    (b"assign a;", b"=a.. "),
    (b"assign a to \"x\";", b"=a.. "),
    (b"assign a[2] to \"x\" \"y\";", b"=a@2 "),
    (b"assign a[0x8] \"x\";", b"=a@8 "),
    (b"assign a to {\"x\", \"y\" \"z\",};", b"=a#2 "),
    (b"assign a to {};", b"=a#0 "),
    (b"monitor a;", b"ma.. "),
    (b"monitor a[1];", b"ma@1 "),
    (b"sync a to f;", b"sa..f "),
    (b"sync a[3] f;", b"sa@3f "),
    (b"syncq a;", b"qa.. "),
    (
        b"state i { assign a; int b; syncQ b[1] to f 10; when () { } exit }",
        b"=a.. qb@1f ",
    ),
];

fn add_targets(summary: &Summary, words: &mut Vec<u8>) -> Result<(), Fail> {
    for target in summary.targets.as_slice() {
        add_word(words, target.name.bytes())?;
    }
    Ok(())
}

// An item, and the states that it leads to.
const TARGETS: [Row; 5] = [
    (
        b"state i { when () { } state j when () { } state i when () { } exit }",
        b"j i ",
    ),
    (
        b"state i { when () { if (a) state x; else { while (b) state y; } } state j }",
        b"x y j ",
    ),
    (b"state i { entry { state x; } exit { state y; } }", b""),
    (b"entry { state x; }", b""),
    (b"state i { when () { } state }", b""),
];

// What is asked of the summaries of items.
static TABLES: [(Part, &[Row]); 4] = [
    (Part::Uses, &USES),
    (Part::Declares, &DECLARES),
    (Part::Clauses, &CLAUSES),
    (Part::Targets, &TARGETS),
];

#[test]
fn what_items_say(rt: HostRuntime) -> Result<(), Fail> {
    for (part, rows) in &TABLES {
        expect_told(&rt, rt.alloc(), *part, rows)?;
    }
    Ok(())
}

// A text, its second token if that is a name, what it is as an item, and how it begins.
static BEGINNINGS: [(&[u8], &[u8], ItemKind, Opening); 19] = [
    (b"program p", b"p", ItemKind::Header, Opening::Program),
    (b"program", b"", ItemKind::Faulty, Opening::Program),
    (b"ss a {", b"a", ItemKind::SsBegin, Opening::Ss),
    (b"ss a", b"a", ItemKind::Faulty, Opening::Ss),
    (b"state i { }", b"i", ItemKind::State, Opening::State),
    (b"state i @ }", b"i", ItemKind::Faulty, Opening::State),
    (b"state if { }", b"", ItemKind::Faulty, Opening::State),
    (b"}", b"", ItemKind::SsEnd, Opening::Other),
    (b";", b"", ItemKind::Empty, Opening::Other),
    (b"%{ }%", b"", ItemKind::CBlock, Opening::Other),
    (b"entry { }", b"", ItemKind::Entry, Opening::Other),
    (b"exit { }", b"", ItemKind::Exit, Opening::Other),
    (b"int a;", b"a", ItemKind::Declaration, Opening::Other),
    (b"int f();", b"f", ItemKind::Function, Opening::Other),
    (b"struct s { };", b"s", ItemKind::StructDef, Opening::Other),
    (b"foreign a;", b"a", ItemKind::Foreign, Opening::Other),
    (b"option +a;", b"", ItemKind::OptionLine, Opening::Other),
    (b"assign a;", b"a", ItemKind::Clause, Opening::Other),
    (b"a @", b"", ItemKind::Faulty, Opening::Other),
];

fn second_of(summary: &Summary) -> &[u8] {
    match &summary.outline.second {
        Some(name) => name.bytes(),
        None => &[],
    }
}

#[test]
fn beginnings(rt: HostRuntime) -> Result<(), Fail> {
    for (text, second, kind, opening) in &BEGINNINGS {
        let summary = summary(rt.alloc(), text)?;
        let are_told = summary.kind == *kind && summary.outline.opening == *opening;
        assert!(rt; are_told && second_of(&summary) == *second, "{text:?}");
    }
    Ok(())
}
