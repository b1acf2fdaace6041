//! Two texts of as many items: whether each item says the same to the others in both, what it sees
//! of the others, and the findings where the kinds of the second are put into the links of the
//! first.

ghost use Rattle.std.specs.Prelude.{◌≡◌, IfOk, length};

use crate::reading::summaries;
use snl_reading::links_of;
use snl_scope::{EditedNames, ItemKind, Links, Outline, Summary, same_outline};
use snl_views::same_view;
use std::alloc::Global;
use std::process::Abort;
use std::test::Fail;

/// Two texts, whether their outlines are the same, and of each item whether it sees the same: a
/// letter each, y or n.
type Row = (&'static [u8], &'static [u8], bool, &'static [u8]);

static EDITS: [Row; 9] = [
    // A plain state turns faulty.
    (
        b"program p ss a { state i { when () { } state i } }",
        b"program p ss a { state i { when @ () { } state i } }",
        true,
        b"yyyy",
    ),
    // A second state of a name turns faulty: it gives no finding, and still has its name.
    (
        b"program p ss a { state i { } state i { } }",
        b"program p ss a { state i { } state i { @ } }",
        true,
        b"yyyyy",
    ),
    // An option that is out of place turns faulty.
    (
        b"program p ss a { option +a; state i { } }",
        b"program p ss a { option @; state i { } }",
        true,
        b"yyyyy",
    ),
    // A state with a declaration of its own turns faulty.
    (
        b"program p ss a { state i { int a; when () { } state i } }",
        b"program p ss a { state i { int a; when @ () { } state i } }",
        false,
        b"yyyy",
    ),
    // A token comes before a declaration: findings at it move.
    (
        b"program p int a, b; ss s { state i { when (b) { } state i } }",
        b"program p int * a, b; ss s { state i { when (b) { } state i } }",
        false,
        b"yyyyy",
    ),
    // A variable gets another name, or another length.
    (
        b"program p int a; ss s { state i { when (a) { } state i } }",
        b"program p int b; ss s { state i { when (a) { } state i } }",
        false,
        b"yyyny",
    ),
    (
        b"program p int a[2]; ss s { state i { when (a) { } state i } }",
        b"program p int a[3]; ss s { state i { when (a) { } state i } }",
        false,
        b"yyyny",
    ),
    // A state gets another name, and another state leads to it.
    (
        b"program p ss s { state i { when () { } state j } state j { } }",
        b"program p ss s { state i { when () { } state j } state k { } }",
        false,
        b"yynyy",
    ),
    // A state set loses its begin.
    (
        b"program p ss s { state i { } }",
        b"program p ss @ { state i { } }",
        false,
        b"yynn",
    ),
];

fn kinds_of(alloc: Global, summaries: &[Summary]) -> Result<Vec<ItemKind>, Fail>
    ensures { IfOk result (λ kinds. length kinds.items ≡ length summaries.now) }
{
    let mut kinds = Vec::new(alloc);
    for summary in summaries {
        kinds.push(summary.kind)?;
    }
    Ok(kinds)
}

fn all_alike(ones: &[Summary], others: &[Summary]) -> bool {
    ones.len() == others.len()
        && ones
            .iter()
            .zip(others)
            .all(|(one, other)| same_outline(&one.outline, &other.outline))
}

// For each item whether it sees the same by both links.
fn views(alloc: Global, old: &Links, new: &Links, summaries: &[Summary]) -> Result<Vec<u8>, Fail> {
    let mut letters = Vec::new(alloc);
    for (item, summary) in summaries.iter().enumerate() {
        let sees = same_view(old, item, new, item, summary);
        letters.push(if sees { b'y' } else { b'n' })?;
    }
    Ok(letters)
}

fn put_kinds(alloc: Global, links: &mut Links, summaries: &[Summary]) -> Result<(), Fail>
    requires { length links.old.outlines ≡ length summaries.now }
{
    let kinds = kinds_of(alloc, summaries)?;
    let faults = links.order_faults_for(alloc, &kinds)?;
    links.set_kinds(kinds, faults);
    Ok(())
}

fn expect_views(
    rt: &impl Abort,
    alloc: Global,
    old_links: &Links,
    links: &Links,
    old: &[Summary],
    wanted: &[u8],
) -> Result<(), Fail> {
    let letters = views(alloc, old_links, links, old)?;
    assert!(rt; letters.as_slice() == wanted, "{letters:?}");
    Ok(())
}

// What is wanted of the links of the old text, then with the kinds of the new one.
fn expect_linked(
    rt: &impl Abort,
    alloc: Global,
    old_links: &mut Links,
    links: &Links,
    old: &[Summary],
    new: &[Summary],
    row: &Row,
) -> Result<(), Fail>
    requires { length old_links.old.outlines ≡ length old.now }
{
    let (_old, _new, wanted, wanted_views) = row;
    expect_views(rt, alloc, old_links, links, old, wanted_views)?;
    if *wanted {
        assert!(rt; old.len() == new.len());
        put_kinds(alloc, old_links, new)?;
        assert!(rt; old_links.faults() == links.faults());
    }
    Ok(())
}

// What is wanted of the links of the new text.
fn expect_old_links(
    rt: &impl Abort,
    alloc: Global,
    links: &Links,
    old: &[Summary],
    new: &[Summary],
    row: &Row,
) -> Result<(), Fail> {
    let mut old_links = links_of(alloc, old)?;
    expect_linked(rt, alloc, &mut old_links, links, old, new, row)
}

fn expect_same(
    rt: &impl Abort,
    alloc: Global,
    old: &[Summary],
    new: &[Summary],
    row: &Row,
) -> Result<(), Fail> {
    assert!(rt; all_alike(old, new) == row.2);
    let links = links_of(alloc, new)?;
    expect_old_links(rt, alloc, &links, old, new, row)
}

fn expect_row(rt: &impl Abort, alloc: Global, row: &Row) -> Result<(), Fail> {
    let old = summaries(alloc, row.0)?;
    let new = summaries(alloc, row.1)?;
    expect_same(rt, alloc, &old, &new, row)
}

#[test]
fn what_an_edit_leaves_as_it_was(rt: HostRuntime) -> Result<(), Fail> {
    for row in &EDITS {
        expect_row(&rt, rt.alloc(), row)?;
    }
    Ok(())
}

/// An item in the place of another, another item, and whether it touches a name that they speak of;
/// or that they bound other state sets.
type NameRow = (&'static [u8], &'static [u8], &'static [u8], u8);

static NAMES: [NameRow; 8] = [
    // The variable gets another name: the old one and the new one are touched.
    (
        b"int a;",
        b"int b;",
        b"state s { when (a) { } state t }",
        b'y',
    ),
    (
        b"int a;",
        b"int b;",
        b"state s { when (b) { } state t }",
        b'y',
    ),
    (
        b"int a;",
        b"int b;",
        b"state s { when (c) { } state t }",
        b'n',
    ),
    // It becomes two.
    (
        b"int a;",
        b"int a, b;",
        b"state s { when (c) { } state t }",
        b'n',
    ),
    // A clause comes in the place of a declaration.
    (
        b"int a;",
        b"monitor b;",
        b"state s { when (b) { } state t }",
        b'y',
    ),
    // The state gets another name.
    (
        b"state t { }",
        b"state u { }",
        b"state s { when () { } state t }",
        b'y',
    ),
    (
        b"state t { }",
        b"state u { }",
        b"state s { when () { } state s }",
        b'n',
    ),
    // A state set begins.
    (b"ss t", b"ss t {", b"state s { when () { } state s }", b'-'),
];

fn outlines_of<'a>(alloc: Global, summaries: &'a [Summary]) -> Result<Vec<&'a Outline>, Fail> {
    let mut outlines = Vec::new(alloc);
    for summary in summaries {
        outlines.push(&summary.outline)?;
    }
    Ok(outlines)
}

fn touches_all(edited: &EditedNames, summaries: &[Summary]) -> bool {
    summaries.iter().all(|summary| edited.touch(summary))
}

// Whether the items of a text touch the names that two others speak of, or `-` where these bound
// other state sets.
fn touched(alloc: Global, old: &[Summary], new: &[Summary], items: &[Summary]) -> Result<u8, Fail> {
    let old = outlines_of(alloc, old)?;
    let new = outlines_of(alloc, new)?;
    match EditedNames::of(alloc, &old, &new)? {
        Some(edited) => Ok(if touches_all(&edited, items) {
            b'y'
        } else {
            b'n'
        }),
        None => Ok(b'-'),
    }
}

fn touched_in(alloc: Global, row: &NameRow) -> Result<u8, Fail> {
    let (old, new, items, _wanted) = row;
    let old = summaries(alloc, old)?;
    let new = summaries(alloc, new)?;
    let items = summaries(alloc, items)?;
    touched(alloc, &old, &new, &items)
}

#[test]
fn names_that_an_edit_speaks_of(rt: HostRuntime) -> Result<(), Fail> {
    for row in &NAMES {
        let letter = touched_in(rt.alloc(), row)?;
        assert!(rt; letter == row.3, "{row:?}");
    }
    Ok(())
}
