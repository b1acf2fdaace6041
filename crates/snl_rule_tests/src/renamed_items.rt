//! Two texts that differ in one item: whether that declares by other names what the one before it
//! declared, or is that state by another name. This is told only as far as it is right; here, that
//! it is told where it should be.

use crate::reading::summaries;
use snl_reading::links_of;
use snl_scope::{EditedNames, Renaming, Summary, link_renamed, renaming_of};
use std::alloc::Global;
use std::process::Abort;
use std::test::Fail;

/// How the item with a number is told: d where it declares by other names, s where it is a state by
/// another name, - where neither is told.
struct Row {
    old: &'static [u8],
    new: &'static [u8],
    item: usize,
    wanted: u8,
}

static ROWS: [Row; 10] = [
    // A variable of the program gets another name.
    Row {
        old: b"program p int v; int u; ss s { state i { when (v) { } state i } }",
        new: b"program p int v; int us; ss s { state i { when (v) { } state i } }",
        item: 2,
        wanted: b'd',
    },
    // A clause is on it.
    Row {
        old: b"program p int v; assign v to \"x\"; ss s { state i { } }",
        new: b"program p int vs; assign v to \"x\"; ss s { state i { } }",
        item: 1,
        wanted: b'-',
    },
    // A clause has it as its flag.
    Row {
        old: b"program p int v; int u; assign v to \"x\"; sync v u; ss s { state i { } }",
        new: b"program p int v; int us; assign v to \"x\"; sync v u; ss s { state i { } }",
        item: 2,
        wanted: b'-',
    },
    // An event flag doesn't.
    Row {
        old: b"program p evflag e; ss s { state i { } }",
        new: b"program p evflag f; ss s { state i { } }",
        item: 1,
        wanted: b'-',
    },
    // A state gets another name.
    Row {
        old: b"program p ss s { state i { } state k { } }",
        new: b"program p ss s { state i { } state ks { } }",
        item: 3,
        wanted: b's',
    },
    // It may declare variables.
    Row {
        old: b"program p ss s { state i { int x; when (x) { } exit } }",
        new: b"program p ss s { state is { int x; when (x) { } exit } }",
        item: 2,
        wanted: b's',
    },
    // Another state of the set has the new name.
    Row {
        old: b"program p ss s { state i { } state k { } }",
        new: b"program p ss s { state i { } state i { } }",
        item: 3,
        wanted: b'-',
    },
    // Another one has the old name.
    Row {
        old: b"program p ss s { state i { } state i { } }",
        new: b"program p ss s { state i { } state is { } }",
        item: 3,
        wanted: b'-',
    },
    // One of another set may have either.
    Row {
        old: b"program p ss s { state i { } } ss t { state i { } state is { } }",
        new: b"program p ss s { state is { } } ss t { state i { } state is { } }",
        item: 2,
        wanted: b's',
    },
    // It has a clause.
    Row {
        old: b"program p ss s { state i { int x; assign x to \"v\"; } }",
        new: b"program p ss s { state is { int x; assign x to \"v\"; } }",
        item: 2,
        wanted: b'-',
    },
];

// How the item with a number is told.
fn told(alloc: Global, old: &[Summary], new: &[Summary], item: usize) -> Result<u8, Fail> {
    let (Some(was), Some(is)) = (old.get(item), new.get(item)) else {
        return Ok(b'?');
    };
    let Some(renaming) = renaming_of(&was.outline, &is.outline) else {
        return Ok(b'-');
    };
    let names = EditedNames::of_renaming(alloc, &was.outline, &is.outline, renaming)?;
    let Some(names) = names else {
        return Ok(b'-');
    };
    let before = links_of(alloc, old)?;
    let after = link_renamed(alloc, &before, item, &was.outline, is, renaming, &names)?;
    Ok(match (after, renaming) {
        (None, _) => b'-',
        (Some(_), Renaming::Declared) => b'd',
        (Some(_), Renaming::State) => b's',
    })
}

fn expect_row(rt: &impl Abort, alloc: Global, row: &Row) -> Result<(), Fail> {
    let old = summaries(alloc, row.old)?;
    let new = summaries(alloc, row.new)?;
    let told = told(alloc, &old, &new, row.item)?;
    assert!(rt; told == row.wanted, "{told}");
    Ok(())
}

#[test]
fn which_items_are_told_by_other_names(rt: HostRuntime) -> Result<(), Fail> {
    for row in &ROWS {
        expect_row(&rt, rt.alloc(), row)?;
    }
    Ok(())
}
