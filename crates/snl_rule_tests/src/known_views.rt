//! Two texts of which the second has some items of the first: which of its items are known to see
//! of the others what they saw, whatever they use. What is known is told only as far as it is
//! right; here, that it is told where it should be.

ghost use Rattle.std.specs.Prelude.{◌≡◌, length};

use crate::reading::summaries;
use snl_reading::links_of;
use snl_scope::{Links, Summary, link_after};
use snl_views::{Moved, SameViews};
use std::alloc::Global;
use std::process::Abort;
use std::test::Fail;

/// Two texts, which items of the first the second has, and a letter for each item of the second: y
/// where it is known to see what it saw, n where it isn't, - where it is made.
struct Row {
    old: &'static [u8],
    new: &'static [u8],
    moved: Moved,
    wanted: &'static [u8],
}

const PLAIN: &[u8] =
    b"program p int v; ss s { state i { when (v) { } state i } } ss t { state j { when (v) { } state k } state k { } }";

const WITH_VARIABLE: &[u8] =
    b"program p int v; ss s { int x; state i { when (v) { } state i } } ss t { state j { when (v) { } state k } state k { } }";

static ROWS: [Row; 5] = [
    // A state set gets a variable, which it loses again: the other set sees what it saw.
    Row {
        old: PLAIN,
        new: WITH_VARIABLE,
        moved: Moved {
            front: 3,
            back: 3,
            stop: 4,
        },
        wanted: b"yyy-nnyyyy",
    },
    Row {
        old: WITH_VARIABLE,
        new: PLAIN,
        moved: Moved {
            front: 3,
            back: 4,
            stop: 3,
        },
        wanted: b"yyynnyyyy",
    },
    // A variable of the program gets a length.
    Row {
        old: PLAIN,
        new: b"program p int v[2]; ss s { state i { when (v) { } state i } } ss t { state j { when (v) { } state k } state k { } }",
        moved: Moved {
            front: 1,
            back: 2,
            stop: 2,
        },
        wanted: b"n-nnnnnnn",
    },
    // A state gets another name.
    Row {
        old: PLAIN,
        new: b"program p int v; ss s { state i { when (v) { } state i } } ss t { state j { when (v) { } state k } state m { } }",
        moved: Moved {
            front: 7,
            back: 8,
            stop: 8,
        },
        wanted: b"yyyyyyn-n",
    },
    // A state set comes before the others.
    Row {
        old: PLAIN,
        new: b"program p int v; ss r { state q { } } ss s { state i { when (v) { } state i } } ss t { state j { when (v) { } state k } state k { } }",
        moved: Moved {
            front: 2,
            back: 2,
            stop: 5,
        },
        wanted: b"yy---yyyyyyy",
    },
];

// The number that an item had, if it is kept.
fn number_before(moved: Moved, item: usize) -> Option<usize> {
    if item < moved.front {
        return Some(item);
    }
    item.checked_sub(moved.stop)?.checked_add(moved.back)
}

fn letter(same: &SameViews, moved: Moved, item: usize) -> u8 {
    match number_before(moved, item) {
        Some(before) => {
            if same.is_known(before, item) {
                b'y'
            } else {
                b'n'
            }
        }
        None => b'-',
    }
}

fn letters(alloc: Global, same: &SameViews, moved: Moved, count: usize) -> Result<Vec<u8>, Fail> {
    let mut letters = Vec::new(alloc);
    for item in 0..count {
        letters.push(letter(same, moved, item))?;
    }
    Ok(letters)
}

// The links of the second text, made of those of the first.
fn links_after(
    rt: &impl Abort,
    alloc: Global,
    old: &[Summary],
    before: &Links,
    new: &[Summary],
    moved: Moved,
) -> Result<Links, Fail>
    requires outlines { length before.now.outlines ≡ length old.now }
    requires kinds { length before.now.kinds ≡ length before.now.outlines }
{
    assert!(rt; moved.front <= moved.back && moved.back <= old.len());
    assert!(rt; moved.front <= moved.stop && moved.stop <= new.len());
    let mut made = Vec::new(alloc);
    for summary in &new[moved.front..moved.stop] {
        made.push(summary)?;
    }
    Ok(link_after(alloc, before, moved.front, moved.back, &made)?)
}

fn expect_known(
    rt: &impl Abort,
    alloc: Global,
    old: &[Summary],
    new: &[Summary],
    row: &Row,
) -> Result<(), Fail> {
    let before = links_of(alloc, old)?;
    let after = links_after(rt, alloc, old, &before, new, row.moved)?;
    let same = SameViews::of(alloc, &before, &after, row.moved)?;
    let letters = letters(alloc, &same, row.moved, new.len())?;
    assert!(rt; letters.as_slice() == row.wanted, "{letters:?}");
    Ok(())
}

fn expect_row(rt: &impl Abort, alloc: Global, row: &Row) -> Result<(), Fail> {
    let old = summaries(alloc, row.old)?;
    let new = summaries(alloc, row.new)?;
    expect_known(rt, alloc, &old, &new, row)
}

#[test]
fn what_is_known_to_be_seen_after_an_edit(rt: HostRuntime) -> Result<(), Fail> {
    for row in &ROWS {
        expect_row(&rt, rt.alloc(), row)?;
    }
    Ok(())
}
