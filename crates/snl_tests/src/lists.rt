//! Lists that change in place: each row says what a list is before, how it changes, and what it is
//! then.

ghost use Rattle.std.specs.Prelude.{◌≡◌, ℕ, ◌+◌, ◌-◌, ◌^◌, ◌<◌, ◌≤◌, IfOk, length, slice_index, true, vec_capacity, vec_len};

use snl_lists::{Ordered, replace, replace_and_shift, shift};
use std::alloc::{AllocError, Global};
use std::process::Abort;
use std::test::Fail;

// A list, what is put in the place of a part of it, and the list then.
struct Replacement {
    list: &'static [u8],
    start: usize,
    stop: usize,
    made: &'static [u8],
    wanted: &'static [u8],
}

static REPLACEMENTS: [Replacement; 9] = [
    // as many
    Replacement {
        list: b"abcde",
        start: 1,
        stop: 3,
        made: b"xy",
        wanted: b"axyde",
    },
    // more
    Replacement {
        list: b"abcde",
        start: 1,
        stop: 2,
        made: b"xyz",
        wanted: b"axyzcde",
    },
    Replacement {
        list: b"abcde",
        start: 2,
        stop: 2,
        made: b"x",
        wanted: b"abxcde",
    },
    Replacement {
        list: b"abc",
        start: 3,
        stop: 3,
        made: b"xyzxyzxyz",
        wanted: b"abcxyzxyzxyz",
    },
    Replacement {
        list: b"",
        start: 0,
        stop: 0,
        made: b"xy",
        wanted: b"xy",
    },
    // fewer
    Replacement {
        list: b"abcde",
        start: 1,
        stop: 4,
        made: b"x",
        wanted: b"axe",
    },
    Replacement {
        list: b"abcde",
        start: 0,
        stop: 2,
        made: b"",
        wanted: b"cde",
    },
    Replacement {
        list: b"abcde",
        start: 0,
        stop: 5,
        made: b"",
        wanted: b"",
    },
    // nothing
    Replacement {
        list: b"abcde",
        start: 4,
        stop: 4,
        made: b"",
        wanted: b"abcde",
    },
];

fn expect_part(rt: &impl Abort, alloc: Global, row: &Replacement) -> Result<(), Fail> {
    let mut list = Vec::from_slice(alloc, row.list)?;
    list.reserve(row.made.len())?;
    assert!(rt; row.start <= row.stop && row.stop <= list.len());
    replace(&mut list, row.start, row.stop, row.made);
    assert!(rt; list.as_slice() == row.wanted, "{list:?}");
    Ok(())
}

#[test]
fn replaces_a_part(rt: HostRuntime) -> Result<(), Fail> {
    for row in &REPLACEMENTS {
        expect_part(&rt, rt.alloc(), row)?;
    }
    Ok(())
}

// Places, which of them go and come, how those after are moved, and the places then.
struct Shift {
    places: &'static [u32],
    start: usize,
    stop: usize,
    made: &'static [u32],
    old_stop: u32,
    new_stop: u32,
    wanted: &'static [u32],
}

static SHIFTS: [Shift; 6] = [
    // forwards, backwards and not at all
    Shift {
        places: &[1, 4, 6, 9],
        start: 1,
        stop: 2,
        made: &[3, 5],
        old_stop: 4,
        new_stop: 5,
        wanted: &[1, 3, 5, 7, 10],
    },
    Shift {
        places: &[1, 4, 6, 9],
        start: 1,
        stop: 3,
        made: &[],
        old_stop: 6,
        new_stop: 1,
        wanted: &[1, 4],
    },
    Shift {
        places: &[1, 4, 6, 9],
        start: 2,
        stop: 2,
        made: &[],
        old_stop: 6,
        new_stop: 6,
        wanted: &[1, 4, 6, 9],
    },
    // all, and none
    Shift {
        places: &[0, 2],
        start: 0,
        stop: 0,
        made: &[7],
        old_stop: 0,
        new_stop: 7,
        wanted: &[7, 7, 9],
    },
    Shift {
        places: &[3, 8],
        start: 2,
        stop: 2,
        made: &[9],
        old_stop: 8,
        new_stop: 9,
        wanted: &[3, 8, 9],
    },
    Shift {
        places: &[],
        start: 0,
        stop: 0,
        made: &[],
        old_stop: 5,
        new_stop: 0,
        wanted: &[],
    },
];

// Whether no place is before this one, or beyond those that the tests have.
fn can_shift(places: &[u32], old_stop: u32) -> bool
    ensures after { result ≡ true → (i : ℕ) → i < length places.now → old_stop ≤ slice_index places.now i }
    ensures small { result ≡ true → (i : ℕ) → i < length places.now → slice_index places.now i < 1000 }
{
    for place in places {
        if *place < old_stop || *place >= 1000 {
            return false;
        }
    }
    true
}

// The places, with room for so many more.
fn roomy(alloc: Global, places: &[u32], more: usize) -> Result<Vec<u32>, AllocError>
    ensures items { IfOk result (λ v. v.items ≡ places.now) }
    ensures room { IfOk result (λ v. vec_len v + more ≤ vec_capacity v) }
{
    let mut list = Vec::new(alloc);
    list.extend_from_slice(places)?;
    list.reserve(more)?;
    Ok(list)
}

fn expect_replaced(rt: &impl Abort, alloc: Global, row: &Shift) -> Result<(), Fail> {
    assert!(rt; row.start <= row.stop && row.stop <= row.places.len() && row.new_stop < 1000);
    assert!(rt; can_shift(&row.places[row.stop..], row.old_stop));
    let mut places = roomy(alloc, row.places, row.made.len())?;
    replace_and_shift(
        &mut places,
        row.start,
        row.stop,
        row.made,
        row.old_stop,
        row.new_stop,
    );
    assert!(rt; places.as_slice() == row.wanted, "{places:?}");
    Ok(())
}

fn expect_moved(rt: &impl Abort, alloc: Global, row: &Shift) -> Result<(), Fail> {
    assert!(rt; row.stop <= row.places.len() && row.new_stop < 1000);
    assert!(rt; can_shift(&row.places[row.stop..], row.old_stop));
    let mut places = roomy(alloc, row.places, 0)?;
    shift(&mut places, row.stop, row.old_stop, row.new_stop);
    let wanted = row.wanted.get(row.start.saturating_add(row.made.len())..);
    assert!(rt; places.get(row.stop..) == wanted, "{places:?}");
    Ok(())
}

#[test]
fn moves_what_is_after(rt: HostRuntime) -> Result<(), Fail> {
    for row in &SHIFTS {
        expect_replaced(&rt, rt.alloc(), row)?;
        expect_moved(&rt, rt.alloc(), row)?;
    }
    Ok(())
}

// A change of an order of values.
enum Change {
    Replace(usize, usize, &'static [u8]),
    Set(usize, u8),
}

// Changes in turn, from no values on, and the values after each.
static CHANGES: [(Change, &[u8]); 9] = [
    (Change::Replace(0, 0, b""), b""),
    (Change::Replace(0, 0, b"abcd"), b"abcd"),
    (Change::Set(2, b'x'), b"abxd"),
    (Change::Replace(1, 3, b"efg"), b"aefgd"),
    (Change::Set(0, b'y'), b"yefgd"),
    (Change::Replace(0, 4, b"h"), b"hd"),
    (Change::Set(1, b'z'), b"hz"),
    (Change::Replace(2, 2, b"ijkl"), b"hzijkl"),
    (Change::Replace(0, 6, b""), b""),
];

fn replace_in(
    rt: &impl Abort,
    alloc: Global,
    order: &mut Ordered<u8>,
    start: usize,
    stop: usize,
    made: &[u8],
) -> Result<(), Fail> {
    assert!(rt; start <= stop && stop <= order.len());
    let mut items = Vec::new(alloc);
    items.extend_from_slice(made)?;
    order.reserve(items.len())?;
    order.replace(start, stop, items);
    Ok(())
}

fn set_in(rt: &impl Abort, order: &mut Ordered<u8>, number: usize, value: u8) {
    assert!(rt; number < order.len());
    order.set(number, value);
}

fn change_in(
    rt: &impl Abort,
    alloc: Global,
    order: &mut Ordered<u8>,
    change: &Change,
) -> Result<(), Fail> {
    match change {
        Change::Replace(start, stop, made) => replace_in(rt, alloc, order, *start, *stop, made),
        Change::Set(number, value) => Ok(set_in(rt, order, *number, *value)),
    }
}

// Whether these are the values.
fn has_values(order: &Ordered<u8>, wanted: &[u8]) -> bool {
    for (number, value) in wanted.iter().enumerate() {
        if order.get(number) != Some(value) {
            return false;
        }
    }
    order.len() == wanted.len() && order.get(wanted.len()) == None
}

fn make_changes(rt: &impl Abort, alloc: Global, order: &mut Ordered<u8>) -> Result<(), Fail> {
    for (change, wanted) in &CHANGES {
        change_in(rt, alloc, order, change)?;
        assert!(rt; has_values(order, wanted), "no {wanted:?}");
    }
    Ok(())
}

#[test]
fn keeps_values_in_order(rt: HostRuntime) -> Result<(), Fail> {
    let mut order = Ordered::new(rt.alloc());
    make_changes(&rt, rt.alloc(), &mut order)
}
