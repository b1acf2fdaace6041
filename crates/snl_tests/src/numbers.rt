//! A table of numbers by keys: what is in it is found, be it among the first keys or after them.

use snl_numbers::NumbersByKey;
use std::process::Abort;
use std::test::Fail;

// More keys than are hashed.
const COUNT: usize = 2_500;

// Keys that come in another order than their own.
fn key_of(number: usize) -> usize {
    number.wrapping_mul(7) % COUNT
}

// Each key gets a number, and keeps it where it comes again.
fn expect_added(
    rt: &impl Abort,
    table: &mut NumbersByKey<usize>,
    number: usize,
) -> Result<(), Fail> {
    let key = key_of(number);
    assert!(rt; table.get(&key) == None, "{key}");
    let is_known = table.add_first(key, number)?;
    let is_known_again = table.add_first(key, COUNT)?;
    assert!(rt; !is_known && is_known_again, "{key}");
    Ok(())
}

fn fill(rt: &impl Abort, table: &mut NumbersByKey<usize>) -> Result<(), Fail> {
    for number in 0..COUNT {
        expect_added(rt, table, number)?;
    }
    Ok(())
}

fn key_count(table: &NumbersByKey<usize>) -> usize {
    let mut count: usize = 0;
    for _ in table.keys() {
        count = count.saturating_add(1);
    }
    count
}

fn expect_all(rt: &impl Abort, table: &NumbersByKey<usize>) {
    for number in 0..COUNT {
        let key = key_of(number);
        assert!(rt; table.get(&key) == Some(number), "{key}");
    }
    assert!(rt; table.get(&COUNT) == None);
    assert!(rt; key_count(table) == COUNT);
}

#[test]
fn first_numbers_are_found(rt: HostRuntime) -> Result<(), Fail> {
    let mut table = NumbersByKey::new(rt.alloc());
    fill(&rt, &mut table)?;
    expect_all(&rt, &table);
    Ok(())
}

#[test]
fn tables_with_room_begin_empty(rt: HostRuntime) -> Result<(), Fail> {
    let mut table = NumbersByKey::with_capacity(rt.alloc(), COUNT)?;
    assert!(rt; key_count(&table) == 0);
    fill(&rt, &mut table)?;
    expect_all(&rt, &table);
    Ok(())
}
