//! A book of names: each name keeps the number that it got, also when keys are merged.

use snl_names::NameBook;
use std::alloc::{AllocError, Global};
use std::process::Abort;
use std::test::Fail;

// So many names that keys are merged more than once.
const COUNT: usize = 1_500;

fn made_name(alloc: Global, number: usize) -> Result<String, AllocError> {
    format!(in alloc; "name{number}")
}

// Each name gets the next number, and keeps it where it comes again.
fn expect_added(
    rt: &impl Abort,
    alloc: Global,
    book: &mut NameBook,
    number: usize,
) -> Result<(), Fail> {
    let name = made_name(alloc, number)?;
    assert!(rt; book.number(name.as_bytes()) == None, "{name}");
    let first = book.add(name.as_bytes())?;
    let again = book.add(name.as_bytes())?;
    assert!(rt; first == number && again == number, "{name}");
    Ok(())
}

fn expect_found(
    rt: &impl Abort,
    alloc: Global,
    book: &NameBook,
    number: usize,
) -> Result<(), Fail> {
    let name = made_name(alloc, number)?;
    assert!(rt; book.number(name.as_bytes()) == Some(number), "{name}");
    assert!(rt; number < book.count());
    assert!(rt; book.name(number) == name.as_bytes(), "{name}");
    Ok(())
}

fn fill(rt: &impl Abort, alloc: Global, book: &mut NameBook) -> Result<(), Fail> {
    for number in 0..COUNT {
        expect_added(rt, alloc, book, number)?;
    }
    Ok(())
}

fn expect_all(rt: &impl Abort, alloc: Global, book: &NameBook) -> Result<(), Fail> {
    for number in 0..COUNT {
        expect_found(rt, alloc, book, number)?;
    }
    assert!(rt; book.count() == COUNT);
    // four bytes and one to four digits each
    assert!(rt; book.byte_count() == 10_890, "{}", book.byte_count());
    Ok(())
}

#[test]
fn names_keep_their_numbers(rt: HostRuntime) -> Result<(), Fail> {
    let mut book = NameBook::new(rt.alloc());
    fill(&rt, rt.alloc(), &mut book)?;
    expect_all(&rt, rt.alloc(), &book)?;
    let copy = book.copied(rt.alloc())?;
    expect_all(&rt, rt.alloc(), &copy)
}

// A copy is a book of its own.
#[test]
fn copies_go_on_apart(rt: HostRuntime) -> Result<(), Fail> {
    let mut book = NameBook::new(rt.alloc());
    let _ = book.add(b"")?;
    let mut copy = book.copied(rt.alloc())?;
    let in_book = book.add(b"one")?;
    let in_copy = copy.add(b"two")?;
    assert!(rt; in_book == 1 && in_copy == 1);
    assert!(rt; book.number(b"two") == None && copy.number(b"one") == None);
    assert!(rt; copy.number(b"") == Some(0));
    Ok(())
}

// A book begins with another one where its first names are those of that one, in their order.
#[test]
fn copies_begin_with_the_book(rt: HostRuntime) -> Result<(), Fail> {
    let mut book = NameBook::new(rt.alloc());
    let _ = book.add(b"one")?;
    let _ = book.add(b"two")?;
    let mut longer = book.copied(rt.alloc())?;
    let _ = longer.add(b"three")?;
    let mut turned = NameBook::new(rt.alloc());
    let _ = turned.add(b"two")?;
    let _ = turned.add(b"one")?;
    assert!(rt; book.begins_with(&book) && longer.begins_with(&book));
    assert!(rt; !book.begins_with(&longer) && !turned.begins_with(&book));
    Ok(())
}
