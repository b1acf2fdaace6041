//! Two texts and the edit between them come in; what the edit costs goes out.

use crate::count::cuts::{Change, Recount};
use crate::count::read_text::{ReadText, read};
use crate::count::tokens::{are_the_same, change_of_tokens};
use crate::count::views::sees_the_same;
use snl_cut::OutOfMemory;
use snl_scope::ItemKind;
use std::alloc::Global;

/// What an edit costs.
#[derive(Clone, Copy, Debug, PartialEq, Eq)]
pub struct Counts {
    /// The pieces of the new text that are fresh.
    pub pieces: usize,
    /// Its items that are fresh.
    pub items: usize,
    /// Its sound items that are fresh, or see the others in another way than before.
    pub stirred: usize,
}

// Whether an item of the new text is sound, and is fresh or sees the others in another way. It had
// the old number, if it is kept.
fn is_stirred(old: &ReadText, new: &ReadText, number: usize, old_number: Option<usize>) -> bool {
    let is_faulty = match new.items.summaries.get(number) {
        Some(summary) => summary.kind == ItemKind::Faulty,
        None => true,
    };
    if is_faulty {
        return false;
    }
    match old_number {
        Some(old_number) => !sees_the_same(&old.items, old_number, &new.items, number),
        None => true,
    }
}

// The number that an item had in the old text; none for a fresh one. Where no token is another one,
// the items keep their numbers.
fn old_number(items: Option<Recount>, number: usize) -> Option<usize> {
    match items {
        Some(items) => items.old_number(number),
        None => Some(number),
    }
}

fn count_stirred(old: &ReadText, new: &ReadText, items: Option<Recount>) -> usize {
    let mut count: usize = 0;
    for number in 0..new.items.summaries.len() {
        if is_stirred(old, new, number, old_number(items, number)) {
            count = count.wrapping_add(1);
        }
    }
    count
}

fn count_fresh(items: Option<Recount>) -> usize {
    match items {
        Some(items) => items.fresh(),
        None => 0,
    }
}

// What an edit costs between two texts that are read.
fn count_between(
    old_text: &[u8],
    old: &ReadText,
    text: &[u8],
    new: &ReadText,
    edit: Change,
) -> Counts {
    let pieces = Recount::of(&old.piece_ends, &new.piece_ends, edit);
    let change = change_of_tokens(old, new, edit, pieces.meet());
    let items = if are_the_same(old_text, old, text, new, change) {
        None
    } else {
        Some(Recount::of(&old.items.ends, &new.items.ends, change))
    };
    Counts {
        pieces: pieces.fresh(),
        items: count_fresh(items),
        stirred: count_stirred(old, new, items),
    }
}

// What an edit costs that makes the text of an old one that is read.
fn count_from(
    alloc: Global,
    old_text: &[u8],
    old: &ReadText,
    text: &[u8],
    edit: Change,
) -> Result<Counts, OutOfMemory> {
    let new = read(alloc, text)?;
    Ok(count_between(old_text, old, text, &new, edit))
}

/// What an edit costs that makes the text of the old one.
pub fn second_count(
    alloc: Global,
    old_text: &[u8],
    text: &[u8],
    edit: Change,
) -> Result<Counts, OutOfMemory> {
    let old = read(alloc, old_text)?;
    count_from(alloc, old_text, &old, text, edit)
}
