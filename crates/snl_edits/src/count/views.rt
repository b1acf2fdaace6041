//! What an item sees of the others in one text comes in, and what it sees in another; whether that
//! is the same goes out.

use crate::count::read_text::ReadItems;
use snl_scope::Name;

// Whether a name means the same.
fn means_the_same(
    old: &ReadItems,
    old_number: usize,
    new: &ReadItems,
    number: usize,
    name: &Name,
) -> bool {
    old.links.fact(old_number, name.bytes()) == new.links.fact(number, name.bytes())
}

// Whether a name is that of a state in both texts, or in neither.
fn leads_to_the_same(
    old: &ReadItems,
    old_number: usize,
    new: &ReadItems,
    number: usize,
    name: &Name,
) -> bool {
    old.links.has_target(old_number, name.bytes()) == new.links.has_target(number, name.bytes())
}

/// Whether an item of the old text sees what the same item of the new one sees: whether it is in a
/// state set, what each name that it uses means, and which of the states that it leads to are
/// there.
pub fn sees_the_same(old: &ReadItems, old_number: usize, new: &ReadItems, number: usize) -> bool {
    let Some(summary) = new.summaries.get(number) else {
        return false;
    };
    old.links.enclosing_set(old_number).is_some() == new.links.enclosing_set(number).is_some()
        && summary
            .uses
            .as_slice()
            .iter()
            .all(|name| means_the_same(old, old_number, new, number, name))
        && summary.targets.as_slice().iter().all(|target| leads_to_the_same(
            old,
            old_number,
            new,
            number,
            &target.name,
        ))
}
