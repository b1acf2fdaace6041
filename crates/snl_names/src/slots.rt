//! Slots that tell the numbers of names by their prints. Nothing is known of a slot: whoever follows
//! one looks whether it leads to the right name. A name without a slot is found by its key.

ghost use Rattle.std.specs.Prelude.{◌≡◌, IfSome, Some, slice_get};

use crate::keys::Key;
use crate::spellings::Spellings;
use snl_cut::OutOfMemory;
use snl_facts::are_same_bytes;
use std::alloc::Global;

// In so many slots a name of one print may be.
const TRIES: usize = 4;

/// The upper half of a print, and the number of a name.
#[derive(Clone, Copy)]
struct Slot {
    print: u32,
    number: u32,
}

// A slot with no name.
const EMPTY: Slot = Slot {
    print: 0,
    number: u32::MAX,
};

/// At least twice as many slots as there were names when they were made.
#[derive(Drop)]
pub(crate) struct Slots {
    slots: Vec<Slot>,
}

// The first slot for a print. The factor (of Fibonacci hashing) spreads short names too.
fn first_slot(print: u64, count: usize) -> usize {
    let spread = print.wrapping_mul(0x9e37_79b9_7f4a_7c15);
    ((spread as u128 * count as u128) >> 64) as usize
}

// The number in a slot, if it is that of this name.
#[inline]
fn number_in(slot: Slot, names: &Spellings, print: u64, name: &[u8]) -> Option<usize>
    ensures { IfSome result (λ n. slice_get names.now n ≡ Some name.now) }
{
    let number = slot.number as usize;
    let may_be = slot.print == (print >> 32) as u32 && number < names.count();
    if may_be && are_same_bytes(names.get(number), name) {
        Some(number)
    } else {
        None
    }
}

impl Slots {
    /// None.
    pub(crate) fn none(alloc: Global) -> Slots {
        Slots {
            slots: Vec::new(alloc),
        }
    }

    /// Empty ones, with the numbers of these keys put into them.
    pub(crate) fn of(alloc: Global, keys: &[Key], more: &[Key]) -> Result<Slots, OutOfMemory> {
        let count = keys.len().saturating_add(more.len());
        let mut slots = Slots {
            slots: Vec::from_elem(alloc, EMPTY, count.saturating_mul(4).saturating_add(16))?,
        };
        slots.put_all(keys);
        slots.put_all(more);
        Ok(slots)
    }

    pub(crate) fn copied(&self, alloc: Global) -> Result<Slots, OutOfMemory> {
        Ok(Slots {
            slots: Vec::from_slice(alloc, &self.slots)?,
        })
    }

    /// Whether so many names want more slots.
    pub(crate) fn are_few_for(&self, names: usize) -> bool {
        self.slots.len() / 2 <= names
    }

    fn put_all(&mut self, keys: &[Key]) {
        for key in keys {
            self.put(*key);
        }
    }

    /// Puts the number of a key into an empty slot of its print, if there is one.
    pub(crate) fn put(&mut self, key: Key) {
        if let Ok(number) = u32::try_from(key.number) {
            let print = (key.print >> 32) as u32;
            let first = first_slot(key.print, self.slots.len());
            for step in 0..TRIES {
                if let Some(slot) = self.slots.get_mut(first.saturating_add(step)) {
                    if slot.number == u32::MAX {
                        *slot = Slot { print, number };
                        return;
                    }
                }
            }
        }
    }

    /// The number of a name that has this print, if a slot leads to it.
    pub(crate) fn number(&self, names: &Spellings, print: u64, name: &[u8]) -> Option<usize>
        ensures { IfSome result (λ n. slice_get names.now n ≡ Some name.now) }
    {
        let first = first_slot(print, self.slots.len());
        for step in 0..TRIES {
            if let Some(slot) = self.slots.get(first.saturating_add(step)) {
                let number = number_in(*slot, names, print, name);
                if number.is_some() {
                    return number;
                }
            }
        }
        None
    }
}
