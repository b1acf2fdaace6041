//! A text under changes, with its line ends.
//! In: a text, then ranges of it and the bytes that come in their place. Out: the text after these
//! changes, and where its lines end.
//! Each change takes all memory that it needs first, and then changes both lists in place.

ghost use Rattle.snl_lex.specs.LineList.{ends_before, line_ends, line_ends_from};
ghost use Rattle.snl_lists.specs.Moves.{moved, replaced, replaced_and_moved};
ghost use Rattle.std.specs.List.Sorted.{IsNonDecreasing};
ghost use Rattle.std.specs.Prelude.{◌≡◌, ℕ, ◌+◌, ◌-◌, ◌^◌, ◌<◌, ◌≤◌, ◌++◌, IfOk, OnErr, OnOk};
ghost use Rattle.std.specs.Prelude.{drop, length, slice_index, take, vec_capacity, vec_len};

use crate::line_places::count_before;
use memchr::memchr_iter;
use snl_cut::OutOfMemory;
use snl_lists::replace;
use std::alloc::Global;
use std::marker::Model;

/// A text, and where its lines end. Contracts see the text alone.
#[derive(Drop)]
pub struct Draft {
    text: Vec<u8>,
    ends: Vec<usize>,
}

impl Model for Draft {
    ghost use Rattle.snl_lex.specs.LineList.{line_ends};
    ghost use Rattle.std.specs.Prelude.{◌≡◌, ℕ, List};

    ghost Value = { List ℕ };

    ghost view = { λ d. d.text.items };

    ghost invariant = { λ d. d.ends.items ≡ line_ends d.text.items };
}

// Where the line ends are among bytes of which the first one is at an offset.
fn line_ends_from(alloc: Global, bytes: &[u8], from: usize) -> Result<Vec<usize>, OutOfMemory>
    requires { from + length bytes.now < 2 ^ 64 }
    ensures { IfOk result (λ ends. ends.items ≡ line_ends_from from bytes.now) }
{
    let mut ends = Vec::new(alloc);
    for place in memchr_iter(b'\n', bytes) {
        ends.push(from + place)?;
    }
    Ok(ends)
}

// Moves offsets, as the bytes from `old_stop` on are moved to `new_stop`.
fn move_all(offsets: &mut [usize], old_stop: usize, new_stop: usize)
    requires fits { (i : ℕ) → i < length offsets.old
        → slice_index offsets.old i + new_stop < 2 ^ 64 }
    ensures { offsets.new ≡ moved old_stop new_stop offsets.old }
{
    for offset in offsets {
        *offset = offset.saturating_sub(old_stop) + new_stop;
    }
}

// Moves the offsets from one number on.
fn move_from(offsets: &mut Vec<usize>, number: usize, old_stop: usize, new_stop: usize)
    requires number { number ≤ vec_len offsets.old }
    requires fits { (i : ℕ) → i < length (drop number offsets.old.items)
        → slice_index (drop number offsets.old.items) i + new_stop < 2 ^ 64 }
    ensures items { offsets.new.items ≡ take number offsets.old.items
        ++ moved old_stop new_stop (drop number offsets.old.items) }
    ensures capacity { vec_capacity offsets.new ≡ vec_capacity offsets.old }
{
    move_all(&mut offsets[number..], old_stop, new_stop);
}

// Puts the line ends among new bytes in the place of those from `start` up to `old_stop`, and moves
// the later ones, as the bytes from `old_stop` on are moved to `new_stop`. There is room for them.
fn replace_ends(
    ends: &mut Vec<usize>,
    start: usize,
    old_stop: usize,
    new_stop: usize,
    made: &[usize],
)
    requires rising { IsNonDecreasing ends.old.items }
    requires order { start ≤ old_stop }
    requires room { vec_len ends.old + length made.now ≤ vec_capacity ends.old }
    requires fits { (i : ℕ) → i < length ends.old.items
        → slice_index ends.old.items i + new_stop < 2 ^ 64 }
    ensures { ends.new.items ≡ replaced_and_moved ends.old.items
        (ends_before ends.old.items start) (ends_before ends.old.items old_stop) made.now
        old_stop new_stop }
{
    let front = count_before(ends, start);
    let back = count_before(ends, old_stop);
    move_from(ends, back, old_stop, new_stop);
    replace(ends, front, back, made);
}

impl Draft {
    /// A draft of a text. The only error is want of memory.
    pub fn of(alloc: Global, text: &[u8]) -> Result<Draft, OutOfMemory>
        ensures { IfOk result (λ d. d ≡ text.now) }
    {
        let ends = line_ends_from(alloc, text, 0)?;
        let text = Vec::from_slice(alloc, text)?;
        Ok(Draft { text, ends })
    }

    /// The text.
    pub fn text(&self) -> &[u8]
        ensures { result.now ≡ self.now }
    {
        self.text.as_slice()
    }

    /// The offsets of the LFs of the text, rising.
    pub fn line_ends(&self) -> &[usize]
        ensures { result.now ≡ line_ends self.now }
    {
        self.ends.as_slice()
    }

    /// Puts other bytes in the place of those from `start` up to `stop`. The only error is want of
    /// memory, and it leaves the text as it was.
    pub fn splice(&mut self, start: usize, stop: usize, new: &[u8]) -> Result<(), OutOfMemory>
        requires order { start ≤ stop }
        requires inside { stop ≤ length self.old }
        ensures ok { OnOk result (self.new ≡ replaced self.old start stop new.now) }
        ensures err { OnErr result (self.new ≡ self.old) }
    {
        let alloc = *self.text.allocator();
        self.text.reserve(new.len())?;
        let made = line_ends_from(alloc, new, start)?;
        self.ends.reserve(made.len())?;
        let new_stop = start + new.len();
        replace_ends(&mut self.ends, start, stop, new_stop, &made);
        replace(&mut self.text, start, stop, new);
        Ok(())
    }
}
