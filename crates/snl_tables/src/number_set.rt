//! A set of numbers below a limit, of which the least can be taken out.
//! All numbers of a block without members are passed over at once.
#![tactic(auto)]

ghost use Rattle.std.specs.Prelude.{◌≡◌, ℕ, ◌+◌, ◌*◌, ◌/◌, ◌<◌, ◌≤◌, List, [], ◌∷◌, Bool, true, false, length, replicate, IfOk, IfSome, IfNone, MatchOption, ◌==◌, position};
ghost use Rattle.std.specs.List.{slice_set};
ghost use Rattle.snl_tables.specs.Marks.{AreKept, EndsBlock, IsFirstMarked, NoneMarked, is_marked, marked};

use snl_cut::OutOfMemory;
use std::alloc::Global;
use std::marker::Model;

/// A block has so many numbers.
const BLOCK: usize = 256;

/// Numbers below a limit. Contracts see a bit for each number.
#[derive(Drop)]
pub struct NumberSet {
    marks: Vec<bool>,
    blocks: Vec<bool>,
    from: usize,
}

impl Model for NumberSet {
    ghost use Rattle.std.specs.Prelude.{List, Bool};
    ghost use Rattle.snl_tables.specs.Marks.{AreKept};

    ghost Value = { List Bool };

    ghost view = { λ s. s.marks.items };

    ghost invariant = { λ s. AreKept s.marks.items s.blocks.items s.from };
}

impl NumberSet {
    /// The empty set of numbers below a limit.
    pub fn new(alloc: Global, limit: usize) -> Result<NumberSet, OutOfMemory>
        ensures { IfOk result (λ s. s ≡ replicate limit false) }
    {
        Ok(NumberSet {
            marks: unmarked(alloc, limit)?,
            blocks: unmarked(alloc, limit / BLOCK + 1)?,
            from: 0,
        })
    }

    pub fn contains(&self, number: usize) -> bool
        ensures { result ≡ is_marked self.now number }
    {
        match self.marks.get(number) {
            Some(mark) => *mark,
            None => false,
        }
    }

    pub fn is_empty(&mut self) -> bool
        ensures value { result ≡ (length (marked self.old) == 0) }
        ensures same { self.new ≡ self.old }
    {
        first_from(&self.marks, &mut self.blocks, self.from).is_none()
    }

    /// Puts in a number, if it is below the limit.
    pub fn insert(&mut self, number: usize)
        ensures { self.new ≡ slice_set self.old number true }
    {
        if number < self.marks.len() {
            self.marks[number] = true;
            self.blocks[number / BLOCK] = true;
            self.from = self.from.min(number);
        }
    }

    /// Takes out the least number.
    #[tactic(auto, using(crate::proofs::Marking::kept_taken, crate::proofs::Marking::marked_first, crate::proofs::Marking::marked_none))]
    pub fn take_first(&mut self) -> Option<usize>
        ensures taken { MatchOption result ((marked self.old ≡ []) × (marked self.new ≡ []))
            (λ n. marked self.old ≡ n ∷ marked self.new) }
        ensures below { IfSome result (λ n. n < length self.old) }
        ensures limit { length self.new ≡ length self.old }
    {
        let number = first_from(&self.marks, &mut self.blocks, self.from)?;
        self.marks[number] = false;
        self.from = number;
        Some(number)
    }

    /// Takes out all numbers.
    pub fn clear(&mut self)
        ensures empty { marked self.new ≡ [] }
        ensures limit { length self.new ≡ length self.old }
    {
        while self.take_first().is_some() {}
    }
}

fn unmarked(alloc: Global, count: usize) -> Result<Vec<bool>, OutOfMemory>
    ensures { IfOk result (λ marks. marks.items ≡ replicate count false) }
{
    vec![in alloc; false; count].map_err(|_| OutOfMemory)
}

// The first marked number from a place on. It is noted of each block that is passed that it has
// none.
fn first_from(marks: &[bool], blocks: &mut [bool], from: usize) -> Option<usize>
    requires { AreKept marks.now blocks.old from }
    ensures first { MatchOption result (NoneMarked marks.now 0 (length marks.now))
        (IsFirstMarked marks.now 0) }
    ensures kept { AreKept marks.now blocks.new from }
{
    let mut at = from;
    while at < marks.len() {
        let end = block_end(at, marks.len());
        let number = first_within(marks, blocks[at / BLOCK], at, end);
        if number.is_some() {
            return number;
        }
        blocks[at / BLOCK] = false;
        at = end;
    }
    None
}

// Where the block of a number ends.
fn block_end(number: usize, limit: usize) -> usize
    requires { number < limit }
    ensures { EndsBlock limit number result }
{
    let left = BLOCK - number % BLOCK;
    if limit - number < left {
        limit
    } else {
        number + left
    }
}

// The first marked number between two places of a block, if the block has one at all.
fn first_within(marks: &[bool], is_noted: bool, from: usize, to: usize) -> Option<usize>
    requires ordered { from ≤ to }
    requires inside { to ≤ length marks.now }
    requires noted { is_noted ≡ false → NoneMarked marks.now from to }
    ensures none { IfNone result (NoneMarked marks.now from to) }
    ensures some { IfSome result (IsFirstMarked marks.now from) }
{
    if !is_noted {
        return None;
    }
    let place = first_mark(&marks[from..to])?;
    Some(from + place)
}

fn first_mark(marks: &[bool]) -> Option<usize>
    ensures { result ≡ position (λ mark. mark) marks.now }
{
    marks.iter().position(|mark| *mark)
}
