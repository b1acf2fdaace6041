//! The names themselves, one after another.

ghost use Rattle.std.specs.Prelude.{◌≡◌, ◌<◌, ◌≤◌, [], ◌∷◌, ◌++◌, IfOk, IsTrue, OnErr, OnOk, Some, length, slice_get, sum_by, take};
ghost use Rattle.snl_cut.specs.Cut.{last_end};

use snl_cut::OutOfMemory;
use std::alloc::Global;
use std::marker::Model;

/// Names one after another, and where each ends. Contracts see their list.
pub(crate) struct Spellings {
    bytes: Vec<u8>,
    ends: Vec<usize>,
}

// By hand, so that whoever holds names need not know how they are held to let them go.
impl Drop for Spellings {
    fn drop(self) {
        let Spellings { bytes: _, ends: _ } = self;
    }
}

impl Model for Spellings {
    ghost use Rattle.std.specs.Prelude.{List, ℕ};
    ghost use Rattle.snl_cut.specs.Cut.{members};
    ghost use Rattle.snl_names.specs.Spellings.{AreEnds};

    ghost Value = { List (List ℕ) };

    ghost view = { λ a. members a.bytes.items 0 a.ends.items };

    ghost invariant = { λ a. AreEnds a.bytes.items a.ends.items };
}

// Where the name with a number begins: at the end of the one before it.
#[inline]
fn start_of(ends: &[usize], number: usize) -> usize
    requires { number ≤ length ends.now }
    ensures { result ≡ last_end 0 (take number ends.now) }
{
    if number == 0 { 0 } else { ends[number - 1] }
}

// Whether bytes begin with these.
fn bytes_begin_with(bytes: &[u8], first: &[u8]) -> bool
    ensures { IsTrue result → take (length first.now) bytes.now ≡ first.now }
{
    first.len() <= bytes.len() && &bytes[..first.len()] == first
}

// Whether ends begin with these.
fn ends_begin_with(ends: &[usize], first: &[usize]) -> bool
    ensures { IsTrue result → take (length first.now) ends.now ≡ first.now }
{
    first.len() <= ends.len() && &ends[..first.len()] == first
}

impl Spellings {
    pub(crate) fn new(alloc: Global) -> Spellings
        ensures { result ≡ [] }
    {
        Spellings {
            bytes: Vec::new(alloc),
            ends: Vec::new(alloc),
        }
    }

    pub(crate) fn copied(&self, alloc: Global) -> Result<Spellings, OutOfMemory>
        ensures { IfOk result (λ b. b ≡ self.now) }
    {
        Ok(Spellings {
            bytes: Vec::from_slice(alloc, &self.bytes)?,
            ends: Vec::from_slice(alloc, &self.ends)?,
        })
    }

    pub(crate) fn count(&self) -> usize
        ensures { result ≡ length self.now }
    {
        self.ends.len()
    }

    pub(crate) fn byte_count(&self) -> usize
        ensures { result ≡ sum_by length self.now }
    {
        self.bytes.len()
    }

    #[inline]
    pub(crate) fn get(&self, number: usize) -> &[u8]
        requires { number < length self.now }
        ensures { slice_get self.now number ≡ Some result.now }
    {
        let start = start_of(&self.ends, number);
        &self.bytes[start..self.ends[number]]
    }

    pub(crate) fn push(&mut self, name: &[u8]) -> Result<(), OutOfMemory>
        ensures ok { OnOk result (self.new ≡ self.old ++ name.now ∷ []) }
        ensures err { OnErr result (self.new ≡ self.old) }
    {
        self.ends.reserve(1)?;
        self.bytes.extend_from_slice(name)?;
        let end = self.bytes.len();
        self.ends.push_reserved(end);
        Ok(())
    }

    /// Whether they begin with these names.
    pub(crate) fn begin_with(&self, first: &Spellings) -> bool
        ensures { IsTrue result → take (length first.now) self.now ≡ first.now }
    {
        ends_begin_with(&self.ends, &first.ends) && bytes_begin_with(&self.bytes, &first.bytes)
    }
}
