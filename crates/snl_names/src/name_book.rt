//! The book of names.

ghost use Rattle.std.specs.Prelude.{◌≡◌, ◌<◌, ℕ, [], ◌∷◌, ◌++◌, IfOk, IsTrue, None, OnErr, OnOk, Some, bytes_eq, get_or, length, position, slice_get, sum_by, take};
ghost use Rattle.snl_names.specs.NameBook.{AllDiffer, with_name};
ghost use Rattle.snl_names.specs.Prints.{print_of};

use crate::keys::{Key, number_among, place};
use crate::merging::merge;
use crate::prints::print_of;
use crate::slots::Slots;
use crate::spellings::Spellings;
use snl_cut::OutOfMemory;
use std::alloc::Global;
use std::marker::Model;
use std::mem;

// So many keys are in the list of the last ones before they are merged into so many others: few
// where a key that is put among them moves many, and more where a merge moves many.
fn recent_limit(sorted: usize) -> usize {
    sorted / 256 + 64
}

/// Different names, which contracts see as their list. The number of a name is its place in it.
pub struct NameBook {
    names: Spellings,
    // the keys of the names, in order, but for those of the last ones
    sorted: Vec<Key>,
    // the keys of the last ones, in order
    recent: Vec<Key>,
    // room for the next merge
    spare: Vec<Key>,
    // the numbers of most names, by their prints
    slots: Slots,
}

// By hand, so that whoever holds names need not know how they are held to let them go.
impl Drop for NameBook {
    fn drop(self) {
        let NameBook {
            names: _,
            sorted: _,
            recent: _,
            spare: _,
            slots: _,
        } = self;
    }
}

impl Model for NameBook {
    ghost use Rattle.std.specs.Prelude.{List, ℕ};
    ghost use Rattle.snl_names.specs.NameBook.{IsBook};

    ghost Value = { List (List ℕ) };

    ghost view = { λ a. a.names };

    ghost invariant = { λ a. IsBook a.names a.sorted.items a.recent.items };
}

impl NameBook {
    /// A book of no names.
    pub fn new(alloc: Global) -> NameBook
        ensures { result ≡ [] }
    {
        NameBook {
            names: Spellings::new(alloc),
            sorted: Vec::new(alloc),
            recent: Vec::new(alloc),
            spare: Vec::new(alloc),
            slots: Slots::none(alloc),
        }
    }

    /// Another book of the same names, with their numbers.
    pub fn copied(&self, alloc: Global) -> Result<NameBook, OutOfMemory>
        ensures { IfOk result (λ b. b ≡ self.now) }
    {
        let names = self.names.copied(alloc)?;
        let mut sorted = Vec::new(alloc);
        merge(&self.sorted, &self.recent, &self.names, &mut sorted)?;
        let slots = self.slots.copied(alloc)?;
        Ok(NameBook {
            names,
            sorted,
            recent: Vec::new(alloc),
            spare: Vec::new(alloc),
            slots,
        })
    }

    /// How many names there are.
    pub fn count(&self) -> usize
        ensures { result ≡ length self.now }
    {
        self.names.count()
    }

    /// How many bytes all names have together.
    pub fn byte_count(&self) -> usize
        ensures { result ≡ sum_by length self.now }
    {
        self.names.byte_count()
    }

    /// The name with a number.
    pub fn name(&self, number: usize) -> &[u8]
        requires { number < length self.now }
        ensures { slice_get self.now number ≡ Some result.now }
    {
        self.names.get(number)
    }

    /// The number of a name, if it is in the book.
    pub fn number(&self, name: &[u8]) -> Option<usize>
        ensures { result ≡ position (bytes_eq name.now) self.now }
    {
        self.number_by(print_of(name), name)
    }

    fn number_by(&self, print: u64, name: &[u8]) -> Option<usize>
        requires { print ≡ print_of name.now }
        ensures { result ≡ position (bytes_eq name.now) self.now }
    {
        match self.slots.number(&self.names, print, name) {
            Some(number) => Some(number),
            None => self.number_by_keys(print, name),
        }
    }

    fn number_by_keys(&self, print: u64, name: &[u8]) -> Option<usize>
        requires { print ≡ print_of name.now }
        ensures { result ≡ position (bytes_eq name.now) self.now }
    {
        match number_among(&self.sorted, &self.names, print, name) {
            Some(number) => Some(number),
            None => number_among(&self.recent, &self.names, print, name),
        }
    }

    /// The number of a name, which is taken in if it is new.
    pub fn add(&mut self, name: &[u8]) -> Result<usize, OutOfMemory>
        ensures names { OnOk result (self.new ≡ with_name self.old name.now) }
        ensures number { IfOk result (λ n. position (bytes_eq name.now) self.new ≡ Some n) }
        ensures err { OnErr result (self.new ≡ self.old) }
    {
        let print = print_of(name);
        match self.number_by(print, name) {
            Some(number) => Ok(number),
            None => self.add_new(print, name),
        }
    }

    // Merges the last keys into the others where there are many of them.
    fn settle(&mut self) -> Result<(), OutOfMemory>
        ensures { self.new ≡ self.old }
    {
        if self.recent.len() < recent_limit(self.sorted.len()) {
            return Ok(());
        }
        merge(&self.sorted, &self.recent, &self.names, &mut self.spare)?;
        mem::swap(&mut self.sorted, &mut self.spare);
        self.recent.clear();
        Ok(())
    }

    // Makes more slots where there are few for one more name.
    fn make_slots(&mut self) -> Result<(), OutOfMemory>
        ensures { self.new ≡ self.old }
    {
        if self.slots.are_few_for(self.names.count()) {
            let alloc = *self.spare.allocator();
            self.slots = Slots::of(alloc, &self.sorted, &self.recent)?;
        }
        Ok(())
    }

    // Takes in a name that is new.
    fn add_new(&mut self, print: u64, name: &[u8]) -> Result<usize, OutOfMemory>
        requires new { position (bytes_eq name.now) self.old ≡ None }
        requires print { print ≡ print_of name.now }
        ensures names { OnOk result (self.new ≡ self.old ++ name.now ∷ []) }
        ensures number { IfOk result (λ n. n ≡ length self.old) }
        ensures err { OnErr result (self.new ≡ self.old) }
    {
        self.settle()?;
        self.make_slots()?;
        self.recent.reserve(1)?;
        let at = place(&self.recent, &self.names, 0, self.recent.len(), print, name);
        let number = self.names.count();
        self.names.push(name)?;
        let key = Key { print, number };
        self.recent.insert(at, key).unwrap();
        self.slots.put(key);
        Ok(number)
    }

    /// Whether each name of another book is in this one, with the number that it has there.
    pub fn begins_with(&self, other: &NameBook) -> bool
        ensures { IsTrue result → take (length other.now) self.now ≡ other.now }
    {
        self.names.begin_with(&other.names)
    }

    /// All names are different.
    pub fn differ(&self)
        ensures { AllDiffer self.now }
    {
        let _ = &self.names;
    }
}
