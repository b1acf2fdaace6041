//! Names that are kept once.

ghost use Rattle.std.specs.Prelude.{◌≡◌, [], IfOk, OnOk, bytes_eq, not};
ghost use Rattle.std.specs.List.{list_any};
ghost use Rattle.snl_walk.specs.Once.{with_new};

use snl_cut::OutOfMemory;
use snl_facts::are_same_bytes;
use snl_names::NameBook;
use std::alloc::Global;
use std::marker::Model;

/// So many names are looked through one by one, which takes less than to look one up in a book.
const FEW: usize = 8;

/// Different names, which contracts see as their list, in the order in which they came. The first
/// few are in a list, and those after them in a book.
pub struct NameSet<'a> {
    few: Vec<&'a [u8]>,
    more: NameBook,
}

// By hand, so that whoever holds names need not know how they are held to let them go.
impl Drop for NameSet<'_> {
    fn drop(self) {
        let NameSet { few: _, more: _ } = self;
    }
}

impl<'a> Model for NameSet<'a> {
    ghost use Rattle.std.specs.Prelude.{ℕ, List, ◌++◌, map};

    ghost Value = { List (List ℕ) };

    ghost view = { λ a. map (λ k. k.now) a.few.items ++ a.more };
}

// Whether a name is one of these.
fn is_among(names: &[&[u8]], name: &[u8]) -> bool
    ensures { result ≡ list_any (λ k. bytes_eq name.now k.now) names.now }
{
    names.iter().any(|known| are_same_bytes(name, known))
}

impl<'a> NameSet<'a> {
    pub fn new(alloc: Global) -> NameSet<'a>
        ensures { result ≡ [] }
    {
        NameSet {
            few: Vec::new(alloc),
            more: NameBook::new(alloc),
        }
    }

    /// Takes in a name, and says whether it is new.
    pub fn add(&mut self, name: &'a [u8]) -> Result<bool, OutOfMemory>
        ensures names { OnOk result (self.new ≡ with_new self.old name.now) }
        ensures added { IfOk result (λ added. added ≡ not (list_any (bytes_eq name.now) self.old)) }
    {
        if is_among(&self.few, name) {
            return Ok(false);
        }
        let known = self.more.count();
        if self.few.len() < FEW && known == 0 {
            self.few.push(name)?;
            return Ok(true);
        }
        self.more.add(name)?;
        Ok(self.more.count() > known)
    }

    /// Whether a name is among them.
    pub fn contains(&self, name: &[u8]) -> bool
        ensures { result ≡ list_any (bytes_eq name.now) self.now }
    {
        is_among(&self.few, name) || self.more.number(name).is_some()
    }
}
