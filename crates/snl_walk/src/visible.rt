//! The names that are visible where a walk is, the nearest first.

ghost use Rattle.std.specs.Prelude.{◌≡◌, [], ◌∷◌, drop, OnOk};
ghost use Rattle.snl_walk.specs.Few.{nearest};
ghost use Rattle.snl_walk.specs.Scopes.{look_up};

use crate::occurrence::Local;
use crate::stack::Stack;
use snl_cut::OutOfMemory;
use snl_facts::are_same_bytes;
use std::alloc::Global;
use std::marker::Model;

/// So many declarations are looked through one by one, which takes less than to look a name up.
const FEW: usize = 8;

// A declaration and its name.
#[derive(Clone, Copy)]
struct FewName<'a> {
    name: &'a [u8],
    declared: Local,
}

/// Names with their declarations, the last one taken in first, which contracts see as that list.
/// The last declaration of a name that was taken in counts. The first few that were taken in are in
/// a list, and those after them in a stack with a book.
pub(crate) struct Visible<'a> {
    few: Vec<FewName<'a>>,
    more: Stack<'a>,
}

// By hand, so that whoever holds names need not know how they are held to let them go.
impl Drop for Visible<'_> {
    fn drop(self) {
        let Visible { few: _, more: _ } = self;
    }
}

impl<'a> Model for Visible<'a> {
    ghost use Rattle.std.specs.Prelude.{ℕ, List, ◌++◌};
    ghost use Rattle.snl_walk.specs.declared.occurrence.Local.{Local};
    ghost use Rattle.snl_walk.specs.Few.{nearest};

    ghost Value = { List (List ℕ × Local) };

    ghost view = { λ v. v.more ++ nearest v.few.items };
}

// What a name means by these declarations, of which the last one counts.
fn meant_by(few: &[FewName], name: &[u8]) -> Option<Local>
    ensures { result ≡ look_up name.now (nearest few.now) }
{
    let mut left = few.len();
    while left > 0 {
        left -= 1;
        let last = few[left];
        if are_same_bytes(name, last.name) {
            return Some(last.declared);
        }
    }
    None
}

impl<'a> Visible<'a> {
    pub(crate) fn new(alloc: Global) -> Visible<'a>
        ensures { result ≡ [] }
    {
        Visible {
            few: Vec::new(alloc),
            more: Stack::new(alloc),
        }
    }

    /// What a name means.
    pub(crate) fn get(&self, name: &[u8]) -> Option<Local>
        ensures { result ≡ look_up name.now self.now }
    {
        match self.more.get(name) {
            Some(declared) => Some(declared),
            None => meant_by(&self.few, name),
        }
    }

    /// Takes in a declaration before all others.
    pub(crate) fn push(&mut self, name: &'a [u8], declared: Local) -> Result<(), OutOfMemory>
        ensures { OnOk result (self.new ≡ (name.now, declared) ∷ self.old) }
    {
        if self.few.len() < FEW && self.more.is_empty() {
            self.few.push(FewName { name, declared })?;
            Ok(())
        } else {
            self.more.push(name, declared)
        }
    }

    // Lets go of the declaration that was taken in last.
    fn pop(&mut self)
        ensures { self.new ≡ drop 1 self.old }
    {
        if self.more.is_empty() {
            let _last = self.few.pop();
        } else {
            self.more.pop();
        }
    }

    /// Lets go of so many declarations, those that were taken in last.
    pub(crate) fn leave(&mut self, count: usize)
        ensures { self.new ≡ drop count self.old }
    {
        for _ in 0..count {
            self.pop();
        }
    }
}
