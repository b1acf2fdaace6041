//! Declarations in a stack, with a book that finds the last one of a name.

ghost use Rattle.std.specs.Prelude.{◌≡◌, ◌==◌, [], ◌∷◌, ◌<◌, ◌≤◌, None, drop, get_or, length, OnOk, vec_capacity, vec_len};
ghost use Rattle.snl_walk.specs.Scopes.{look_up};
ghost use Rattle.snl_walk.specs.Stack.{put_at};

use crate::occurrence::Local;
use snl_cut::OutOfMemory;
use snl_names::NameBook;
use std::alloc::Global;
use std::marker::Model;

// A declaration, and what its name meant before it was taken in.
#[derive(Drop)]
struct VisibleName<'a> {
    name: &'a [u8],
    declared: Local,
    earlier: Option<Local>,
}

/// Names with their declarations, the last one taken in first, which contracts see as that list.
/// The last declaration of a name that was taken in counts: its name is found in a book, whatever
/// names there are, and what it means by its number.
pub(crate) struct Stack<'a> {
    entries: Vec<VisibleName<'a>>,
    names: NameBook,
    // what each name of the book means
    meanings: Vec<Option<Local>>,
}

// By hand, so that whoever holds names need not know how they are held to let them go.
impl Drop for Stack<'_> {
    fn drop(self) {
        let Stack {
            entries: _,
            names: _,
            meanings: _,
        } = self;
    }
}

impl<'a> Model for Stack<'a> {
    ghost use Rattle.std.specs.Prelude.{ℕ, List};
    ghost use Rattle.snl_walk.specs.declared.occurrence.Local.{Local};
    ghost use Rattle.snl_walk.specs.Stack.{IsStacked, newest_first};

    ghost Value = { List (List ℕ × Local) };

    ghost view = { λ v. newest_first v.entries.items };

    ghost invariant = { λ v. IsStacked v.entries.items v.names v.meanings.items };
}

// Makes the name with a number mean this. There is room for a new one. What it meant goes out.
fn put_meaning(
    meanings: &mut Vec<Option<Local>>,
    number: usize,
    meaning: Option<Local>,
) -> Option<Local>
    requires known { number ≤ length meanings.old.items }
    requires room { vec_len meanings.old < vec_capacity meanings.old }
    ensures meanings { meanings.new.items ≡ put_at number meaning meanings.old.items }
    ensures earlier { result ≡ get_or meanings.old.items number None }
{
    if number < meanings.len() {
        let earlier = meanings[number];
        meanings[number] = meaning;
        earlier
    } else {
        meanings.push_reserved(meaning);
        None
    }
}

impl<'a> Stack<'a> {
    pub(crate) fn new(alloc: Global) -> Stack<'a>
        ensures { result ≡ [] }
    {
        Stack {
            entries: Vec::new(alloc),
            names: NameBook::new(alloc),
            meanings: Vec::new(alloc),
        }
    }

    pub(crate) fn is_empty(&self) -> bool
        ensures { result ≡ (length self.now == 0) }
    {
        self.entries.is_empty()
    }

    /// What a name means.
    pub(crate) fn get(&self, name: &[u8]) -> Option<Local>
        ensures { result ≡ look_up name.now self.now }
    {
        // Most items declare little, and then no name needs to be looked up.
        if self.entries.is_empty() {
            return None;
        }
        let number = self.names.number(name)?;
        self.meanings[number]
    }

    /// Takes in a declaration before all others.
    pub(crate) fn push(&mut self, name: &'a [u8], declared: Local) -> Result<(), OutOfMemory>
        ensures { OnOk result (self.new ≡ (name.now, declared) ∷ self.old) }
    {
        self.entries.reserve(1)?;
        self.meanings.reserve(1)?;
        let number = self.names.add(name)?;
        let earlier = put_meaning(&mut self.meanings, number, Some(declared));
        self.entries.push_reserved(VisibleName {
            name,
            declared,
            earlier,
        });
        Ok(())
    }

    /// Lets go of the declaration that was taken in last.
    pub(crate) fn pop(&mut self)
        ensures { self.new ≡ drop 1 self.old }
    {
        if let Some(last) = self.entries.pop() {
            // The book keeps the name, though it may mean nothing now.
            if let Some(number) = self.names.number(last.name) {
                self.meanings[number] = last.earlier;
            }
        }
    }
}
