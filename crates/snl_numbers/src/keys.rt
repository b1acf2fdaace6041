//! The keys of a table, one after another.

ghost use Rattle.std.specs.Prelude.{length};
ghost use Rattle.std.specs.Iterator.{at_most};
ghost use Rattle.std.specs.Map.Iter.{TakesFirst, deref};

use indexmap::map;
use std::collections::btree_map;
use std::marker::Model;

/// The keys of a table, one after another. Contracts see the list of those that are left.
pub struct Keys<'a, K> {
    pub(crate) few: map::Keys<'a, K, usize>,
    pub(crate) more: btree_map::Keys<'a, K, usize>,
}

// By hand, so that whoever goes over keys need not know how they are held to let them go.
impl<K> Drop for Keys<'_, K> {
    fn drop(self) {
        let Keys { few: _, more: _ } = self;
    }
}

impl<'a, K> Model for Keys<'a, K> {
    ghost use Rattle.std.specs.Prelude.{List, ◌++◌};

    ghost Value = { List K };

    ghost view = { λ a. a.few ++ a.more };
}

impl<'a, K> Iterator for Keys<'a, K> {
    type Item = &'a K;

    ghost next_gives = { TakesFirst deref };

    ghost remaining = { λ s. at_most (length s) };

    fn next(&mut self) -> Option<&'a K> {
        match self.few.next() {
            Some(key) => Some(key),
            None => self.more.next(),
        }
    }
}
