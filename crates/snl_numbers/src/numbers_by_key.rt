//! A table of numbers by keys.

ghost use Rattle.std.specs.Prelude.{◌≡◌, ◌++◌, [], IfOk, Some, false, true, if◌then◌else◌, is_some, map};
ghost use Rattle.std.specs.Map.{lookup};

use crate::keys::Keys;
use indexmap::IndexMap;
use snl_cut::OutOfMemory;
use std::alloc::Global;
use std::collections::BTreeMap;
use std::hash::Hash;
use std::marker::Model;

/// So many keys take little time however they are chosen, be it that all have one hash.
const FEW: usize = 2048;

/// Numbers by different keys. Contracts see the list of the pairs of a key and its number. The first
/// few are in a hash table, in the order in which they came, and those after them in an ordered one.
pub struct NumbersByKey<K: Ord + Hash> {
    few: IndexMap<K, usize>,
    more: BTreeMap<K, usize>,
}

// By hand, so that whoever holds numbers need not know how they are held to let them go.
impl<K: Ord + Hash + Drop> Drop for NumbersByKey<K> {
    fn drop(self) {
        let NumbersByKey { few: _, more: _ } = self;
    }
}

impl<K: Ord + Hash> Model for NumbersByKey<K> {
    ghost use Rattle.std.specs.Prelude.{ℕ, List, ◌++◌};

    ghost Value = { List (K × ℕ) };

    ghost view = { λ a. a.few.entries ++ a.more.entries };
}

// Adds the number of the first that came with a key to the hash table, and tells whether one came
// before, which then stays the first. A new key, as nearly all are, takes one look-up.
fn add_to_few<K: Ord + Hash + Copy>(
    few: &mut IndexMap<K, usize>,
    key: K,
    number: usize,
) -> Result<bool, OutOfMemory>
    ensures seen { IfOk result (λ seen. seen ≡ is_some (lookup (K.eq key) few.old.entries)) }
    ensures stays { IfOk result (λ seen. seen ≡ true → few.new.entries ≡ few.old.entries) }
    ensures put { IfOk result (λ seen. seen ≡ false → (q : K) →
        lookup (K.eq q) few.new.entries ≡ (if K.eq key q then Some number
        else lookup (K.eq q) few.old.entries)) }
{
    match few.insert(key, number)? {
        None => Ok(false),
        Some(earlier) => {
            few.insert(key, earlier)?;
            Ok(true)
        }
    }
}

// The number of a key in the ordered table. A key that isn't there mostly comes after all that are:
// the last one tells so.
fn number_among<K: Ord>(more: &BTreeMap<K, usize>, key: &K) -> Option<usize>
    ensures { result ≡ lookup (K.eq key.now) more.now.entries }
{
    let (last, _) = more.last_key_value()?;
    if last.cmp(key).is_lt() {
        return None;
    }
    more.get(key).copied()
}

impl<K: Ord + Hash> NumbersByKey<K> {
    /// No numbers.
    pub fn new(alloc: Global) -> NumbersByKey<K>
        ensures { result ≡ [] }
    {
        NumbersByKey {
            few: IndexMap::new(alloc),
            more: BTreeMap::new(alloc),
        }
    }

    /// No numbers, with room for those of so many keys, or of the first few of them.
    pub fn with_capacity(alloc: Global, room: usize) -> Result<NumbersByKey<K>, OutOfMemory>
        ensures { IfOk result (λ numbers. numbers ≡ []) }
    {
        Ok(NumbersByKey {
            few: IndexMap::with_capacity(alloc, room.min(FEW))?,
            more: BTreeMap::new(alloc),
        })
    }

    /// The number of a key.
    pub fn get(&self, key: &K) -> Option<usize>
        ensures { result ≡ lookup (K.eq key.now) self.now }
    {
        let found = self.few.get(key).copied();
        if found.is_some() {
            return found;
        }
        number_among(&self.more, key)
    }

    /// The keys, one after another.
    pub fn keys(&self) -> Keys<'_, K>
        ensures { result ≡ map (λ e. e.0) self.now }
    {
        Keys {
            few: self.few.keys(),
            more: self.more.keys(),
        }
    }
}

impl<K: Ord + Hash + Copy> NumbersByKey<K> {
    /// Adds the number of the first that came with a key, and tells whether one came before, which
    /// then stays the first.
    pub fn add_first(&mut self, key: K, number: usize) -> Result<bool, OutOfMemory>
        ensures seen { IfOk result (λ seen. seen ≡ is_some (lookup (K.eq key) self.old)) }
        ensures stays { IfOk result (λ seen. seen ≡ true → self.new ≡ self.old) }
        ensures put { IfOk result (λ seen. seen ≡ false → (q : K) →
            lookup (K.eq q) self.new ≡ (if K.eq key q then Some number
            else lookup (K.eq q) self.old)) }
    {
        if self.few.len() < FEW && self.more.is_empty() {
            return add_to_few(&mut self.few, key, number);
        }
        if self.get(&key).is_some() {
            return Ok(true);
        }
        self.more.insert(key, number)?;
        Ok(false)
    }
}
