//! Values in an order, under keys that stay: a part of them is replaced, and no other moves. It
//! knows nothing of what they are.

ghost use Rattle.std.specs.Prelude.{◌≡◌, ℕ, ◌+◌, ◌-◌, ◌^◌, ◌<◌, ◌≤◌, ◌++◌, [], IfOk, OnOk, length, take, drop, vec_len, vec_capacity, slice_get, slice_set};
ghost use Rattle.std.specs.Option.{option_copied};
ghost use Rattle.slab.specs.Slab.{ContainsKey, HasRoomFor, with_value};
ghost use Rattle.snl_lists.specs.Keyed.{IsKeyed, KeepsOthers, Stores, Turned};

use slab::Slab;
use std::alloc::{AllocError, Global};
use std::marker::Model;

/// Values in an order, each under a key that it keeps. Contracts see the list of them, and how many
/// more there is room for.
#[derive(Drop)]
pub struct Ordered<T> {
    kept: Slab<T>,
    keys: Vec<usize>,
}

impl<T> Model for Ordered<T> {
    ghost use Rattle.std.specs.Prelude.{◌-◌, min, vec_len, vec_capacity};
    ghost use Rattle.slab.specs.Slab.{slab_len};
    ghost use Rattle.snl_lists.specs.Keyed.{IsKeyed, Row, row_code, values_of};

    ghost Value = { Row T };

    ghost coded = { row_code T.code };

    ghost view = { λ s. record {
      values = values_of s.kept s.keys.items;
      room = min (s.kept.capacity - slab_len s.kept) (vec_capacity s.keys - vec_len s.keys);
    } };

    ghost invariant = { λ s. IsKeyed s.kept s.keys.items };
}

// Takes the values under these keys away. Each other key keeps its value.
fn remove_all<T: Drop>(kept: &mut Slab<T>, keys: &[usize])
    ensures others { KeepsOthers kept.old kept.new keys.now }
{
    for key in keys {
        let _ = kept.try_remove(*key);
    }
}

// Stores these values under keys that were vacant, and lists the keys after the others. No memory
// is asked for.
fn store_all<T: Drop>(kept: &mut Slab<T>, keys: &mut Vec<usize>, items: Vec<T>)
    requires keyed { IsKeyed kept.old keys.old.items }
    requires room { 0 < vec_len items → HasRoomFor kept.old (vec_len items) }
    requires listed { vec_len keys.old + vec_len items ≤ vec_capacity keys.old }
    ensures stores { Stores kept.old kept.new keys.old.items keys.new.items items.items }
{
    for item in items {
        let key = kept.insert_reserved(item);
        keys.push(key).unwrap();
    }
}

// Takes the keys from `start` up to `stop` away.
fn remove(keys: &mut Vec<usize>, start: usize, stop: usize)
    requires range { start ≤ stop }
    requires within { stop ≤ vec_len keys.old }
    ensures items { keys.new.items ≡ take start keys.old.items ++ drop stop keys.old.items }
    ensures len { vec_len keys.new + (stop - start) ≡ vec_len keys.old }
{
    let len = keys.len();
    keys[start..].rotate_left(stop - start);
    keys.truncate(len - (stop - start));
}

// Puts so many keys, from `start` on, after all others.
fn put_after(keys: &mut Vec<usize>, start: usize, count: usize)
    requires { start + count ≤ vec_len keys.old }
    ensures { keys.new.items ≡ take start keys.old.items ++ (drop count (drop start keys.old.items) ++ take count (drop start keys.old.items)) }
{
    keys[start..].rotate_left(count);
}

// Puts what is from `after` on in the place of what is from `start` up to `stop`.
fn turn(keys: &mut Vec<usize>, start: usize, stop: usize, after: usize)
    requires range { start ≤ stop }
    requires within { stop ≤ after }
    requires inside { after ≤ vec_len keys.old }
    ensures { keys.new.items ≡ take start keys.old.items ++ (drop after keys.old.items ++ take (after - stop) (drop stop keys.old.items)) }
{
    remove(keys, start, stop);
    put_after(keys, start, after - stop);
}

// Puts other values in the place of those whose keys are from `start` up to `stop`.
fn replace_in<T: Drop>(
    kept: &mut Slab<T>,
    keys: &mut Vec<usize>,
    start: usize,
    stop: usize,
    items: Vec<T>,
)
    requires keyed { IsKeyed kept.old keys.old.items }
    requires range { start ≤ stop }
    requires within { stop ≤ vec_len keys.old }
    requires room { 0 < vec_len items → HasRoomFor kept.old (vec_len items) }
    requires listed { vec_len keys.old + vec_len items ≤ vec_capacity keys.old }
    ensures turned { Turned kept.old kept.new keys.old.items keys.new.items items.items start stop }
{
    let after = keys.len();
    store_all(kept, keys, items);
    remove_all(kept, &keys[start..stop]);
    turn(keys, start, stop, after);
}

// Puts another value under a key that has one.
fn write<T: Drop>(kept: &mut Slab<T>, key: usize, value: T)
    requires { ContainsKey kept.old key }
    ensures { kept.new ≡ with_value kept.old key value }
{
    if let Some(slot) = kept.get_mut(key) {
        *slot = value;
    }
}

impl<T> Ordered<T> {
    pub fn new(alloc: Global) -> Ordered<T>
        ensures { result.values ≡ [] }
    {
        Ordered {
            kept: Slab::new(alloc),
            keys: Vec::new(alloc),
        }
    }

    pub fn len(&self) -> usize
        ensures { result ≡ length self.now.values }
    {
        self.keys.len()
    }

    pub fn get(&self, number: usize) -> Option<&T>
        ensures { option_copied result ≡ slice_get self.now.values number }
    {
        if number < self.keys.len() {
            let key = self.keys[number];
            self.kept.get(key)
        } else {
            None
        }
    }

    /// Makes room for so many values more.
    pub fn reserve(&mut self, more: usize) -> Result<(), AllocError>
        ensures values { self.new.values ≡ self.old.values }
        ensures room { OnOk result (more ≤ self.new.room) }
    {
        self.kept.reserve(more)?;
        self.keys.reserve(more)
    }
}

impl<T: Drop> Ordered<T> {
    /// Puts other values in the place of those from `start` up to `stop`. There is room for them,
    /// so it cannot fail.
    pub fn replace(&mut self, start: usize, stop: usize, items: Vec<T>)
        requires range { start ≤ stop }
        requires within { stop ≤ length self.old.values }
        requires room { vec_len items ≤ self.old.room }
        ensures { self.new.values ≡ take start self.old.values ++ (items.items ++ drop stop self.old.values) }
    {
        replace_in(&mut self.kept, &mut self.keys, start, stop, items);
    }

    /// Puts another value in the place of the one with this number. No memory is asked for.
    pub fn set(&mut self, number: usize, value: T)
        requires { number < length self.old.values }
        ensures values { self.new.values ≡ slice_set self.old.values number value }
        ensures room { self.new.room ≡ self.old.room }
    {
        write(&mut self.kept, self.keys[number], value);
    }
}
