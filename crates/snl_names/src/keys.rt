//! Keys by which names are found, by halving.

ghost use Rattle.std.specs.Prelude.{IsTrue, ◌≡◌, ◌≤◌, [], get_or, length};
ghost use Rattle.std.specs.List.Sorted.{IsNonDecreasingBy};
ghost use Rattle.snl_names.specs.Keys.{AllBefore, AllLess, AreKeys, IsFound, IsKey, NoneBefore, NoneLess, comes_before, print_in};
ghost use Rattle.snl_names.specs.Prints.{print_of};

use crate::spellings::Spellings;
use snl_facts::are_same_bytes;

/// The print of a name, and its number.
#[derive(Clone, Copy)]
pub(crate) struct Key {
    pub(crate) print: u64,
    pub(crate) number: usize,
}

// Whether the name of a key comes before this one, which has this print.
fn is_before(key: Key, names: &Spellings, print: u64, name: &[u8]) -> bool
    requires key { IsKey names.now key }
    requires print { print ≡ print_of name.now }
    ensures { result ≡ comes_before (get_or names.now key.number []) name.now }
{
    if key.print == print {
        names.get(key.number).cmp(&name).is_lt()
    } else {
        key.print < print
    }
}

/// The place that a name has among keys: names before it come before the name, and names from it on
/// do not. It is known to be one from `from` up to `to`.
pub(crate) fn place(
    keys: &[Key],
    names: &Spellings,
    from: usize,
    to: usize,
    print: u64,
    name: &[u8],
) -> usize
    requires keys { AreKeys names.now keys.now }
    requires print { print ≡ print_of name.now }
    requires range { from ≤ to }
    requires within { to ≤ length keys.now }
    requires rest { NoneBefore names.now keys.now name.now to (length keys.now) }
    ensures from { from ≤ result }
    ensures within { result ≤ length keys.now }
    ensures before { AllBefore names.now keys.now name.now from result }
    ensures rest { NoneBefore names.now keys.now name.now result (length keys.now) }
{
    let mut low = from;
    let mut high = to;
    while low < high {
        let middle = low + (high - low) / 2;
        if is_before(keys[middle], names, print, name) {
            low = middle + 1;
        } else {
            high = middle;
        }
    }
    low
}

// A place that no name from it on comes before this one, sought in steps that double: it is at most
// about twice as far from `from` as the name's place.
fn reach(keys: &[Key], names: &Spellings, from: usize, print: u64, name: &[u8]) -> usize
    requires keys { AreKeys names.now keys.now }
    requires print { print ≡ print_of name.now }
    requires from { from ≤ length keys.now }
    ensures from { from ≤ result }
    ensures within { result ≤ length keys.now }
    ensures rest { NoneBefore names.now keys.now name.now result (length keys.now) }
{
    let mut to = from;
    while to < keys.len() && is_before(keys[to], names, print, name) {
        to += (to - from + 1).min(keys.len() - to);
    }
    to
}

/// The place that a name has among keys from `from` on. It takes few steps if it is near.
pub(crate) fn place_from(
    keys: &[Key],
    names: &Spellings,
    from: usize,
    print: u64,
    name: &[u8],
) -> usize
    requires keys { AreKeys names.now keys.now }
    requires print { print ≡ print_of name.now }
    requires from { from ≤ length keys.now }
    ensures from { from ≤ result }
    ensures within { result ≤ length keys.now }
    ensures before { AllBefore names.now keys.now name.now from result }
    ensures rest { NoneBefore names.now keys.now name.now result (length keys.now) }
{
    let to = reach(keys, names, from, print, name);
    place(keys, names, from, to, print, name)
}

// The place of the first key that has this print or a greater one.
fn first_of_print(keys: &[Key], print: u64) -> usize
    requires { IsNonDecreasingBy print_in keys.now }
    ensures within { result ≤ length keys.now }
    ensures before { AllLess keys.now print 0 result }
    ensures rest { NoneLess keys.now print result (length keys.now) }
{
    let mut low = 0;
    let mut high = keys.len();
    while low < high {
        let middle = low + (high - low) / 2;
        if keys[middle].print < print {
            low = middle + 1;
        } else {
            high = middle;
        }
    }
    low
}

// The number of a name among keys, where the first key with its print has another name.
#[cold]
#[inline(never)]
fn number_of_shared_print(
    keys: &[Key],
    names: &Spellings,
    from: usize,
    print: u64,
    name: &[u8],
) -> Option<usize>
    requires keys { AreKeys names.now keys.now }
    requires print { print ≡ print_of name.now }
    requires from { from ≤ length keys.now }
    requires before { AllLess keys.now print 0 from }
    ensures { IsFound names.now keys.now name.now result }
{
    let at = place(keys, names, from, keys.len(), print, name);
    if at == keys.len() {
        return None;
    }
    let number = keys[at].number;
    if names.get(number) == name {
        Some(number)
    } else {
        None
    }
}

/// The number of a name that has this print, if keys lead to it.
pub(crate) fn number_among(
    keys: &[Key],
    names: &Spellings,
    print: u64,
    name: &[u8],
) -> Option<usize>
    requires keys { AreKeys names.now keys.now }
    requires print { print ≡ print_of name.now }
    ensures { IsFound names.now keys.now name.now result }
{
    let first = first_of_print(keys, print);
    if first == keys.len() {
        return None;
    }
    let key = keys[first];
    if key.print != print {
        return None;
    }
    if are_same_bytes(names.get(key.number), name) {
        return Some(key.number);
    }
    number_of_shared_print(keys, names, first, print, name)
}
