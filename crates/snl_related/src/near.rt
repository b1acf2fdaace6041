//! How near one name is to another.

ghost use Rattle.std.specs.Prelude.{◌≡◌, IfOk, MatchOption, false, true};
ghost use Rattle.std.specs.Str.{is_utf8};
ghost use Rattle.snl_related.specs.Near.{is_about_as_long, is_measured, measured, near_distance, reach};
ghost use Rattle.snl_related.specs.Near.{within};

use snl_cut::OutOfMemory;
use std::alloc::Global;
use strsim::osa_distance;

/// A name of fewer bytes has no near ones, nor has one of more.
const SHORTEST: usize = 3;

const LONGEST: usize = 64;

/// Whether near names are sought of this one.
pub fn is_measured(name: &[u8]) -> bool
    ensures { result ≡ is_measured name.now }
{
    SHORTEST <= name.len() && name.len() <= LONGEST
}

// How far from a name a near one is at most.
fn reach(name: &[u8]) -> usize
    ensures { result ≡ reach name.now }
{
    if name.len() <= 4 { 1 } else { 2 }
}

fn is_about_as_long(name: &[u8], other: &[u8]) -> bool
    ensures { result ≡ is_about_as_long name.now other.now }
{
    let reach = reach(name);
    other.len().saturating_sub(name.len()) <= reach
        && name.len().saturating_sub(other.len()) <= reach
}

// The bytes as text, where they are UTF-8.
fn text_of(bytes: &[u8]) -> Option<&str>
    ensures { MatchOption result (is_utf8 bytes.now ≡ false)
        (λ text. (text.now ≡ bytes.now) × (is_utf8 bytes.now ≡ true)) }
{
    match str::from_utf8(bytes) {
        Ok(text) => Some(text),
        Err(_) => None,
    }
}

// How far from each other two names are.
fn measured(alloc: Global, name: &[u8], other: &[u8]) -> Result<Option<usize>, OutOfMemory>
    ensures { IfOk result (λ d. d ≡ measured name.now other.now) }
{
    let Some(name) = text_of(name) else {
        return Ok(None);
    };
    let Some(other) = text_of(other) else {
        return Ok(None);
    };
    Ok(Some(osa_distance(alloc, name, other)?))
}

// No name is near itself.
fn within(most: usize, distance: usize) -> Option<usize>
    ensures { result ≡ within most distance }
{
    if 0 < distance && distance <= most {
        Some(distance)
    } else {
        None
    }
}

/// The distance of a name that is near another one: at most 1 where that has 4 bytes, and else at
/// most 2. A byte more, a byte less, another byte, and two neighbours the other way round count one
/// each.
pub fn near_distance(alloc: Global, name: &[u8], other: &[u8]) -> Result<Option<usize>, OutOfMemory>
    ensures { IfOk result (λ d. d ≡ near_distance name.now other.now) }
{
    if !is_about_as_long(name, other) {
        return Ok(None);
    }
    let Some(distance) = measured(alloc, name, other)? else {
        return Ok(None);
    };
    Ok(within(reach(name), distance))
}
