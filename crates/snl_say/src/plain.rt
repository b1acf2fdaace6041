//! Whether bytes are themselves in a string of JSON. Nearly all are, so many are looked at at once.
//! In: bytes. Out: whether each is itself. Knows nothing of what is written where one is not.

ghost use Rattle.std.specs.Prelude.{◌≡◌, ◌+◌, ◌≤◌, length};
ghost use Rattle.std.specs.Bool.{OnTrue};
ghost use Rattle.json.specs.Print.{escape};
ghost use Rattle.json.specs.Written.{PlainBetween};

use std::simd::prelude::*;

#[inline(always)]
fn plain_8(bytes: &[u8], at: usize) -> bool
    requires { at + 8 ≤ length bytes.now }
    ensures { OnTrue result (PlainBetween bytes.now at (at + 8)) }
{
    let few = u8x8::from_slice(&bytes[at..]);
    (few.simd_eq(u8x8::splat(b'"'))
        | few.simd_eq(u8x8::splat(b'\\'))
        | few.simd_lt(u8x8::splat(b' '))).to_bitmask()
        == 0
}

#[inline(always)]
fn plain_16(bytes: &[u8], at: usize) -> bool
    requires { at + 16 ≤ length bytes.now }
    ensures { OnTrue result (PlainBetween bytes.now at (at + 16)) }
{
    let some = u8x16::from_slice(&bytes[at..]);
    (some.simd_eq(u8x16::splat(b'"'))
        | some.simd_eq(u8x16::splat(b'\\'))
        | some.simd_lt(u8x16::splat(b' '))).to_bitmask()
        == 0
}

/// Two loads that overlap.
fn plain_some(bytes: &[u8]) -> bool
    requires { (8 ≤ length bytes.now) × (length bytes.now ≤ 16) }
    ensures { OnTrue result (PlainBetween bytes.now 0 (length bytes.now)) }
{
    plain_8(bytes, 0) && plain_8(bytes, bytes.len() - 8)
}

fn plain_few(bytes: &[u8]) -> bool
    ensures { OnTrue result (PlainBetween bytes.now 0 (length bytes.now)) }
{
    for &byte in bytes {
        if byte == b'"' || byte == b'\\' || byte < b' ' {
            return false;
        }
    }
    true
}

fn plain_many(bytes: &[u8]) -> bool
    requires { 16 ≤ length bytes.now }
    ensures { OnTrue result (PlainBetween bytes.now 0 (length bytes.now)) }
{
    let mut at = 0;
    while bytes.len() - at > 16 {
        if !plain_16(bytes, at) {
            return false;
        }
        at += 16;
    }
    plain_16(bytes, bytes.len() - 16)
}

/// Whether all bytes are themselves in a string: none is `"`, `\` or below 32.
pub fn is_plain(bytes: &[u8]) -> bool
    ensures { OnTrue result (escape bytes.now ≡ bytes.now) }
{
    let length = bytes.len();
    if length >= 16 {
        plain_many(bytes)
    } else if length >= 8 {
        plain_some(bytes)
    } else {
        plain_few(bytes)
    }
}
