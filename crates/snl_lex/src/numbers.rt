//! Numbers: how far they reach, their values, and their classes.
//! In: bytes. Out: where a number run ends; the value of an Int; the class of a run.
//! It knows nothing of what follows a run.

ghost use Rattle.snl_lex.specs.Alphabet.{is_digit_in, is_word_byte};
ghost use Rattle.snl_lex.specs.Numbers.{base_of, checked_value, digit_value, dots_in, is_exponent, is_float, is_float_suffix, is_int_suffix, is_power, is_power_part, is_sign, lone_suffixes, long_suffixes, number_class, number_joins, radix, short_suffixes, sign_length, int_value_of, value_after, value_in};
ghost use Rattle.snl_lex.specs.Runs.{run_by};
ghost use Rattle.std.specs.List.{list_any};
ghost use Rattle.std.specs.Prelude.{◌≡◌, ◌==◌, ◌+◌, ◌<◌, ◌≤◌, ◌&&◌, ◌||◌, ◌++◌, drop, length, take};
ghost use Rattle.std.specs.Str.{bytes_eq};

use crate::alphabet::{NumberBase, Set, after, byte_at, is_digit, is_plain, is_word_byte, run_end};
use crate::piece::Class;

#[tactic(auto, unfolding(crate::specs::Numbers::is_sign))]
fn is_sign(byte: u8) -> bool
    ensures { result ≡ is_sign byte }
{
    byte == b'+' || byte == b'-'
}

#[tactic(auto, unfolding(crate::specs::Numbers::is_power))]
fn is_power(byte: u8) -> bool
    ensures { result ≡ is_power byte }
{
    byte == b'e' || byte == b'E'
}

/// Where the number run ends that the bytes begin with.
pub fn number_end(bytes: &[u8]) -> usize
    requires { 0 < length bytes.now }
    ensures end { result ≡ 1 + run_by number_joins (take 1 bytes.now) (drop 1 bytes.now) }
    ensures inside { result ≤ length bytes.now }
{
    let mut plain = is_plain(bytes[0]);
    let mut awaits_sign = is_power(bytes[0]);
    let mut end = 1;
    while end < bytes.len() && joins(bytes[end], awaits_sign) {
        awaits_sign = is_power(bytes[end]) & plain;
        plain = is_plain(bytes[end]) & plain;
        end += 1;
    }
    end
}

// Whether a number run goes on with the byte.
fn joins(byte: u8, awaits_sign: bool) -> bool
    ensures { result ≡ (is_word_byte byte || byte == 46 || (is_sign byte && awaits_sign)) }
{
    is_word_byte(byte) || byte == b'.' || (is_sign(byte) && awaits_sign)
}

fn radix(base: NumberBase) -> u64
    ensures { result ≡ radix base }
{
    match base {
        NumberBase::Octal => 8,
        NumberBase::Decimal => 10,
        NumberBase::Hexadecimal => 16,
    }
}

#[tactic(auto, unfolding(crate::specs::Numbers::digit_value, crate::specs::Alphabet::is_digit))]
fn digit_value(digit: u8) -> u64
    ensures value { result ≡ digit_value digit }
    ensures small { result < 256 }
{
    if is_digit(digit) {
        (digit - b'0') as u64
    } else if digit >= b'a' {
        (digit - b'a') as u64 + 10
    } else {
        digit.saturating_sub(b'A' - 10) as u64
    }
}

/// The value of digits, if it is at most 2^64 - 1.
pub fn value_of(digits: &[u8], base: NumberBase) -> Option<u64>
    ensures { result ≡ checked_value (value_after base 0 digits.now) }
{
    let mut value: u64 = 0;
    for digit in digits {
        value = value
            .checked_mul(radix(base))?
            .checked_add(digit_value(*digit))?;
    }
    Some(value)
}

// Nothing, a `u`, or one `l` or two. One `match` over all suffixes takes half a minute to prove,
// one over each of these three parts a few seconds.
fn is_lone_suffix(bytes: &[u8]) -> bool
    ensures { result ≡ list_any (bytes_eq bytes.now) lone_suffixes }
{
    matches!(bytes, b"" | b"u" | b"U" | b"l" | b"L" | b"ll" | b"LL")
}

// A `u` and one `l`.
fn is_short_suffix(bytes: &[u8]) -> bool
    ensures { result ≡ list_any (bytes_eq bytes.now) short_suffixes }
{
    matches!(
        bytes,
        b"ul" | b"uL" | b"Ul" | b"UL" | b"lu" | b"lU" | b"Lu" | b"LU"
    )
}

// A `u` and two `l`.
fn is_long_suffix(bytes: &[u8]) -> bool
    ensures { result ≡ list_any (bytes_eq bytes.now) long_suffixes }
{
    matches!(
        bytes,
        b"ull" | b"uLL" | b"Ull" | b"ULL" | b"llu" | b"llU" | b"LLu" | b"LLU"
    )
}

// A `u` and one `l` or two.
fn is_mixed_suffix(bytes: &[u8]) -> bool
    ensures { result ≡ list_any (bytes_eq bytes.now) (short_suffixes ++ long_suffixes) }
{
    is_short_suffix(bytes) || is_long_suffix(bytes)
}

fn is_int_suffix(bytes: &[u8]) -> bool
    ensures { result ≡ is_int_suffix bytes.now }
{
    is_lone_suffix(bytes) || is_mixed_suffix(bytes)
}

#[tactic(auto, unfolding(crate::specs::Numbers::value_in))]
fn value_in(base: NumberBase, bytes: &[u8]) -> Option<u64>
    ensures { result ≡ value_in base bytes.now }
{
    let count = run_end(bytes, 0, Set::Digits(base));
    if count > 0 && is_int_suffix(&bytes[count..]) {
        value_of(&bytes[..count], base)
    } else {
        None
    }
}

#[tactic(auto, unfolding(crate::specs::Numbers::base_of))]
fn base_of(bytes: &[u8]) -> NumberBase
    ensures { result ≡ base_of bytes.now }
{
    if byte_at(bytes, 0) != b'0' {
        NumberBase::Decimal
    } else if matches!(byte_at(bytes, 1), b'x' | b'X') {
        NumberBase::Hexadecimal
    } else {
        NumberBase::Octal
    }
}

/// The value of an Int: decimal, octal or hexadecimal digits, with an optional suffix, of at most
/// 2^64 - 1. None for all other bytes.
///
/// Numbers are those of the SNL reference of the EPICS sequencer 2.2 manual; that `u` and `l` or
/// `ll` may come in either order is this project's profile.
#[tactic(auto, unfolding(crate::specs::Numbers::int_value_of))]
pub fn int_value(bytes: &[u8]) -> Option<u64>
    ensures { result ≡ int_value_of bytes.now }
{
    match base_of(bytes) {
        NumberBase::Octal => value_in(NumberBase::Octal, bytes),
        NumberBase::Decimal => value_in(NumberBase::Decimal, bytes),
        NumberBase::Hexadecimal => value_in(NumberBase::Hexadecimal, after(bytes, 2)),
    }
}

#[tactic(auto, unfolding(crate::specs::Numbers::is_float_suffix))]
fn is_float_suffix(bytes: &[u8]) -> bool
    ensures { result ≡ is_float_suffix bytes.now }
{
    matches!(bytes, b"" | b"f" | b"F" | b"l" | b"L")
}

fn sign_length(bytes: &[u8]) -> usize
    ensures { result ≡ sign_length bytes.now }
{
    if is_sign(byte_at(bytes, 0)) { 1 } else { 0 }
}

#[tactic(auto, unfolding(crate::specs::Numbers::is_exponent))]
fn is_exponent(bytes: &[u8]) -> bool
    ensures { result ≡ is_exponent bytes.now }
{
    let digits = after(bytes, sign_length(bytes));
    let count = run_end(digits, 0, Set::Digits(NumberBase::Decimal));
    count > 0 && is_float_suffix(&digits[count..])
}

#[tactic(auto, unfolding(crate::specs::Numbers::is_power_part))]
fn is_power_part(bytes: &[u8]) -> bool
    ensures { result ≡ is_power_part bytes.now }
{
    is_power(byte_at(bytes, 0)) && is_exponent(after(bytes, 1))
}

fn dots_in(bytes: &[u8]) -> usize
    ensures { result ≡ dots_in bytes.now }
{
    bytes.iter().filter(|byte| **byte == b'.').count()
}

#[tactic(auto, unfolding(crate::specs::Numbers::is_float))]
fn is_float(bytes: &[u8]) -> bool
    ensures { result ≡ is_float bytes.now }
{
    let count = run_end(bytes, 0, Set::Plains);
    let dots = dots_in(&bytes[..count]);
    let after = &bytes[count..];
    dots < count && ((dots == 1 && is_float_suffix(after)) || (dots <= 1 && is_power_part(after)))
}

/// The class that the bytes of a number run tell.
#[tactic(auto, unfolding(crate::specs::Numbers::number_class))]
pub fn number_class(bytes: &[u8]) -> Class
    ensures { result ≡ number_class bytes.now }
{
    if int_value(bytes).is_some() {
        Class::Int
    } else if is_float(bytes) {
        Class::Float
    } else {
        Class::Bad
    }
}
