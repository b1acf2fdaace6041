//! Bytes after bytes, and strings of JSON.
//! In: pieces, and the bytes of a string. Out: the same after the bytes that are there, a string
//! in quotes and escaped. Knows nothing of what they say.

ghost use Rattle.std.specs.Prelude.{◌≡◌, ◌+◌, ◌++◌, ◌∷◌, [], ◌<◌, ◌≤◌, ℕ, List, OnOk, drop, flat_map, length, take};
ghost use Rattle.std.specs.Char.{digit_char};
ghost use Rattle.std.specs.List.{prefix_len};
ghost use Rattle.json.specs.Print.{escape, escape_byte, escape_letter, quoted};
ghost use Rattle.json.specs.Run.{is_plain};

use crate::plain::is_plain;
use std::alloc::AllocError;

/// Pieces, one after another.
pub fn put_all(out: &mut Vec<u8>, pieces: &[&[u8]]) -> Result<(), AllocError>
    ensures { OnOk result (out.new.items ≡ out.old.items
        ++ flat_map (λ piece. piece.now) pieces.now) }
{
    for piece in pieces {
        out.extend_from_slice(piece)?;
    }
    Ok(())
}

/// The letter of a byte's short escape, or 0 where it has none.
fn escape_letter(byte: u8) -> u8
    ensures { result ≡ escape_letter byte }
{
    match byte {
        b'"' => b'"',
        b'\\' => b'\\',
        8 => b'b',
        12 => b'f',
        b'\n' => b'n',
        b'\r' => b'r',
        b'\t' => b't',
        _ => 0,
    }
}

fn hex_digit(digit: u8) -> u8
    requires { digit < 16 }
    ensures { result ≡ digit_char digit }
{
    if digit < 10 {
        b'0' + digit
    } else {
        b'a' + (digit - 10)
    }
}

/// A byte of a string.
#[tactic(auto, unfolding(json::specs::Print::escape_byte))]
fn put_byte(out: &mut Vec<u8>, byte: u8) -> Result<(), AllocError>
    ensures { OnOk result (out.new.items ≡ out.old.items ++ escape_byte byte) }
{
    let letter = escape_letter(byte);
    if letter > 0 {
        return out.extend_from_slice(&[b'\\', letter]);
    }
    if byte < 32 {
        let (high, low) = (hex_digit(byte / 16), hex_digit(byte % 16));
        return out.extend_from_slice(&[b'\\', b'u', b'0', b'0', high, low]);
    }
    out.extend_from_slice(&[byte])
}

/// Where the bytes from `start` on that are themselves in a string end: all but `"`, `\` and those
/// below 32, so UTF-8 stays as it is.
fn plain_end(bytes: &[u8], start: usize) -> usize
    requires { start ≤ length bytes.now }
    ensures end { result ≡ start + prefix_len is_plain (drop start bytes.now) }
    ensures inside { result ≤ length bytes.now }
{
    let mut end = start;
    while end < bytes.len() && bytes[end] != b'"' && bytes[end] != b'\\' && bytes[end] >= 32 {
        end += 1;
    }
    end
}

/// The bytes of a string of which one has an escape: those between two such are put at once.
#[cold]
#[inline(never)]
fn put_by_runs(out: &mut Vec<u8>, bytes: &[u8]) -> Result<(), AllocError>
    ensures { OnOk result (out.new.items ≡ out.old.items ++ escape bytes.now) }
{
    let mut start = 0;
    loop {
        let end = plain_end(bytes, start);
        out.extend_from_slice(&bytes[start..end])?;
        if end == bytes.len() {
            return Ok(());
        }
        put_byte(out, bytes[end])?;
        start = end + 1;
    }
}

/// The bytes of a string. Nearly none has an escape.
pub fn put_escaped(out: &mut Vec<u8>, bytes: &[u8]) -> Result<(), AllocError>
    ensures { OnOk result (out.new.items ≡ out.old.items ++ escape bytes.now) }
{
    if is_plain(bytes) {
        out.extend_from_slice(bytes)
    } else {
        put_by_runs(out, bytes)
    }
}

/// A string of JSON. An `Err`, of memory, may leave a front of the bytes.
pub fn put_quoted(out: &mut Vec<u8>, bytes: &[u8]) -> Result<(), AllocError>
    ensures { OnOk result (out.new.items ≡ out.old.items ++ quoted bytes.now) }
{
    out.extend_from_slice(b"\"")?;
    put_escaped(out, bytes)?;
    out.extend_from_slice(b"\"")?;
    Ok(())
}
