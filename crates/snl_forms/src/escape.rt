//! Bytes as the forms write them. What is no UTF-8 is written as `\x` and two digits.

ghost use Rattle.std.specs.Prelude.{◌≡◌, ◌<◌, ◌++◌, ◌∷◌, [], IfOk, OnOk, encode_utf8_all, flat_map, length};
ghost use Rattle.std.specs.Char.{digit_char};
ghost use Rattle.snl_forms.specs.Escapes.{byte_by, char_by, data_char, escaped, inside_after, is_plain};
ghost use Rattle.snl_forms.specs.Escapes.{json_char, percented, property_char, rest_of, two_digits, uri, uri_byte};
ghost use Rattle.snl_forms.specs.Escapes.{written_as, written_at};

use bstr::decode_utf8;
use std::alloc::AllocError;

/// Where bytes are written to.
#[derive(Clone, Copy, Debug, PartialEq, Eq)]
pub enum Escape {
    /// A string of JSON, between its quotes.
    Json,
    /// A property of an annotation.
    Property,
    /// The text of an annotation.
    Data,
}

fn hex_digit(digit: u8) -> u8
    requires { digit < 16 }
    ensures { result ≡ digit_char digit }
{
    if digit < 10 {
        b'0' + digit
    } else {
        b'a' + (digit - 10)
    }
}

fn two_digits(byte: u8) -> [u8; 2]
    ensures { result ≡ two_digits byte }
{
    [hex_digit(byte / 16), hex_digit(byte % 16)]
}

// `%` and two capital digits.
fn percented(byte: u8) -> [u8; 3]
    ensures { result ≡ percented byte }
{
    [
        b'%',
        hex_digit(byte / 16).to_ascii_uppercase(),
        hex_digit(byte % 16).to_ascii_uppercase(),
    ]
}

fn put_char(out: &mut Vec<u8>, c: char) -> Result<(), AllocError>
    ensures { OnOk result (out.new.items ≡ out.old.items ++ encode_utf8_all (c ∷ [])) }
{
    let mut buffer = [0; 4];
    out.extend_from_slice(c.encode_utf8(&mut buffer).as_bytes())
}

fn put_json_char(out: &mut Vec<u8>, c: char) -> Result<(), AllocError>
    ensures { OnOk result (out.new.items ≡ out.old.items ++ json_char c) }
{
    match c {
        '"' => out.extend_from_slice(b"\\\""),
        '\\' => out.extend_from_slice(b"\\\\"),
        '\0'..='\u{1f}' => {
            out.extend_from_slice(b"\\u00")?;
            out.extend_from_slice(&two_digits(c as u8))
        }
        _ => put_char(out, c),
    }
}

fn put_data_char(out: &mut Vec<u8>, c: char) -> Result<(), AllocError>
    ensures { OnOk result (out.new.items ≡ out.old.items ++ data_char c) }
{
    match c {
        '%' | '\r' | '\n' => out.extend_from_slice(&percented(c as u8)),
        _ => put_char(out, c),
    }
}

fn put_property_char(out: &mut Vec<u8>, c: char) -> Result<(), AllocError>
    ensures { OnOk result (out.new.items ≡ out.old.items ++ property_char c) }
{
    match c {
        ':' | ',' => out.extend_from_slice(&percented(c as u8)),
        _ => put_data_char(out, c),
    }
}

fn put_escaped_char(out: &mut Vec<u8>, how: Escape, c: char) -> Result<(), AllocError>
    ensures { OnOk result (out.new.items ≡ out.old.items ++ char_by how c) }
{
    match how {
        Escape::Json => put_json_char(out, c),
        Escape::Property => put_property_char(out, c),
        Escape::Data => put_data_char(out, c),
    }
}

// A byte that is no UTF-8.
fn put_byte(out: &mut Vec<u8>, how: Escape, byte: u8) -> Result<(), AllocError>
    ensures { OnOk result (out.new.items ≡ out.old.items ++ byte_by how byte) }
{
    match how {
        Escape::Json => out.extend_from_slice(b"\\\\x")?,
        Escape::Property | Escape::Data => out.extend_from_slice(b"\\x")?,
    }
    out.extend_from_slice(&two_digits(byte))
}

fn put_as(
    out: &mut Vec<u8>,
    how: Escape,
    char: Option<char>,
    bytes: &[u8],
) -> Result<(), AllocError>
    requires { 0 < length bytes.now }
    ensures { OnOk result (out.new.items ≡ out.old.items ++ written_as how char bytes.now) }
{
    match char {
        Some(c) => put_escaped_char(out, how, c),
        None => put_byte(out, how, bytes[0]),
    }
}

// How many bytes after the first one belong to the same character.
fn rest_of(char: Option<char>, size: usize) -> usize
    ensures { result ≡ rest_of char size }
{
    match char {
        Some(_) => size.saturating_sub(1),
        None => 0,
    }
}

// What begins at the first of some bytes, if that isn't written already; and how many bytes after
// it are.
#[tactic(auto, unfolding(crate::specs::Escapes::written_at, crate::specs::Escapes::inside_after))]
fn put_at(out: &mut Vec<u8>, how: Escape, inside: usize, bytes: &[u8]) -> Result<usize, AllocError>
    requires { 0 < length bytes.now }
    ensures put { OnOk result (out.new.items
        ≡ out.old.items ++ written_at how inside bytes.now) }
    ensures inside { IfOk result (λ after. after ≡ inside_after inside bytes.now) }
{
    if inside > 0 {
        return Ok(inside - 1);
    }
    let (char, size) = decode_utf8(bytes);
    put_as(out, how, char, bytes)?;
    Ok(rest_of(char, size))
}

/// Puts bytes, escaped.
pub fn put_escaped(out: &mut Vec<u8>, how: Escape, bytes: &[u8]) -> Result<(), AllocError>
    ensures { OnOk result (out.new.items ≡ out.old.items ++ escaped how bytes.now) }
{
    let mut inside = 0;
    for at in 0..bytes.len() {
        inside = put_at(out, how, inside, &bytes[at..])?;
    }
    Ok(())
}

fn is_plain(byte: u8) -> bool
    ensures { result ≡ is_plain byte }
{
    matches!(
        byte,
        b'0'..=b'9' | b'A'..=b'Z' | b'a'..=b'z' | b'-' | b'.' | b'/' | b'_' | b'~'
    )
}

fn put_uri_byte(out: &mut Vec<u8>, byte: u8) -> Result<(), AllocError>
    ensures { OnOk result (out.new.items ≡ out.old.items ++ uri_byte byte) }
{
    if is_plain(byte) {
        out.extend_from_slice(&[byte])
    } else {
        out.extend_from_slice(&percented(byte))
    }
}

/// Puts a file's name as a reference.
pub fn put_uri(out: &mut Vec<u8>, bytes: &[u8]) -> Result<(), AllocError>
    ensures { OnOk result (out.new.items ≡ out.old.items ++ uri bytes.now) }
{
    for byte in bytes {
        put_uri_byte(out, *byte)?;
    }
    Ok(())
}
