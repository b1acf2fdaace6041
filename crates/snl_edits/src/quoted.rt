//! What is between backquotes in the list comes in; the bytes that it means go out.

use anyhow::{Result, bail};
use std::alloc::Global;

// What comes before the next character.
#[derive(Clone, Copy)]
enum Open {
    Nothing,
    Backslash,
    /// `\x`
    Hexadecimal,
    /// `\x` and a digit of this value
    Digit(u8),
}

fn digit_of(byte: u8) -> Result<u8> {
    match byte {
        b'0'..=b'9' => Ok(byte - b'0'),
        b'a'..=b'f' => Ok(byte - b'a' + 10),
        _ => bail!("a byte has two digits of 0 to 9 and a to f"),
    }
}

// Takes the next byte of a text.
fn take_byte(bytes: &mut Vec<u8>, open: Open, byte: u8) -> Result<Open> {
    match (open, byte) {
        (Open::Nothing, b'\\') => return Ok(Open::Backslash),
        (Open::Backslash, b'x') => return Ok(Open::Hexadecimal),
        (Open::Hexadecimal, digit) => return Ok(Open::Digit(digit_of(digit)?)),
        (Open::Nothing, byte) => bytes.push(byte)?,
        (Open::Backslash, b'n') => bytes.push(b'\n')?,
        (Open::Backslash, b'\\') => bytes.push(b'\\')?,
        (Open::Backslash, _) => bail!("after a backslash comes n, x or another one"),
        (Open::Digit(high), digit) => bytes.push((high & 0xf) << 4 | digit_of(digit)? & 0xf)?,
    }
    Ok(Open::Nothing)
}

/// The bytes of a text: `\n` is a line's end, `\x` and two digits a byte, `\\` a backslash.
pub fn bytes_of(alloc: Global, quoted: &str) -> Result<Vec<u8>> {
    let mut bytes = Vec::new(alloc);
    let mut open = Open::Nothing;
    for byte in quoted.bytes() {
        open = take_byte(&mut bytes, open, byte)?;
    }
    Ok(bytes)
}
