//! What is before a shown line.
//! In: the number of a line. Out: the number at the right of at least five columns, or blanks in
//! its place, and a bar.

ghost use Rattle.std.specs.Prelude.{◌≡◌, ℕ, ◌-◌, ◌++◌, OnOk};
ghost use Rattle.snl_excerpt.specs.Gutters.{blank_gutter, gutter};

use crate::excerpt::put_times;
use itoa::Buffer;
use std::alloc::AllocError;

/// A number takes so many columns, or as many as it has digits.
const DIGITS: usize = 5;

/// Puts the number of a line and a bar.
pub fn put_gutter(out: &mut Vec<u8>, line: usize) -> Result<(), AllocError>
    ensures { OnOk result (out.new.items ≡ out.old.items ++ gutter line) }
{
    let mut buffer = Buffer::new();
    let number = buffer.format(line).as_bytes();
    put_times(out, b' ', DIGITS.saturating_sub(number.len()))?;
    out.extend_from_slice(number)?;
    out.extend_from_slice(b" | ")?;
    Ok(())
}

/// Puts blanks in the place of the number of a line, and a bar.
pub fn put_blank_gutter(out: &mut Vec<u8>, line: usize) -> Result<(), AllocError>
    ensures { OnOk result (out.new.items ≡ out.old.items ++ blank_gutter line) }
{
    let mut buffer = Buffer::new();
    let number = buffer.format(line).as_bytes();
    put_times(out, b' ', DIGITS.max(number.len()))?;
    out.extend_from_slice(b" | ")?;
    Ok(())
}
