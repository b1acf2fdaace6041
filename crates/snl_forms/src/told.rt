//! What all forms say of a finding.

ghost use Rattle.std.specs.Prelude.{◌≡◌, ◌++◌, OnOk, decimal};
ghost use Rattle.snl_codes.specs.Codes.{name_of};
ghost use Rattle.snl_forms.specs.Forms.{level_of, string_text};

use crate::escape::{Escape, put_escaped};
use itoa::Buffer;
use snl_codes::Code;
use std::alloc::AllocError;

/// A place in a file: the line, and the columns from the first to that after the last. Lines and
/// columns count from 1; what a column is, whoever tells the place chooses.
#[derive(Clone, Copy)]
pub struct Place<'a> {
    pub file: &'a [u8],
    pub line: usize,
    pub column: usize,
    pub end_column: usize,
}

/// A place that a finding is related to, and what is said of it.
#[derive(Clone, Copy)]
pub struct Other<'a> {
    pub place: Place<'a>,
    pub words: &'a [u8],
}

/// A finding, with the bytes of its message.
#[derive(Clone, Copy)]
pub struct Told<'a> {
    pub place: Place<'a>,
    pub code: Code,
    pub message: &'a [u8],
    pub related: Option<Other<'a>>,
}

// `error` or `warning`.
fn level_of(code: Code) -> &'static [u8]
    ensures { result.now ≡ level_of code }
{
    if code.is_error() {
        b"error"
    } else {
        b"warning"
    }
}

/// Puts bytes as they are. It is here for what it ensures: less than the library's function, in one
/// clause, by which long texts are put together.
pub fn put_bytes(out: &mut Vec<u8>, bytes: &[u8]) -> Result<(), AllocError>
    ensures { OnOk result (out.new.items ≡ out.old.items ++ bytes.now) }
{
    out.extend_from_slice(bytes)
}

/// Puts whether a code is that of an error or of a warning.
pub fn put_level(out: &mut Vec<u8>, code: Code) -> Result<(), AllocError>
    ensures { OnOk result (out.new.items ≡ out.old.items ++ level_of code) }
{
    out.extend_from_slice(level_of(code))
}

/// Puts the name of a code.
pub fn put_code(out: &mut Vec<u8>, code: Code) -> Result<(), AllocError>
    ensures { OnOk result (out.new.items ≡ out.old.items ++ name_of code) }
{
    out.extend_from_slice(code.name().as_bytes())
}

/// Puts a string of JSON, with its quotes.
#[tactic(auto, unfolding(crate::specs::Forms::string_text))]
pub fn put_string(out: &mut Vec<u8>, bytes: &[u8]) -> Result<(), AllocError>
    ensures { OnOk result (out.new.items ≡ out.old.items ++ string_text bytes.now) }
{
    out.extend_from_slice(b"\"")?;
    put_escaped(out, Escape::Json, bytes)?;
    out.extend_from_slice(b"\"")?;
    Ok(())
}

/// Puts a number, after some bytes.
pub fn put_number(out: &mut Vec<u8>, before: &[u8], number: usize) -> Result<(), AllocError>
    ensures { OnOk result (out.new.items ≡ out.old.items ++ (before.now ++ decimal number)) }
{
    let mut buffer = Buffer::new();
    out.extend_from_slice(before)?;
    out.extend_from_slice(buffer.format(number).as_bytes())?;
    Ok(())
}
