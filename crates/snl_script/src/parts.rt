//! The parts of answers that are told by plain values.
//! In: numbers, and parts of a text. Out: their bytes, said to a page and its writer.
//! Takes no memory. Knows nothing of sessions and diagnostics.
#![tactic(auto)]

ghost use Rattle.std.specs.Prelude.{◌≡◌, ℕ, ◌+◌, ◌==◌, ◌<◌, ◌||◌, [], ◌++◌, List, length, take, flat_map, is_err, OnOk};
ghost use Rattle.std.specs.Char.{digit_char};
ghost use Rattle.snl_script.specs.Parts.{counts_text, escaped, file_text, name_text, quoted, slice_of, sum_text};
ghost use Rattle.snl_script.specs.Said.{Said};
ghost use Rattle.snl_script.specs.Watched.{failed_of, inner_of};

use crate::page::{Page, WriteFault};
use crate::watched::Watched;
use itoa::Buffer;
use std::io::Write;

/// So many bytes of a text from an offset on, or those that there are.
fn slice_of(text: &[u8], start: usize, len: usize) -> &[u8]
    ensures { result.now ≡ slice_of text.now start len }
{
    let after = &text[start.min(text.len())..];
    &after[..len.min(after.len())]
}

fn hex_digit(digit: u8) -> u8
    requires { digit < 16 }
    ensures { result ≡ digit_char digit }
{
    if digit < 10 {
        b'0' + digit
    } else {
        b'a' + (digit - 10)
    }
}

/// Says a byte of a file's name.
fn put_escaped<W: Write>(page: &mut Page, out: &mut Watched<W>, byte: u8) -> Result<(), WriteFault>
    ensures said { Said result (W.contents (inner_of out.old)) (W.contents (inner_of out.new)) page.new (page.old ++ escaped byte) }
    ensures failed { failed_of out.new ≡ (failed_of out.old || is_err result) }
{
    if 32 <= byte && byte <= 126 {
        page.put(out, &[byte])
    } else {
        page.put(
            out,
            &[b'\\', b'x', hex_digit(byte / 16), hex_digit(byte % 16)],
        )
    }
}

/// Says a file's name and a colon.
fn put_name<W: Write>(page: &mut Page, out: &mut Watched<W>, name: &[u8]) -> Result<(), WriteFault>
    ensures said { Said result (W.contents (inner_of out.old)) (W.contents (inner_of out.new)) page.new (page.old ++ name_text name.now) }
    ensures failed { failed_of out.new ≡ (failed_of out.old || is_err result) }
{
    for byte in name {
        put_escaped(page, out, *byte)?;
    }
    page.put(out, b":")
}

/// Says the name of a line's file and a colon, where the line has one.
pub fn put_file<W: Write>(
    page: &mut Page,
    out: &mut Watched<W>,
    text: &[u8],
    file: Option<(usize, usize)>,
) -> Result<(), WriteFault>
    ensures said { Said result (W.contents (inner_of out.old)) (W.contents (inner_of out.new)) page.new (page.old ++ file_text text.now file) }
    ensures failed { failed_of out.new ≡ (failed_of out.old || is_err result) }
{
    match file {
        None => Ok(()),
        Some((start, len)) => put_name(page, out, slice_of(text, start, len)),
    }
}

/// Says bytes between quotes, if there are some.
fn put_quoted<W: Write>(
    page: &mut Page,
    out: &mut Watched<W>,
    bytes: &[u8],
) -> Result<(), WriteFault>
    ensures said { Said result (W.contents (inner_of out.old)) (W.contents (inner_of out.new)) page.new (page.old ++ quoted bytes.now) }
    ensures failed { failed_of out.new ≡ (failed_of out.old || is_err result) }
{
    if bytes.is_empty() {
        return Ok(());
    }
    page.put_all(out, &[b" '", bytes, b"'"])
}

/// Says a part of a text between quotes, if it has some bytes.
pub fn put_subject<W: Write>(
    page: &mut Page,
    out: &mut Watched<W>,
    text: &[u8],
    start: usize,
    len: usize,
) -> Result<(), WriteFault>
    ensures said { Said result (W.contents (inner_of out.old)) (W.contents (inner_of out.new)) page.new
        (page.old ++ quoted (slice_of text.now start len)) }
    ensures failed { failed_of out.new ≡ (failed_of out.old || is_err result) }
{
    put_quoted(page, out, slice_of(text, start, len))
}

/// Says how many errors and warnings there are.
pub fn put_sum<W: Write>(
    page: &mut Page,
    out: &mut Watched<W>,
    errors: usize,
    warnings: usize,
) -> Result<(), WriteFault>
    ensures said { Said result (W.contents (inner_of out.old)) (W.contents (inner_of out.new)) page.new (page.old ++ sum_text errors warnings) }
    ensures failed { failed_of out.new ≡ (failed_of out.old || is_err result) }
{
    let (mut first, mut second) = (Buffer::new(), Buffer::new());
    let errors = first.format(errors).as_bytes();
    let warnings = second.format(warnings).as_bytes();
    page.put_all(out, &[b"errors ", errors, b" warnings ", warnings, b"\n"])
}

/// Says what an edit cost.
pub fn put_counts<W: Write>(
    page: &mut Page,
    out: &mut Watched<W>,
    lexed: u64,
    parsed: u64,
    checked: u64,
) -> Result<(), WriteFault>
    ensures said { Said result (W.contents (inner_of out.old)) (W.contents (inner_of out.new)) page.new (page.old ++ counts_text lexed parsed checked) }
    ensures failed { failed_of out.new ≡ (failed_of out.old || is_err result) }
{
    let (mut first, mut second, mut third) = (Buffer::new(), Buffer::new(), Buffer::new());
    let lexed = first.format(lexed).as_bytes();
    let parsed = second.format(parsed).as_bytes();
    let checked = third.format(checked).as_bytes();
    page.put_all(
        out,
        &[
            b"work lexed ",
            lexed,
            b" parsed ",
            parsed,
            b" checked ",
            checked,
            b"\n",
        ],
    )
}
