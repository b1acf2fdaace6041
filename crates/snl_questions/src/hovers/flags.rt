//! The event flag that a name declares. In: the rows of the flags, and the span of the name. Out:
//! its line, after those that are there.

ghost use Rattle.std.specs.Prelude.{◌≡◌, ◌++◌, OnOk, position};
ghost use Rattle.snl_questions.specs.Hover.{flag_line, flag_lines, flag_name, further, is_flag, is_span};

use crate::hovers::bytes::put_number;
use crate::meanings::items::span_bytes;
use snl_tables::{FlagRow, Span};
use std::alloc::AllocError;

/// Whether a name is the one that is declared.
pub fn is_span(declared: Span, name: Span) -> bool
    ensures { result ≡ is_span declared name }
{
    name.start == declared.start && name.len == declared.len
}

fn is_flag(declared: Span, row: &FlagRow) -> bool
    ensures { result ≡ is_flag declared row.now }
{
    is_span(declared, row.name)
}

fn place_of_flag(flags: &[FlagRow], declared: Span) -> Option<usize>
    ensures { result ≡ position (is_flag declared) flags.now }
{
    flags.iter().position(|row| is_flag(declared, row))
}

/// The name of the event flag with a number; they are counted from 1.
pub fn flag_name<'a>(text: &'a [u8], flags: &[FlagRow], number: usize) -> &'a [u8]
    ensures { result.now ≡ flag_name text.now flags.now number }
{
    match flags.get(number.saturating_sub(1)) {
        Some(row) => span_bytes(text, row.name),
        None => &[],
    }
}

/// The line of the event flag that a name declares, if it does.
#[tactic(auto, unfolding(crate::specs::Hover::flag_lines))]
pub fn put_flag(out: &mut Vec<u8>, flags: &[FlagRow], declared: Span) -> Result<(), AllocError>
    ensures { OnOk result (out.new.items ≡ out.old.items
        ++ further (flag_lines flags.now declared)) }
{
    if let Some(place) = place_of_flag(flags, declared) {
        out.extend_from_slice(b"\nevent flag ")?;
        put_number(out, place as u64 + 1)?;
    }
    Ok(())
}
