//! The lines of one finding in a report.
//! In: the name of a text, the text, a finding and its place. Out: the lines, after bytes that are
//! there. Notes would come after them.

ghost use Rattle.std.specs.Prelude.{◌≡◌, ℕ, ◌+◌, ◌^◌, ◌<◌, ◌++◌, List, length, min, option_map};
ghost use Rattle.std.specs.Prelude.{OnOk};
ghost use Rattle.snl_excerpt.specs.Columns.{IsCursor};
ghost use Rattle.snl_report.specs.Blocks.{block_at, hint_text};
ghost use Rattle.snl_report.specs.Noted.{said_of};
ghost use Rattle.snl_report.specs.Excerpted.{excerpt_end, excerpt_text};

use crate::extent::extent;
use crate::head::{put_head, put_quoted, slice_of};
use crate::noted::Note;
use crate::paint::{Paint, Part, put_off, put_on};
use crate::reported::Reported;
use snl_excerpt::{Cursor, put_blank_gutter, put_excerpt, put_gutter, put_marks};
use snl_kept::Diagnostic;
use std::alloc::AllocError;

/// Puts the shown line of a place, and the marks under it.
#[tactic(auto, unfolding(crate::specs::Excerpted::excerpt_text))]
pub fn put_lines(
    out: &mut Vec<u8>,
    paint: Paint,
    text: &[u8],
    from: Cursor,
    line: usize,
    len: usize,
) -> Result<(), AllocError>
    requires { IsCursor text.now from }
    ensures { OnOk result (out.new.items ≡ out.old.items
        ++ excerpt_text paint text.now from.offset from.before line len) }
{
    put_gutter(out, line)?;
    let marks = put_excerpt(out, text, from, len)?;
    out.extend_from_slice(b"\n")?;
    put_blank_gutter(out, line)?;
    put_on(out, paint, Part::Marks)?;
    put_marks(out, marks)?;
    Ok(())
}

/// Ends the line of the marks.
#[tactic(auto, unfolding(crate::specs::Excerpted::excerpt_end))]
pub fn put_end(out: &mut Vec<u8>, paint: Paint) -> Result<(), AllocError>
    ensures { OnOk result (out.new.items ≡ out.old.items ++ excerpt_end paint) }
{
    put_off(out, paint)?;
    out.extend_from_slice(b"\n")?;
    Ok(())
}

/// Puts the name that is near an unknown one, after the marks of that.
fn put_hint(out: &mut Vec<u8>, text: &[u8], note: Option<Note>) -> Result<(), AllocError>
    requires { length text.now < 2 ^ 32 }
    ensures { OnOk result (out.new.items ≡ out.old.items ++ hint_text text.now (option_map said_of
        note.entry)) }
{
    let Some(note) = note else {
        return Ok(());
    };
    if !note.is_near {
        return Ok(());
    }
    out.extend_from_slice(b" near:")?;
    put_quoted(out, slice_of(text, note.span.start, note.span.len))?;
    Ok(())
}

/// Puts the lines of a finding, whose place is that of the cursor.
#[tactic(auto, unfolding(crate::specs::Blocks::block_at))]
pub fn put_block(
    out: &mut Vec<u8>,
    reported: Reported,
    from: Cursor,
    diagnostic: &Diagnostic,
    note: Option<Note>,
) -> Result<(), AllocError>
    requires { IsCursor reported.text.now from }
    ensures { OnOk result (out.new.items ≡ out.old.items ++ block_at reported.entry.style.paint
        reported.entry.name.now reported.entry.text.now from.offset from.before
        diagnostic.now (option_map said_of note.entry)) }
{
    let (paint, text) = (reported.style.paint, reported.text);
    put_head(out, paint, reported.name, text, from.column(), diagnostic)?;
    let len = extent(text, from.offset, diagnostic.subject);
    put_lines(out, paint, text, from, diagnostic.line, len)?;
    put_hint(out, text, note)?;
    put_end(out, paint)?;
    Ok(())
}
