//! The note after the block of a finding.
//! In: the text that is reported on, and a note. Out: its lines, after bytes that are there.

ghost use Rattle.std.specs.Prelude.{◌≡◌, ◌^◌, ◌<◌, ◌++◌, length, option_map, OnOk};
ghost use Rattle.snl_excerpt.specs.Columns.{IsCursor};
ghost use Rattle.snl_report.specs.Noted.{said_of};
ghost use Rattle.snl_report.specs.Notes.{note_at, note_by, note_head, note_text, note_word};

use crate::block::{put_end, put_lines};
use crate::head::{put_name, put_place};
use crate::noted::Note;
use crate::paint::{Paint, Part, put_off, put_on};
use crate::reported::Reported;
use snl_excerpt::{Cursor, text_start};
use snl_lex::Line;
use std::alloc::AllocError;

#[tactic(auto, unfolding(crate::specs::Notes::note_word))]
fn put_note_word(out: &mut Vec<u8>, paint: Paint) -> Result<(), AllocError>
    ensures { OnOk result (out.new.items ≡ out.old.items ++ note_word paint) }
{
    put_on(out, paint, Part::Note)?;
    out.extend_from_slice(b"note: ")?;
    put_off(out, paint)?;
    Ok(())
}

/// The first line of a note.
#[tactic(auto, unfolding(crate::specs::Notes::note_head))]
fn put_note_head(
    out: &mut Vec<u8>,
    paint: Paint,
    name: &[u8],
    text: &[u8],
    line: Line,
    column: usize,
    words: &[u8],
) -> Result<(), AllocError>
    requires name { length name.now < 2 ^ 32 }
    requires text { length text.now < 2 ^ 32 }
    ensures { OnOk result (out.new.items ≡ out.old.items
        ++ note_head paint name.now text.now line column words.now) }
{
    put_on(out, paint, Part::Place)?;
    put_name(out, name, text, line.file)?;
    put_place(out, line.number, column)?;
    put_off(out, paint)?;
    put_note_word(out, paint)?;
    out.extend_from_slice(words)?;
    out.extend_from_slice(b"\n")?;
    Ok(())
}

/// The note at a place.
#[tactic(auto, unfolding(crate::specs::Notes::note_at))]
fn put_note_at(
    out: &mut Vec<u8>,
    reported: Reported,
    from: Cursor,
    line: Line,
    note: Note,
) -> Result<(), AllocError>
    requires { IsCursor reported.text.now from }
    ensures { OnOk result (out.new.items ≡ out.old.items ++ note_at reported.entry.style.paint
        reported.entry.name.now reported.entry.text.now from.offset from.before line (said_of
        note.entry)) }
{
    let (paint, text) = (reported.style.paint, reported.text);
    put_note_head(
        out,
        paint,
        reported.name,
        text,
        line,
        from.column(),
        note.words,
    )?;
    put_lines(out, paint, text, from, line.number, note.span.len)?;
    put_end(out, paint)?;
    Ok(())
}

/// Puts a note, if there is one that has lines of its own.
pub fn put_note(out: &mut Vec<u8>, reported: Reported, note: Option<Note>) -> Result<(), AllocError>
    ensures { OnOk result (out.new.items ≡ out.old.items ++ note_text reported.entry.style.paint
        reported.entry.name.now reported.entry.text.now (option_map said_of note.entry)) }
{
    let Some(note) = note else {
        return Ok(());
    };
    if note.is_near {
        return Ok(());
    }
    let from = text_start().at(reported.text, note.span.start);
    let line = reported.lines.line_by(reported.text, note.span.start);
    put_note_at(out, reported, from, line, note)?;
    Ok(())
}
