//! A finding in a form that other programs read.
//! In: the text that is reported on, a finding with its place, and its note. Out: a line, after
//! bytes that are there.

ghost use Rattle.std.specs.Prelude.{◌≡◌, ◌++◌, IfOk, OnOk, option_map};
ghost use Rattle.snl_excerpt.specs.Columns.{IsCursor};
ghost use Rattle.snl_forms.specs.Forms.{at_of, note_of, notes_of, said_of};
ghost use Rattle.snl_report.specs.Formed.{at_place, begins_character, column_by, file_of};
ghost use Rattle.snl_report.specs.Formed.{message_for};
ghost use Rattle.snl_report.specs.Formed.{line_of, note_for, note_on, notes_for, said_at, units};
ghost use Rattle.snl_report.specs.Noted.{said_of as said_of_note};
ghost use Rattle.snl_script.specs.Parts.{quoted};

use crate::extent::extent;
use crate::form::Form;
use crate::head::slice_of;
use crate::noted::Note;
use crate::reported::Reported;
use snl_excerpt::{Cursor, text_start};
use snl_forms::{Other, Place, Told, put_annotation, put_object, put_result};
use snl_kept::Diagnostic;
use snl_lex::Line;
use std::alloc::{AllocError, Global};

fn begins_character(byte: u8) -> bool
    ensures { result ≡ begins_character byte }
{
    !(0x80..=0xbf).contains(&byte)
}

// How many units of a form's columns some bytes are.
fn units(form: Form, bytes: &[u8]) -> usize
    ensures { result ≡ units form bytes.now }
{
    match form {
        Form::Report | Form::Json => bytes.len(),
        Form::Github | Form::Sarif => bytes.iter().filter(|byte| begins_character(**byte)).count(),
    }
}

// The name of a line's file, which a line marker of the text says, or else that of the text.
fn file_of<'a>(name: &'a [u8], text: &'a [u8], file: Option<(usize, usize)>) -> &'a [u8]
    ensures { result.now ≡ file_of name.now text.now file }
{
    match file {
        Some((start, len)) => slice_of(text, start, len),
        None => name,
    }
}

fn column_by(form: Form, text: &[u8], from: Cursor) -> usize
    requires { IsCursor text.now from }
    ensures { result ≡ column_by form text.now from.offset from.before }
{
    units(form, slice_of(text, from.offset - from.before, from.before)) + 1
}

// So many bytes from a place on, on a line of a file.
fn place<'a>(
    form: Form,
    text: &'a [u8],
    file: &'a [u8],
    line: usize,
    from: Cursor,
    len: usize,
) -> Place<'a>
    requires { IsCursor text.now from }
    ensures { at_of result ≡ at_place form text.now file.now line from.offset from.before len }
{
    let column = column_by(form, text, from);
    Place {
        file,
        line,
        column,
        end_column: column + units(form, slice_of(text, from.offset, len)),
    }
}

fn note_on<'a>(reported: Reported<'a>, line: Line, from: Cursor, note: Note<'a>) -> Other<'a>
    requires { IsCursor reported.text.now from }
    ensures { note_of result ≡ note_on reported.entry.style.form reported.entry.name.now
        reported.entry.text.now line from.offset from.before (said_of_note note.entry) }
{
    let file = file_of(reported.name, reported.text, line.file);
    Other {
        place: place(
            reported.style.form,
            reported.text,
            file,
            line.number,
            from,
            note.span.len,
        ),
        words: note.words,
    }
}

fn note_for<'a>(reported: Reported<'a>, note: Note<'a>) -> Other<'a>
    ensures { note_of result ≡ note_for reported.entry.style.form reported.entry.name.now
        reported.entry.text.now (said_of_note note.entry) }
{
    let from = text_start().at(reported.text, note.span.start);
    let line = reported.lines.line_by(reported.text, note.span.start);
    note_on(reported, line, from, note)
}

fn notes_for<'a>(reported: Reported<'a>, note: Option<Note<'a>>) -> Option<Other<'a>>
    ensures { notes_of result ≡ notes_for reported.entry.style.form reported.entry.name.now
        reported.entry.text.now (option_map said_of_note note.entry) }
{
    Some(note_for(reported, note?))
}

// The message that `check` prints.
fn message_for(alloc: Global, text: &[u8], diagnostic: &Diagnostic) -> Result<Vec<u8>, AllocError>
    ensures { IfOk result (λ message. message.items ≡ message_for text.now diagnostic.now) }
{
    let mut message = Vec::new(alloc);
    message.extend_from_slice(diagnostic.code.message().as_bytes())?;
    put_quoted(
        &mut message,
        slice_of(text, diagnostic.offset, diagnostic.subject),
    )?;
    Ok(message)
}

// Bytes between quotes, as they are, if there are some.
fn put_quoted(out: &mut Vec<u8>, bytes: &[u8]) -> Result<(), AllocError>
    ensures { OnOk result (out.new.items ≡ out.old.items ++ quoted bytes.now) }
{
    if bytes.is_empty() {
        return Ok(());
    }
    out.extend_from_slice(b" '")?;
    out.extend_from_slice(bytes)?;
    out.extend_from_slice(b"'")?;
    Ok(())
}

// What all forms say of the finding at a place, with the bytes of its message.
fn told<'a>(
    reported: Reported<'a>,
    from: Cursor,
    diagnostic: &Diagnostic,
    message: &'a [u8],
    note: Option<Note<'a>>,
) -> Told<'a>
    requires cursor { IsCursor reported.text.now from }
    requires message { message.now ≡ message_for reported.text.now diagnostic.now }
    ensures { said_of result ≡ said_at reported.entry.style.form reported.entry.name.now
        reported.entry.text.now from.offset from.before diagnostic.now (option_map said_of_note
        note.entry) }
{
    let file = file_of(reported.name, reported.text, diagnostic.file);
    let len = extent(reported.text, from.offset, diagnostic.subject);
    Told {
        place: place(
            reported.style.form,
            reported.text,
            file,
            diagnostic.line,
            from,
            len,
        ),
        code: diagnostic.code,
        message,
        related: notes_for(reported, note),
    }
}

/// Puts the line of the finding at a place. A report has blocks, and no lines of this kind.
pub fn put_formed(
    alloc: Global,
    out: &mut Vec<u8>,
    reported: Reported,
    from: Cursor,
    diagnostic: &Diagnostic,
    note: Option<Note>,
) -> Result<(), AllocError>
    requires { IsCursor reported.text.now from }
    ensures { OnOk result (out.new.items ≡ out.old.items ++ line_of reported.entry.style.form
        (said_at reported.entry.style.form reported.entry.name.now reported.entry.text.now
        from.offset from.before diagnostic.now (option_map said_of_note note.entry))) }
{
    let message = message_for(alloc, reported.text, diagnostic)?;
    let told = told(reported, from, diagnostic, &message, note);
    match reported.style.form {
        Form::Report => Ok(()),
        Form::Json => put_object(out, told),
        Form::Github => put_annotation(out, told),
        Form::Sarif => put_result(out, told),
    }
}
