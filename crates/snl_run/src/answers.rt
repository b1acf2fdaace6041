//! The answers to commands, as bytes.
//! In: a session, what became of an edit, or what it cost. Out: the answer's bytes, said to a page
//! and its writer. Takes no memory. Knows nothing of scripts.
#![tactic(auto)]

ghost use Rattle.std.specs.Prelude.{◌≡◌, ℕ, ◌+◌, ◌==◌, ◌<◌, ◌||◌, [], ◌++◌, List, length, take, flat_map, is_err, OnOk};
ghost use Rattle.snl_run.specs.Answers.{edit_text, finding_text, line_text, report_of, work_text};
ghost use Rattle.snl_script.specs.Said.{Said, Written};
ghost use Rattle.snl_script.specs.Watched.{failed_of, inner_of};

use itoa::Buffer;
use snl_script::{
    Page, Watched, WriteFault, put_counts, put_file, put_subject, put_sum, write_out,
};
use snl_session::{Diagnostic, Refused, Session, Work};
use std::io::Write;

/// Says the place, the code and the message of a diagnostic.
fn put_finding<W: Write>(
    page: &mut Page,
    out: &mut Watched<W>,
    diagnostic: &Diagnostic,
) -> Result<(), WriteFault>
    ensures said { Said result (W.contents (inner_of out.old)) (W.contents (inner_of out.new)) page.new (page.old ++ finding_text diagnostic.now) }
    ensures failed { failed_of out.new ≡ (failed_of out.old || is_err result) }
{
    let mut number = Buffer::new();
    let line = number.format(diagnostic.line).as_bytes();
    let name = diagnostic.code.name().as_bytes();
    let message = diagnostic.code.message().as_bytes();
    page.put_all(out, &[line, b": ", name, b" ", message])
}

/// Says the line of a diagnostic of a text.
fn put_line<W: Write>(
    page: &mut Page,
    out: &mut Watched<W>,
    text: &[u8],
    diagnostic: &Diagnostic,
) -> Result<(), WriteFault>
    ensures said { Said result (W.contents (inner_of out.old)) (W.contents (inner_of out.new)) page.new (page.old ++ line_text text.now diagnostic.now) }
    ensures failed { failed_of out.new ≡ (failed_of out.old || is_err result) }
{
    put_file(page, out, text, diagnostic.file)?;
    put_finding(page, out, diagnostic)?;
    put_subject(page, out, text, diagnostic.offset, diagnostic.subject)?;
    page.put(out, b"\n")
}

/// Says the lines of diagnostics of a text.
fn put_lines<W: Write>(
    page: &mut Page,
    out: &mut Watched<W>,
    text: &[u8],
    diagnostics: &[Diagnostic],
) -> Result<(), WriteFault>
    ensures said { Said result (W.contents (inner_of out.old)) (W.contents (inner_of out.new)) page.new
        (page.old ++ flat_map (line_text text.now) diagnostics.now) }
    ensures failed { failed_of out.new ≡ (failed_of out.old || is_err result) }
{
    for diagnostic in diagnostics {
        put_line(page, out, text, diagnostic)?;
    }
    Ok(())
}

/// Writes the diagnostics of a session, and how many there are.
pub fn report<W: Write>(out: &mut Watched<W>, session: &Session) -> Result<(), WriteFault>
    ensures written { Written result (W.contents (inner_of out.old)) (W.contents (inner_of out.new)) (report_of session.now) }
    ensures failed { failed_of out.new ≡ (failed_of out.old || is_err result) }
{
    let mut page = Page::new();
    put_lines(&mut page, out, session.text(), session.diagnostics())?;
    put_sum(&mut page, out, session.errors(), session.warnings())?;
    page.finish(out)
}

/// Writes what became of an edit.
pub fn tell_edit<W: Write>(out: &mut Watched<W>, refused: Option<Refused>) -> Result<(), WriteFault>
    ensures written { Written result (W.contents (inner_of out.old)) (W.contents (inner_of out.new)) (edit_text refused) }
    ensures failed { failed_of out.new ≡ (failed_of out.old || is_err result) }
{
    match refused {
        None => write_out(out, b"ok\n"),
        Some(Refused::Range) => write_out(out, b"refused range\n"),
        Some(Refused::Size) => write_out(out, b"refused size\n"),
        Some(Refused::Memory) => write_out(out, b"refused memory\n"),
    }
}

/// Writes what an edit cost.
pub fn tell_work<W: Write>(out: &mut Watched<W>, work: Work) -> Result<(), WriteFault>
    ensures written { Written result (W.contents (inner_of out.old)) (W.contents (inner_of out.new)) (work_text work) }
    ensures failed { failed_of out.new ≡ (failed_of out.old || is_err result) }
{
    let mut page = Page::new();
    put_counts(&mut page, out, work.lexed, work.parsed, work.checked)?;
    page.finish(out)
}
