//! The report of a text.
//! In: a name, and a session over the text. Out: a block for each of the text's diagnostics, and
//! how many there are, to a watched writer. One block is in memory at a time.

ghost use Rattle.std.specs.Prelude.{◌≡◌, ℕ, ◌^◌, ◌<◌, ◌||◌, [], ◌++◌, List, length, IfOk, OnOk};
ghost use Rattle.std.specs.Prelude.{flat_map, is_err, option_map};
ghost use Rattle.snl_excerpt.specs.Columns.{IsCursor};
ghost use Rattle.snl_kept.specs.Diagnostics.{diagnostics_of};
ghost use Rattle.snl_kept.specs.Kept.{IsListed};
ghost use Rattle.snl_report.specs.Faults.{is_unwritten};
ghost use Rattle.snl_report.specs.Formed.{formed, formed_at};
ghost use Rattle.snl_report.specs.Noted.{said_of};
ghost use Rattle.snl_report.specs.Reports.{blocks, name_line, plain_block, noted_block, report_of};
ghost use Rattle.snl_report.specs.Reports.{sum_line};
ghost use Rattle.snl_script.specs.Said.{Said, Written};
ghost use Rattle.snl_script.specs.Watched.{failed_of, inner_of};

use crate::block::put_block;
use crate::form::{Form, Style};
use crate::formed::put_formed;
use crate::note::put_note;
use crate::noted::{Note, find_note};
use crate::reported::Reported;
use snl_cut::OutOfMemory;
use snl_excerpt::{Cursor, put_shown, text_start};
use snl_questions::all_tokens;
use snl_related::Relations;
use snl_script::{Page, Watched, WriteFault, put_sum};
use snl_session::{Diagnostic, Session};
use std::alloc::{AllocError, Global};
use std::io::Write;

/// So many findings are told with their notes, the first ones.
const MOST_NOTED: usize = 100;

/// Why a report broke off.
#[derive(Clone, Copy, Debug, PartialEq, Eq)]
pub enum ReportFault {
    /// A growth was refused.
    Memory,
    /// The writer failed.
    Write,
}

impl From<AllocError> for ReportFault {
    ghost use Rattle.snl_report.specs.declared.report.ReportFault.TheVariants.{Memory};

    ghost from_gives = { λ _ e. e ≡ Memory };

    fn from(_refused: AllocError) -> ReportFault {
        ReportFault::Memory
    }
}

impl From<WriteFault> for ReportFault {
    ghost use Rattle.snl_report.specs.declared.report.ReportFault.TheVariants.{Write};

    ghost from_gives = { λ _ e. e ≡ Write };

    fn from(_fault: WriteFault) -> ReportFault {
        ReportFault::Write
    }
}

impl From<OutOfMemory> for ReportFault {
    ghost use Rattle.snl_report.specs.declared.report.ReportFault.TheVariants.{Memory};

    ghost from_gives = { λ _ e. e ≡ Memory };

    fn from(_refused: OutOfMemory) -> ReportFault {
        ReportFault::Memory
    }
}

/// Puts a finding in the form that is asked for.
fn put_finding(
    alloc: Global,
    room: &mut Vec<u8>,
    reported: Reported,
    from: Cursor,
    diagnostic: &Diagnostic,
    note: Option<Note>,
) -> Result<(), AllocError>
    requires { IsCursor reported.text.now from }
    ensures { OnOk result (room.new.items ≡ room.old.items ++ formed_at reported.entry.style.paint
        reported.entry.style.form reported.entry.name.now reported.entry.text.now from.offset
        from.before
        diagnostic.now (option_map said_of note.entry)) }
{
    match reported.style.form {
        Form::Report => {
            put_block(room, reported, from, diagnostic, note)?;
            put_note(room, reported, note)?;
            Ok(())
        }
        _ => put_formed(alloc, room, reported, from, diagnostic, note),
    }
}

/// A finding in its form, alone in a room that may hold others.
fn put_alone(
    alloc: Global,
    room: &mut Vec<u8>,
    reported: Reported,
    from: Cursor,
    diagnostic: &Diagnostic,
    note: Option<Note>,
) -> Result<Cursor, AllocError>
    requires { IsCursor reported.text.now from }
    ensures put { OnOk result (room.new.items ≡ formed reported.entry.style
        reported.entry.name.now reported.entry.text.now diagnostic.now (option_map said_of
        note.entry)) }
    ensures cursor { IfOk result (λ here. IsCursor reported.entry.text.now here) }
{
    let here = from.at(reported.text, diagnostic.offset);
    room.clear();
    put_finding(alloc, room, reported, here, diagnostic, note)?;
    Ok(here)
}

/// Says the block of a finding, and tells its place.
fn say_block<W: Write>(
    alloc: Global,
    page: &mut Page,
    out: &mut Watched<W>,
    room: &mut Vec<u8>,
    reported: Reported,
    from: Cursor,
    diagnostic: &Diagnostic,
    note: Option<Note>,
) -> Result<Cursor, ReportFault>
    requires { IsCursor reported.text.now from }
    ensures said { Said result (W.contents (inner_of out.old)) (W.contents (inner_of out.new))
        page.new
        (page.old ++ formed reported.entry.style reported.entry.name.now reported.entry.text.now
        diagnostic.now (option_map said_of note.entry)) }
    ensures cursor { IfOk result (λ here. IsCursor reported.entry.text.now here) }
    ensures failed { failed_of out.new ≡ (failed_of out.old || is_unwritten result) }
{
    let here = put_alone(alloc, room, reported, from, diagnostic, note)?;
    page.put(out, room.as_slice())?;
    Ok(here)
}

/// Says the block of a finding with its note.
fn say_noted_block<W: Write>(
    alloc: Global,
    page: &mut Page,
    out: &mut Watched<W>,
    room: &mut Vec<u8>,
    reported: Reported,
    relations: &Relations,
    from: Cursor,
    diagnostic: &Diagnostic,
) -> Result<Cursor, ReportFault>
    requires cursor { IsCursor reported.text.now from }
    requires same { relations.now.items.text.now ≡ reported.text.now }
    requires listed { IsListed relations.now.items.text.now relations.now.lists.now }
    ensures said { Said result (W.contents (inner_of out.old)) (W.contents (inner_of out.new))
        page.new (page.old ++ noted_block reported.entry.style reported.entry.name.now
        reported.entry.text.now diagnostic.now) }
    ensures cursor { IfOk result (λ here. IsCursor reported.entry.text.now here) }
    ensures failed { failed_of out.new ≡ (failed_of out.old || is_unwritten result) }
{
    let noted = find_note(relations, diagnostic)?;
    say_block(
        alloc,
        page,
        out,
        room,
        reported,
        from,
        diagnostic,
        noted.note(),
    )
}

/// Says the blocks of diagnostics, each with its note.
fn say_noted_blocks<W: Write>(
    alloc: Global,
    page: &mut Page,
    out: &mut Watched<W>,
    room: &mut Vec<u8>,
    reported: Reported,
    relations: &Relations,
    diagnostics: &[Diagnostic],
) -> Result<(), ReportFault>
    requires same { relations.now.items.text.now ≡ reported.text.now }
    requires listed { IsListed relations.now.items.text.now relations.now.lists.now }
    ensures said { Said result (W.contents (inner_of out.old)) (W.contents (inner_of out.new))
        page.new (page.old ++ flat_map (noted_block reported.entry.style reported.entry.name.now
        reported.entry.text.now)
        diagnostics.now) }
    ensures failed { failed_of out.new ≡ (failed_of out.old || is_unwritten result) }
{
    let mut from = text_start();
    for diagnostic in diagnostics {
        from = say_noted_block(
            alloc, page, out, room, reported, relations, from, diagnostic,
        )?;
    }
    Ok(())
}

/// Says the blocks of diagnostics alone.
fn say_plain_blocks<W: Write>(
    alloc: Global,
    page: &mut Page,
    out: &mut Watched<W>,
    room: &mut Vec<u8>,
    reported: Reported,
    diagnostics: &[Diagnostic],
) -> Result<(), ReportFault>
    ensures said { Said result (W.contents (inner_of out.old)) (W.contents (inner_of out.new))
        page.new (page.old ++ flat_map (plain_block reported.entry.style reported.entry.name.now
        reported.entry.text.now)
        diagnostics.now) }
    ensures failed { failed_of out.new ≡ (failed_of out.old || is_unwritten result) }
{
    let mut from = text_start();
    for diagnostic in diagnostics {
        from = say_block(alloc, page, out, room, reported, from, diagnostic, None)?;
    }
    Ok(())
}

/// Says the blocks of the first diagnostics of a session's text, each with its note.
fn say_first_blocks<W: Write>(
    alloc: Global,
    page: &mut Page,
    out: &mut Watched<W>,
    room: &mut Vec<u8>,
    reported: Reported,
    session: &Session,
    diagnostics: &[Diagnostic],
) -> Result<(), ReportFault>
    requires { session.now ≡ reported.text.now }
    ensures said { Said result (W.contents (inner_of out.old)) (W.contents (inner_of out.new))
        page.new (page.old ++ flat_map (noted_block reported.entry.style reported.entry.name.now
        reported.entry.text.now)
        diagnostics.now) }
    ensures failed { failed_of out.new ≡ (failed_of out.old || is_unwritten result) }
{
    if diagnostics.is_empty() {
        return Ok(());
    }
    let lists = &session.kept().lists;
    let tokens = all_tokens(alloc, &lists.pieces)?;
    let relations = Relations::of_text(alloc, reported.text, lists, &tokens);
    say_noted_blocks(alloc, page, out, room, reported, &relations, diagnostics)
}

/// Says the blocks of all diagnostics.
fn say_blocks<W: Write>(
    alloc: Global,
    page: &mut Page,
    out: &mut Watched<W>,
    room: &mut Vec<u8>,
    reported: Reported,
    session: &Session,
) -> Result<(), ReportFault>
    requires { session.now ≡ reported.text.now }
    ensures said { Said result (W.contents (inner_of out.old)) (W.contents (inner_of out.new))
        page.new
        (page.old ++ blocks reported.entry.style reported.entry.name.now reported.entry.text.now
        (diagnostics_of session.now)) }
    ensures failed { failed_of out.new ≡ (failed_of out.old || is_unwritten result) }
{
    let all = session.diagnostics();
    let (first, others) = all.split_at(MOST_NOTED.min(all.len()));
    say_first_blocks(alloc, page, out, room, reported, session, first)?;
    say_plain_blocks(alloc, page, out, room, reported, others)
}

/// The name of the text and a colon, alone in a room that may hold other bytes.
fn put_name_alone(room: &mut Vec<u8>, name: &[u8]) -> Result<(), AllocError>
    requires { length name.now < 2 ^ 32 }
    ensures { OnOk result (room.new.items ≡ name_line name.now) }
{
    room.clear();
    put_shown(room, name)?;
    room.extend_from_slice(b": ")?;
    Ok(())
}

/// Says how many errors and warnings the text has.
fn say_sum<W: Write>(
    page: &mut Page,
    out: &mut Watched<W>,
    room: &mut Vec<u8>,
    name: &[u8],
    errors: usize,
    warnings: usize,
) -> Result<(), ReportFault>
    requires { length name.now < 2 ^ 32 }
    ensures said { Said result (W.contents (inner_of out.old)) (W.contents (inner_of out.new))
        page.new (page.old ++ sum_line name.now errors warnings) }
    ensures failed { failed_of out.new ≡ (failed_of out.old || is_unwritten result) }
{
    put_name_alone(room, name)?;
    page.put(out, room.as_slice())?;
    put_sum(page, out, errors, warnings)?;
    Ok(())
}

/// Says the report of a session's text.
#[tactic(auto, unfolding(crate::specs::Reports::report_of))]
fn say_report<W: Write>(
    alloc: Global,
    page: &mut Page,
    out: &mut Watched<W>,
    room: &mut Vec<u8>,
    style: Style,
    name: &[u8],
    session: &Session,
) -> Result<(), ReportFault>
    requires { length name.now < 2 ^ 32 }
    ensures said { Said result (W.contents (inner_of out.old)) (W.contents (inner_of out.new))
        page.new (page.old ++ report_of style name.now session.now) }
    ensures failed { failed_of out.new ≡ (failed_of out.old || is_unwritten result) }
{
    let reported = Reported {
        style,
        name,
        text: session.text(),
        lines: &session.kept().lists.lines,
    };
    say_blocks(alloc, page, out, room, reported, session)?;
    say_sum(page, out, room, name, session.errors(), session.warnings())?;
    Ok(())
}

/// Writes the report of a session's text, by the name that it is to have.
pub fn write_report<W: Write>(
    alloc: Global,
    out: &mut Watched<W>,
    style: Style,
    name: &[u8],
    session: &Session,
) -> Result<(), ReportFault>
    requires { length name.now < 2 ^ 32 }
    ensures written { Written result (W.contents (inner_of out.old)) (W.contents (inner_of out.new))
        (report_of style name.now session.now) }
    ensures failed { failed_of out.new ≡ (failed_of out.old || is_unwritten result) }
{
    let mut page = Page::new();
    let mut room = Vec::new(alloc);
    say_report(alloc, &mut page, out, &mut room, style, name, session)?;
    page.finish(out)?;
    Ok(())
}
