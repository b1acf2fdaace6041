//! A finding as an object of JSON, on a line.

ghost use Rattle.std.specs.Prelude.{◌≡◌, ◌++◌, OnOk};
ghost use Rattle.snl_forms.specs.Forms.{at_of, note_of, notes_of, said_of};
ghost use Rattle.snl_forms.specs.Forms.{finding_text, members_text, note_text, notes_text, object_text};

use crate::told::{Other, Place, Told, put_bytes, put_code, put_level, put_number, put_string};
use std::alloc::AllocError;

#[tactic(auto, unfolding(crate::specs::Forms::members_text))]
fn put_members(out: &mut Vec<u8>, place: Place) -> Result<(), AllocError>
    ensures { OnOk result (out.new.items ≡ out.old.items ++ members_text (at_of place.entry)) }
{
    put_bytes(out, b"\"file\":")?;
    put_string(out, place.file)?;
    put_number(out, b",\"line\":", place.line)?;
    put_number(out, b",\"column\":", place.column)?;
    put_number(out, b",\"end_column\":", place.end_column)?;
    Ok(())
}

#[tactic(auto, unfolding(crate::specs::Forms::note_text))]
fn put_note(out: &mut Vec<u8>, other: Other) -> Result<(), AllocError>
    ensures { OnOk result (out.new.items ≡ out.old.items ++ note_text (note_of other.entry)) }
{
    put_bytes(out, b",\"notes\":[{")?;
    put_members(out, other.place)?;
    put_bytes(out, b",\"message\":")?;
    put_string(out, other.words)?;
    put_bytes(out, b"}]")?;
    Ok(())
}

fn put_notes(out: &mut Vec<u8>, related: Option<Other>) -> Result<(), AllocError>
    ensures { OnOk result (out.new.items ≡ out.old.items ++ notes_text (notes_of related.entry)) }
{
    match related {
        Some(other) => put_note(out, other),
        None => Ok(()),
    }
}

#[tactic(auto, unfolding(crate::specs::Forms::finding_text))]
fn put_finding(out: &mut Vec<u8>, told: Told) -> Result<(), AllocError>
    ensures { OnOk result (out.new.items ≡ out.old.items ++ finding_text (said_of told.entry)) }
{
    put_bytes(out, b"\"severity\":\"")?;
    put_level(out, told.code)?;
    put_bytes(out, b"\",\"code\":\"")?;
    put_code(out, told.code)?;
    put_bytes(out, b"\",\"message\":")?;
    put_string(out, told.message)?;
    Ok(())
}

/// Puts a finding as an object: its file, line and columns, severity, code and message, and a note
/// where it is related to a place.
#[tactic(auto, unfolding(crate::specs::Forms::object_text))]
pub fn put_object(out: &mut Vec<u8>, told: Told) -> Result<(), AllocError>
    ensures { OnOk result (out.new.items ≡ out.old.items ++ object_text (said_of told.entry)) }
{
    put_bytes(out, b"{")?;
    put_members(out, told.place)?;
    put_bytes(out, b",")?;
    put_finding(out, told)?;
    put_notes(out, told.related)?;
    put_bytes(out, b"}\n")?;
    Ok(())
}
