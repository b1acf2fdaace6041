//! A finding as an annotation that GitHub reads in the log of a workflow.

ghost use Rattle.std.specs.Prelude.{◌≡◌, ◌++◌, OnOk};
ghost use Rattle.snl_forms.specs.Forms.{at_of, note_of, notes_of, said_of};
ghost use Rattle.snl_forms.specs.Forms.{annotation_text, properties_text};

use crate::escape::{Escape, put_escaped};
use crate::told::{Told, put_bytes, put_code, put_level, put_number};
use std::alloc::AllocError;

#[tactic(auto, unfolding(crate::specs::Forms::properties_text))]
fn put_properties(out: &mut Vec<u8>, told: Told) -> Result<(), AllocError>
    ensures { OnOk result (out.new.items ≡ out.old.items ++ properties_text (said_of told.entry)) }
{
    put_bytes(out, b"::")?;
    put_level(out, told.code)?;
    put_bytes(out, b" file=")?;
    put_escaped(out, Escape::Property, told.place.file)?;
    put_number(out, b",line=", told.place.line)?;
    put_number(out, b",col=", told.place.column)?;
    put_number(out, b",endColumn=", told.place.end_column)?;
    Ok(())
}

/// Puts a finding as an annotation.
#[tactic(auto, unfolding(crate::specs::Forms::annotation_text))]
pub fn put_annotation(out: &mut Vec<u8>, told: Told) -> Result<(), AllocError>
    ensures { OnOk result (out.new.items ≡ out.old.items ++ annotation_text (said_of told.entry)) }
{
    put_properties(out, told)?;
    put_bytes(out, b",title=")?;
    put_code(out, told.code)?;
    put_bytes(out, b"::")?;
    put_escaped(out, Escape::Data, told.message)?;
    put_bytes(out, b"\n")?;
    Ok(())
}
