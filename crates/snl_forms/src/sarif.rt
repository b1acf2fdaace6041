//! A finding as a result of SARIF 2.1.0.

ghost use Rattle.std.specs.Prelude.{◌≡◌, ◌++◌, OnOk};
ghost use Rattle.snl_forms.specs.Forms.{at_of, note_of, notes_of, said_of};
ghost use Rattle.snl_forms.specs.Forms.{columns_text, location_text, message_text, other_text, reference_text, region_text};
ghost use Rattle.snl_forms.specs.Forms.{related_text, result_text, rule_text, scheme_of};

use crate::escape::put_uri;
use crate::told::{Other, Place, Told, put_bytes, put_code, put_level, put_number, put_string};
use std::alloc::AllocError;

fn scheme_of(file: &[u8]) -> &'static [u8]
    ensures { result.now ≡ scheme_of file.now }
{
    match file.first() {
        Some(b'/') => b"file://",
        _ => b"",
    }
}

fn put_reference(out: &mut Vec<u8>, file: &[u8]) -> Result<(), AllocError>
    ensures { OnOk result (out.new.items ≡ out.old.items ++ reference_text file.now) }
{
    put_bytes(out, scheme_of(file))?;
    put_uri(out, file)?;
    Ok(())
}

#[tactic(auto, unfolding(crate::specs::Forms::columns_text))]
fn put_columns(out: &mut Vec<u8>, place: Place) -> Result<(), AllocError>
    ensures { OnOk result (out.new.items ≡ out.old.items ++ columns_text (at_of place.entry)) }
{
    put_number(out, b", \"region\": {\"startLine\": ", place.line)?;
    put_number(out, b", \"startColumn\": ", place.column)?;
    put_number(out, b", \"endColumn\": ", place.end_column)?;
    put_bytes(out, b"}")?;
    Ok(())
}

fn put_region(out: &mut Vec<u8>, place: Place) -> Result<(), AllocError>
    ensures { OnOk result (out.new.items ≡ out.old.items ++ region_text (at_of place.entry)) }
{
    if place.line == 0 {
        Ok(())
    } else {
        put_columns(out, place)
    }
}

// A location, up to the brace that ends it.
#[tactic(auto, unfolding(crate::specs::Forms::location_text))]
fn put_location(out: &mut Vec<u8>, place: Place) -> Result<(), AllocError>
    ensures { OnOk result (out.new.items ≡ out.old.items ++ location_text (at_of place.entry)) }
{
    put_bytes(
        out,
        b"{\"physicalLocation\": {\"artifactLocation\": {\"uri\": \"",
    )?;
    put_reference(out, place.file)?;
    put_bytes(out, b"\"}")?;
    put_region(out, place)?;
    put_bytes(out, b"}")?;
    Ok(())
}

#[tactic(auto, unfolding(crate::specs::Forms::message_text))]
fn put_message(out: &mut Vec<u8>, words: &[u8]) -> Result<(), AllocError>
    ensures { OnOk result (out.new.items ≡ out.old.items ++ message_text words.now) }
{
    put_bytes(out, b"\"message\": {\"text\": ")?;
    put_string(out, words)?;
    put_bytes(out, b"}")?;
    Ok(())
}

#[tactic(auto, unfolding(crate::specs::Forms::other_text))]
fn put_other(out: &mut Vec<u8>, other: Other) -> Result<(), AllocError>
    ensures { OnOk result (out.new.items ≡ out.old.items ++ other_text (note_of other.entry)) }
{
    put_bytes(out, b", \"relatedLocations\": [")?;
    put_location(out, other.place)?;
    put_bytes(out, b", ")?;
    put_message(out, other.words)?;
    put_bytes(out, b"}]")?;
    Ok(())
}

fn put_related(out: &mut Vec<u8>, related: Option<Other>) -> Result<(), AllocError>
    ensures { OnOk result (out.new.items ≡ out.old.items ++ related_text (notes_of related.entry)) }
{
    match related {
        Some(other) => put_other(out, other),
        None => Ok(()),
    }
}

#[tactic(auto, unfolding(crate::specs::Forms::rule_text))]
fn put_rule(out: &mut Vec<u8>, told: Told) -> Result<(), AllocError>
    ensures { OnOk result (out.new.items ≡ out.old.items ++ rule_text (said_of told.entry)) }
{
    put_bytes(out, b"{\"ruleId\": \"")?;
    put_code(out, told.code)?;
    put_bytes(out, b"\", \"level\": \"")?;
    put_level(out, told.code)?;
    put_bytes(out, b"\", ")?;
    put_message(out, told.message)?;
    Ok(())
}

/// Puts a finding as a result, with its location, and with that of the place that it is related to.
#[tactic(auto, unfolding(crate::specs::Forms::result_text))]
pub fn put_result(out: &mut Vec<u8>, told: Told) -> Result<(), AllocError>
    ensures { OnOk result (out.new.items ≡ out.old.items ++ result_text (said_of told.entry)) }
{
    put_rule(out, told)?;
    put_bytes(out, b", \"locations\": [")?;
    put_location(out, told.place)?;
    put_bytes(out, b"}]")?;
    put_related(out, told.related)?;
    put_bytes(out, b"}\n")?;
    Ok(())
}
