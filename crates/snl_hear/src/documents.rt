//! What parameters say of a document: its URI, its version, its text, a place in it, and whether a
//! declaration is asked for too.
//! In: the parameters, if there are any. Out: a part of them, if it is there and well formed.
//! Knows nothing of methods.

ghost use Rattle.std.specs.Prelude.{◌≡◌, option_and_then, option_map};
ghost use Rattle.serde_json.specs.Find.{get};
ghost use Rattle.snl_hear.specs.Documents.{boolean_at, document_in, includes_declaration_in, number_at, place_in, position_in, string_at, text_in, uri_in, version_in};
ghost use Rattle.snl_hear.specs.Values.{seen};

use crate::values::{boolean_in, member_of, string_in, unsigned_of};
use json::Value;
use snl_place::Place;

fn number_at(value: &Value<'_>, key: &str) -> Option<u64>
    ensures { result ≡ number_at key.now (seen value.now) }
{
    unsigned_of(member_of(value, key)?)
}

pub fn string_at<'a>(value: &Value<'a>, key: &str) -> Option<&'a str>
    ensures { option_map (λ s. s.now) result ≡ string_at key.now (seen value.now) }
{
    string_in(member_of(value, key)?)
}

fn boolean_at(value: &Value<'_>, key: &str) -> Option<bool>
    ensures { result ≡ boolean_at key.now (seen value.now) }
{
    boolean_in(member_of(value, key)?)
}

/// `{"line": LINE, "character": CHARACTER}`
pub fn place_in(value: &Value<'_>) -> Option<Place>
    ensures { result ≡ place_in (seen value.now) }
{
    let line = number_at(value, "line")?;
    let character = number_at(value, "character")?;
    Some(Place {
        line: line as usize,
        character: character as usize,
    })
}

/// `{"textDocument": DOCUMENT}`
fn document_in<'v, 'a>(params: Option<&'v Value<'a>>) -> Option<&'v Value<'a>>
    ensures { option_map (λ v. seen v.now) result
        ≡ document_in (option_map (λ v. seen v.now) params.entry) }
{
    member_of(params?, "textDocument")
}

/// `{"textDocument": {"uri": URI}}`
pub fn uri_in<'a>(params: Option<&Value<'a>>) -> Option<&'a str>
    ensures { option_map (λ s. s.now) result
        ≡ uri_in (option_map (λ v. seen v.now) params.entry) }
{
    string_at(document_in(params)?, "uri")
}

/// `{"textDocument": {"version": VERSION}}`
pub fn version_in(params: Option<&Value<'_>>) -> Option<u64>
    ensures { result ≡ version_in (option_map (λ v. seen v.now) params.entry) }
{
    number_at(document_in(params)?, "version")
}

/// `{"textDocument": {"text": TEXT}}`
pub fn text_in<'a>(params: Option<&Value<'a>>) -> Option<&'a str>
    ensures { option_map (λ s. s.now) result
        ≡ text_in (option_map (λ v. seen v.now) params.entry) }
{
    string_at(document_in(params)?, "text")
}

/// `{"position": PLACE}`. The text of the document need not have such a place.
pub fn position_in(params: Option<&Value<'_>>) -> Option<Place>
    ensures { result ≡ position_in (option_map (λ v. seen v.now) params.entry) }
{
    place_in(member_of(params?, "position")?)
}

/// `{"context": {"includeDeclaration": BOOLEAN}}`
pub fn includes_declaration_in(params: Option<&Value<'_>>) -> Option<bool>
    ensures { result ≡ includes_declaration_in (option_map (λ v. seen v.now) params.entry) }
{
    boolean_at(member_of(params?, "context")?, "includeDeclaration")
}
