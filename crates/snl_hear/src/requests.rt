//! What a request asks.
//! In: its method and its parameters. Out: what it asks.
//! Knows nothing of its id, and of what is answered.

ghost use Rattle.std.specs.Prelude.{◌≡◌, option_map};
ghost use Rattle.snl_hear.specs.Requests.{asked_in, asked_of, asked_of_document, encoding_in, method_named, offered_in, offers_utf_8, query_by, query_of, references_in, says_utf_8};
ghost use Rattle.snl_hear.specs.Values.{seen, seen_all};

use crate::documents::{includes_declaration_in, position_in, uri_in};
use crate::values::{items_of, member_of, string_in};
use json::Value;
use snl_place::{Encoding, Place};

/// What is asked of a document. A place need not be one of its text, and counts the characters of
/// its line in the encoding that was agreed on.
#[derive(Clone, Copy, Debug, PartialEq, Eq)]
pub enum Question {
    /// `textDocument/documentSymbol`
    Symbols,
    /// `textDocument/definition`
    Definition(Place),
    /// `textDocument/hover`
    Hover(Place),
    /// `textDocument/references`
    References {
        place: Place,
        includes_declaration: bool,
    },
    /// `textDocument/documentHighlight`
    Highlights(Place),
}

/// What a request asks.
#[derive(Clone, Copy)]
pub enum Request<'a> {
    /// `initialize`: places are to be counted so, by what the client offers.
    Initialize(Encoding),
    /// `shutdown`
    Shutdown,
    /// A question on the document of this URI.
    OfDocument { uri: &'a str, question: Question },
    /// One of these, with parameters that do not fit it.
    InvalidParams,
    /// Any other method.
    MethodNotFound,
}

/// The methods of requests.
#[derive(Clone, Copy)]
enum RequestMethod {
    Initialize,
    Shutdown,
    OfDocument(DocumentMethod),
    Other,
}

/// Those of questions on a document.
#[derive(Clone, Copy)]
enum DocumentMethod {
    Symbols,
    Definition,
    Hover,
    References,
    Highlights,
}

fn method_named(name: &str) -> RequestMethod
    ensures { result ≡ method_named name.now }
{
    match name {
        "initialize" => RequestMethod::Initialize,
        "shutdown" => RequestMethod::Shutdown,
        "textDocument/documentSymbol" => RequestMethod::OfDocument(DocumentMethod::Symbols),
        "textDocument/definition" => RequestMethod::OfDocument(DocumentMethod::Definition),
        "textDocument/hover" => RequestMethod::OfDocument(DocumentMethod::Hover),
        "textDocument/references" => RequestMethod::OfDocument(DocumentMethod::References),
        "textDocument/documentHighlight" => RequestMethod::OfDocument(DocumentMethod::Highlights),
        _ => RequestMethod::Other,
    }
}

/// `{"capabilities": {"general": {"positionEncodings": [ENCODING, ..]}}}`
fn offered_in<'v, 'a>(params: Option<&'v Value<'a>>) -> Option<&'v [Value<'a>]>
    ensures { option_map (λ all. seen_all all.now) result
        ≡ offered_in (option_map (λ v. seen v.now) params.entry) }
{
    let general = member_of(member_of(params?, "capabilities")?, "general")?;
    items_of(member_of(general, "positionEncodings")?)
}

fn says_utf_8(value: &Value<'_>) -> bool
    ensures { result ≡ says_utf_8 (seen value.now) }
{
    match string_in(value) {
        Some(name) => name == "utf-8",
        None => false,
    }
}

fn offers_utf_8(offered: &[Value<'_>]) -> bool
    ensures { result ≡ offers_utf_8 (seen_all offered.now) }
{
    for value in offered {
        if says_utf_8(value) {
            return true;
        }
    }
    false
}

/// UTF-8, where the client offers it. Else UTF-16, which each client knows.
fn encoding_in(params: Option<&Value<'_>>) -> Encoding
    ensures { result ≡ encoding_in (option_map (λ v. seen v.now) params.entry) }
{
    match offered_in(params) {
        Some(offered) if offers_utf_8(offered) => Encoding::Utf8,
        _ => Encoding::Utf16,
    }
}

/// `{"position": PLACE, "context": {"includeDeclaration": BOOLEAN}}`
fn references_in(params: Option<&Value<'_>>) -> Option<Question>
    ensures { option_map (λ question. query_of question) result
        ≡ references_in (option_map (λ v. seen v.now) params.entry) }
{
    let place = position_in(params)?;
    let includes_declaration = includes_declaration_in(params)?;
    Some(Question::References {
        place,
        includes_declaration,
    })
}

/// The question of this method, by its parameters.
fn question_in(method: DocumentMethod, params: Option<&Value<'_>>) -> Option<Question>
    ensures { option_map (λ question. query_of question) result
        ≡ query_by method (option_map (λ v. seen v.now) params.entry) }
{
    match method {
        DocumentMethod::Symbols => Some(Question::Symbols),
        DocumentMethod::Definition => Some(Question::Definition(position_in(params)?)),
        DocumentMethod::Hover => Some(Question::Hover(position_in(params)?)),
        DocumentMethod::References => references_in(params),
        DocumentMethod::Highlights => Some(Question::Highlights(position_in(params)?)),
    }
}

/// What this method asks of the document that the parameters name.
fn document_asked<'a>(method: DocumentMethod, params: Option<&Value<'a>>) -> Option<Request<'a>>
    ensures { option_map (λ request. asked_of request) result
        ≡ asked_of_document method (option_map (λ v. seen v.now) params.entry) }
{
    let uri = uri_in(params)?;
    let question = question_in(method, params)?;
    Some(Request::OfDocument { uri, question })
}

/// What a request of this method asks.
pub fn request_in<'a>(method: &str, params: Option<&Value<'a>>) -> Request<'a>
    ensures { asked_of result ≡ asked_in method.now (option_map (λ v. seen v.now) params.entry) }
{
    match method_named(method) {
        RequestMethod::Initialize => Request::Initialize(encoding_in(params)),
        RequestMethod::Shutdown => Request::Shutdown,
        RequestMethod::OfDocument(asked) => match document_asked(asked, params) {
            Some(request) => request,
            None => Request::InvalidParams,
        },
        RequestMethod::Other => Request::MethodNotFound,
    }
}
