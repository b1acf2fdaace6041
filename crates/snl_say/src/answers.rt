//! The answers to requests.
//! In: the id of a request, and what is answered. Out: the bytes of the answer, after those that
//! are there.
//! Knows nothing of requests but their ids.

ghost use Rattle.std.specs.Prelude.{◌≡◌, ◌++◌, ℕ, List, Option, None, Some, OnOk, codes, decimal};
ghost use Rattle.std.specs.Fmt.{signed_decimal};
ghost use Rattle.json.specs.Print.{quoted};
ghost use Rattle.serde_json.specs.Data.{Data};
ghost use Rattle.serde_json.specs.Written.{compact_text};
ghost use Rattle.snl_say.specs.Answers.{encoding_text, error_text, failure_text, id_data, initialize_head, initialize_text, later_providers_text, null_text, providers_text, server_text, some_id_data, sync_text};

use crate::bytes::{put_all, put_quoted};
use itoa::Buffer;
use snl_place::Encoding;
use std::alloc::AllocError;

/// The id of a request, as the client gave it.
#[derive(Clone, Copy)]
pub enum Id<'a> {
    /// An integer from 0 on.
    Unsigned(u64),
    /// An integer below 0.
    Negative(i64),
    /// The bytes of a string.
    Text(&'a [u8]),
}

/// Why there is an error in place of an answer, in the protocol's terms.
#[derive(Clone, Copy, Debug, PartialEq, Eq)]
pub enum ErrorCode {
    /// The body is no JSON: -32700.
    ParseError,
    /// The JSON is no request, or one that can't be made any more: -32600.
    InvalidRequest,
    /// There is no such method: -32601.
    MethodNotFound,
    /// The parameters don't fit the method: -32602.
    InvalidParams,
    /// Nothing is answered before `initialize`: -32002.
    ServerNotInitialized,
}

/// An id, as it was given.
pub fn put_id(out: &mut Vec<u8>, id: Id<'_>) -> Result<(), AllocError>
    ensures { OnOk result (out.new.items ≡ out.old.items ++ compact_text (id_data id.entry)) }
{
    match id {
        Id::Unsigned(number) => {
            let mut buffer = Buffer::new();
            out.extend_from_slice(buffer.format(number).as_bytes())
        }
        Id::Negative(number) => {
            let mut buffer = Buffer::new();
            out.extend_from_slice(buffer.format(number).as_bytes())
        }
        Id::Text(bytes) => put_quoted(out, bytes),
    }
}

/// An id, or `null` where none is known.
fn put_some_id(out: &mut Vec<u8>, id: Option<Id<'_>>) -> Result<(), AllocError>
    ensures { OnOk result (out.new.items ≡ out.old.items
        ++ compact_text (some_id_data id.entry)) }
{
    match id {
        Some(known) => put_id(out, known),
        None => out.extend_from_slice(b"null"),
    }
}

/// The answer `null`: to `shutdown`, and where there is nothing to tell. An `Err`, of memory, may
/// leave a front of the bytes.
#[tactic(auto, unfolding(crate::specs::Answers::null_text))]
pub fn put_null(out: &mut Vec<u8>, id: Id<'_>) -> Result<(), AllocError>
    ensures { OnOk result (out.new.items ≡ out.old.items ++ null_text (id_data id.entry)) }
{
    out.extend_from_slice(b"{\"id\":")?;
    put_id(out, id)?;
    out.extend_from_slice(b",\"jsonrpc\":\"2.0\",\"result\":null}")?;
    Ok(())
}

/// What is between the id and the capabilities.
#[tactic(auto, unfolding(crate::specs::Answers::initialize_head))]
fn initialize_head() -> &'static [u8]
    ensures { result.now ≡ initialize_head }
{
    b",\"jsonrpc\":\"2.0\",\"result\":{\"capabilities\":{"
}

/// The requests on a document that are answered, up to the encoding.
#[tactic(auto, unfolding(crate::specs::Answers::providers_text))]
fn put_providers(out: &mut Vec<u8>) -> Result<(), AllocError>
    ensures { OnOk result (out.new.items ≡ out.old.items ++ providers_text) }
{
    put_all(
        out,
        &[
            b"\"definitionProvider\":true,\"documentHighlightProvider\":true,",
            b"\"documentSymbolProvider\":true,\"hoverProvider\":true",
        ],
    )
}

fn encoding_text(encoding: Encoding) -> &'static [u8]
    ensures { result.now ≡ encoding_text encoding }
{
    match encoding {
        Encoding::Utf8 => b",\"positionEncoding\":\"utf-8\"",
        Encoding::Utf16 => b",\"positionEncoding\":\"utf-16\"",
    }
}

/// The requests after the encoding.
#[tactic(auto, unfolding(crate::specs::Answers::later_providers_text))]
fn later_providers_text() -> &'static [u8]
    ensures { result.now ≡ later_providers_text }
{
    b",\"referencesProvider\":true"
}

/// Documents are opened and closed, and changed by ranges.
#[tactic(auto, unfolding(crate::specs::Answers::sync_text))]
fn sync_text() -> &'static [u8]
    ensures { result.now ≡ sync_text }
{
    b",\"textDocumentSync\":{\"change\":2,\"openClose\":true}}"
}

#[tactic(auto, unfolding(crate::specs::Answers::server_text))]
fn server_text() -> &'static [u8]
    ensures { result.now ≡ server_text }
{
    b",\"serverInfo\":{\"name\":\"snl_lsp\"}}}"
}

/// The answer to `initialize`: documents are opened, changed by ranges and closed, the characters
/// of a line are counted so, and symbols, definitions, hovers, references and highlights may be
/// asked for. An `Err`, of memory, may leave a front of the bytes.
#[tactic(auto, unfolding(crate::specs::Answers::initialize_text))]
pub fn put_initialize(out: &mut Vec<u8>, id: Id<'_>, encoding: Encoding) -> Result<(), AllocError>
    ensures { OnOk result (out.new.items ≡ out.old.items
        ++ initialize_text (id_data id.entry) encoding) }
{
    out.extend_from_slice(b"{\"id\":")?;
    put_id(out, id)?;
    out.extend_from_slice(initialize_head())?;
    put_providers(out)?;
    out.extend_from_slice(encoding_text(encoding))?;
    out.extend_from_slice(later_providers_text())?;
    out.extend_from_slice(sync_text())?;
    out.extend_from_slice(server_text())?;
    Ok(())
}

/// The number of an error and its message.
fn failure_text(code: ErrorCode) -> &'static [u8]
    ensures { result.now ≡ failure_text code }
{
    match code {
        ErrorCode::ParseError => b"-32700,\"message\":\"parse error\"",
        ErrorCode::InvalidRequest => b"-32600,\"message\":\"invalid request\"",
        ErrorCode::MethodNotFound => b"-32601,\"message\":\"method not found\"",
        ErrorCode::InvalidParams => b"-32602,\"message\":\"invalid params\"",
        ErrorCode::ServerNotInitialized => b"-32002,\"message\":\"server not initialized\"",
    }
}

/// An error in place of an answer, with the id `null` where that of the request isn't known. An
/// `Err`, of memory, may leave a front of the bytes.
#[tactic(auto, unfolding(crate::specs::Answers::error_text))]
pub fn put_error(out: &mut Vec<u8>, id: Option<Id<'_>>, code: ErrorCode) -> Result<(), AllocError>
    ensures { OnOk result (out.new.items ≡ out.old.items
        ++ error_text (some_id_data id.entry) code) }
{
    out.extend_from_slice(b"{\"error\":{\"code\":")?;
    out.extend_from_slice(failure_text(code))?;
    out.extend_from_slice(b"},\"id\":")?;
    put_some_id(out, id)?;
    out.extend_from_slice(b",\"jsonrpc\":\"2.0\"}")?;
    Ok(())
}
