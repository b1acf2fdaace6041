//! What is found in a document, as the notification `textDocument/publishDiagnostics`.
//! In: places, codes, messages and what they quote. Out: the bytes of the notification, after those
//! that are there.
//! Knows nothing of texts, and of how places are counted in them.

ghost use Rattle.std.specs.Prelude.{◌≡◌, ◌+◌, ◌≤◌, ◌++◌, ◌∷◌, [], ℕ, List, Option, None, Some, OnOk, codes, drop, length};
ghost use Rattle.json.specs.Print.{escape, quoted};
ghost use Rattle.serde_json.specs.Written.{comma_if};
ghost use Rattle.snl_script.specs.Parts.{quoted as in_quotes};
ghost use Rattle.snl_say.specs.Items.{item_end, item_front};
ghost use Rattle.snl_say.specs.Publish.{Found, found_of, item_text, publish_head, publish_with, severity_text, version_text};

use crate::before::bytes_before;
use crate::bytes::{put_all, put_escaped};
use crate::places::range_before;
use crate::plain::is_plain;
use crate::severity::Severity;
use crate::written::WrittenItems;
use itoa::Buffer;
use snl_place::Place;
use std::alloc::AllocError;

/// What is found in a document, from `start` up to `stop`. `code` is the name of the rule: `E10`.
/// What the message quotes comes after it, where that is not empty.
#[derive(Clone, Copy)]
pub struct Shown<'a> {
    pub start: Place,
    pub stop: Place,
    pub severity: Severity,
    pub code: &'static [u8],
    pub message: &'static [u8],
    pub quoted: &'a [u8],
}

/// The severity, and all that is after it in an item.
fn severity_text(severity: Severity) -> &'static [u8]
    ensures { result.now ≡ severity_text severity }
{
    match severity {
        Severity::Error => b",\"severity\":1,\"source\":\"snl\"}",
        Severity::Warning => b",\"severity\":2,\"source\":\"snl\"}",
    }
}

/// What is before the code of an item: a comma first, where another item is before it.
fn begin_text(later: bool) -> &'static [u8]
    ensures text { result.now ≡ comma_if later ++ codes "{\"code\":\"" }
    ensures few { length result.now ≤ 10 }
{
    if later {
        b",{\"code\":\""
    } else {
        b"{\"code\":\""
    }
}

/// What is before the message of an item whose code may be long or have escapes.
#[cold]
#[inline(never)]
fn put_odd_front(out: &mut Vec<u8>, later: bool, code: &[u8]) -> Result<(), AllocError>
    ensures { OnOk result (out.new.items ≡ out.old.items ++ item_front later code.now) }
{
    out.extend_from_slice(begin_text(later))?;
    put_escaped(out, code)?;
    out.extend_from_slice(b"\",\"message\":\"")?;
    Ok(())
}

/// What is before the message of an item. Nearly all codes are short and have no escape.
fn put_front(out: &mut Vec<u8>, later: bool, code: &[u8]) -> Result<(), AllocError>
    ensures { OnOk result (out.new.items ≡ out.old.items ++ item_front later code.now) }
{
    if code.len() > 16 || !is_plain(code) {
        return put_odd_front(out, later, code);
    }
    let mut buffer = [0; 64];
    let name = bytes_before(&mut buffer, 64, b"\",\"message\":\"");
    let text = bytes_before(&mut buffer, name, code);
    let begin = bytes_before(&mut buffer, text, begin_text(later));
    out.extend_from_slice(&buffer[begin..])
}

/// The quote after the message of an item, and all that is after it, before the bytes from `end`
/// on.
fn end_before(buffer: &mut [u8], end: usize, shown: &Shown<'_>) -> usize
    requires { (192 ≤ end) × (end ≤ length buffer.old) }
    ensures begin { result ≤ end }
    ensures few { end ≤ result + 192 }
    ensures written { drop result buffer.new
        ≡ item_end (found_of shown.now) ++ drop end buffer.old }
{
    let severity = bytes_before(buffer, end, severity_text(shown.severity));
    let range = range_before(buffer, severity, shown.start, shown.stop);
    bytes_before(buffer, range, b"\",\"range\":")
}

/// The mark after what an item quotes, and all that is after it.
fn put_marked_end(out: &mut Vec<u8>, shown: &Shown<'_>) -> Result<(), AllocError>
    ensures { OnOk result (out.new.items ≡ out.old.items
        ++ (codes "'" ++ item_end (found_of shown.now))) }
{
    let mut buffer = [0; 193];
    let end = end_before(&mut buffer, 193, shown);
    let mark = bytes_before(&mut buffer, end, b"'");
    out.extend_from_slice(&buffer[mark..])
}

/// What an item quotes, which may be long or have escapes, and all that is after it.
#[cold]
#[inline(never)]
fn put_odd_quotation(out: &mut Vec<u8>, shown: &Shown<'_>) -> Result<(), AllocError>
    ensures { OnOk result (out.new.items ≡ out.old.items
        ++ (codes " '" ++ (escape shown.now.quoted.now ++ (codes "'"
        ++ item_end (found_of shown.now))))) }
{
    out.extend_from_slice(b" '")?;
    put_escaped(out, shown.quoted)?;
    put_marked_end(out, shown)?;
    Ok(())
}

/// What an item quotes, and all that is after it. Nearly all that is quoted is short and has no
/// escape.
fn put_quotation(out: &mut Vec<u8>, shown: &Shown<'_>) -> Result<(), AllocError>
    ensures { OnOk result (out.new.items ≡ out.old.items
        ++ (codes " '" ++ (escape shown.now.quoted.now ++ (codes "'"
        ++ item_end (found_of shown.now))))) }
{
    // Up to 61 bytes and three for the marks are before an end of at most 192.
    if shown.quoted.len() > 61 || !is_plain(shown.quoted) {
        return put_odd_quotation(out, shown);
    }
    let mut buffer = [0; 256];
    let end = end_before(&mut buffer, 256, shown);
    let mark = bytes_before(&mut buffer, end, b"'");
    let text = bytes_before(&mut buffer, mark, shown.quoted);
    let begin = bytes_before(&mut buffer, text, b" '");
    out.extend_from_slice(&buffer[begin..])
}

/// All that is after the message of an item: what it quotes, where that is not empty, first.
fn put_end(out: &mut Vec<u8>, shown: &Shown<'_>) -> Result<(), AllocError>
    ensures { OnOk result (out.new.items ≡ out.old.items
        ++ (escape (in_quotes shown.now.quoted.now) ++ item_end (found_of shown.now))) }
{
    if !shown.quoted.is_empty() {
        return put_quotation(out, shown);
    }
    let mut buffer = [0; 192];
    let end = end_before(&mut buffer, 192, shown);
    out.extend_from_slice(&buffer[end..])
}

/// An item, with a comma before it, where another item is before it.
pub fn put_item(out: &mut Vec<u8>, later: bool, shown: &Shown<'_>) -> Result<(), AllocError>
    ensures { OnOk result (out.new.items ≡ out.old.items
        ++ (comma_if later ++ item_text (found_of shown.now))) }
{
    put_front(out, later, shown.code)?;
    put_escaped(out, shown.message)?;
    put_end(out, shown)?;
    Ok(())
}

/// The version, if there is one, and all that is after it.
fn put_version(out: &mut Vec<u8>, version: Option<u64>) -> Result<(), AllocError>
    ensures { OnOk result (out.new.items ≡ out.old.items ++ version_text version) }
{
    match version {
        Some(version) => {
            let mut buffer = Buffer::new();
            put_all(
                out,
                &[b",\"version\":", buffer.format(version).as_bytes(), b"}}"],
            )
        }
        None => out.extend_from_slice(b"}}"),
    }
}

/// What is before the items.
#[tactic(auto, unfolding(crate::specs::Publish::publish_head))]
fn put_head(out: &mut Vec<u8>) -> Result<(), AllocError>
    ensures { OnOk result (out.new.items ≡ out.old.items ++ publish_head) }
{
    put_all(
        out,
        &[
            b"{\"jsonrpc\":\"2.0\",\"method\":\"textDocument/publishDiagnostics\",",
            b"\"params\":{\"diagnostics\":[",
        ],
    )
}

/// The diagnostics of a document. `quoted_uri` is its URI as `put_quoted` writes it, so that it is
/// escaped once for all of them; `version` that of the text that they are of, where the client
/// numbers its texts. An `Err`, of memory, may leave a front of the bytes.
pub fn put_publish(
    out: &mut Vec<u8>,
    quoted_uri: &[u8],
    version: Option<u64>,
    all: &WrittenItems,
) -> Result<(), AllocError>
    ensures { OnOk result (out.new.items ≡ out.old.items
        ++ publish_with all.now quoted_uri.now version) }
{
    put_head(out)?;
    all.put(out)?;
    out.extend_from_slice(b",\"uri\":")?;
    out.extend_from_slice(quoted_uri)?;
    put_version(out, version)?;
    Ok(())
}
