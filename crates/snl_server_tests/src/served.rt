//! What a server answers to a client's messages, one after another.

use crate::questions::INITIALIZED_IN_UTF_16;
use snl_docs::Docs;
use snl_say::frame_from;
use snl_shown::SessionText;
use snl_talk::Answers;
use snl_turns::Turn;
use std::alloc::Global;
use std::process::Abort;
use std::test::Fail;

// A message and the bodies that are answered to it, a line each. The text of the document has
// `ä😀` before the place of its fault: that is 45 in UTF-16. What is edited is that fault, then a
// range that ends before it begins; the text that comes next is lost with what is no JSON.
static TALK: [(&[u8], &str); 13] = [
    (
        b"{\"id\":0,\"method\":\"shutdown\"}",
        "{\"error\":{\"code\":-32002,\"message\":\"server not initialized\"},\"id\":0,\"jsonrpc\":\"2.0\"}\n",
    ),
    (
        b"{\"id\":1,\"method\":\"initialize\",\"params\":{}}",
        INITIALIZED_IN_UTF_16,
    ),
    (b"{\"method\":\"initialized\"}", ""),
    (
        b"{\"method\":\"textDocument/didOpen\",\"params\":{\"textDocument\":{\"uri\":\"f:p\",\"version\":1,\"text\":\"program p\\nss s { state a { when () { } /* \xc3\xa4\xf0\x9f\x98\x80 */ state b } }\\n\"}}}",
        "{\"jsonrpc\":\"2.0\",\"method\":\"textDocument/publishDiagnostics\",\"params\":{\"diagnostics\":[{\"code\":\"E10\",\"message\":\"unknown state 'b'\",\"range\":{\"end\":{\"character\":46,\"line\":1},\"start\":{\"character\":45,\"line\":1}},\"severity\":1,\"source\":\"snl\"}],\"uri\":\"f:p\",\"version\":1}}\n",
    ),
    (
        b"{\"method\":\"textDocument/didChange\",\"params\":{\"textDocument\":{\"uri\":\"f:q\",\"version\":2},\"contentChanges\":[{\"text\":\"\"}]}}",
        "",
    ),
    (
        b"{\"method\":\"textDocument/didChange\",\"params\":{\"textDocument\":{\"uri\":\"f:p\",\"version\":2},\"contentChanges\":[{\"range\":{\"start\":{\"line\":1,\"character\":45},\"end\":{\"line\":1,\"character\":46}},\"text\":\"a\"}]}}",
        "{\"jsonrpc\":\"2.0\",\"method\":\"textDocument/publishDiagnostics\",\"params\":{\"diagnostics\":[],\"uri\":\"f:p\",\"version\":2}}\n",
    ),
    (
        b"{\"method\":\"textDocument/didChange\",\"params\":{\"textDocument\":{\"uri\":\"f:p\",\"version\":3},\"contentChanges\":[{\"range\":{\"start\":{\"line\":1,\"character\":45},\"end\":{\"line\":1,\"character\":45}},\"text\":\"b\"},{\"range\":{\"start\":{\"line\":1,\"character\":46},\"end\":{\"line\":1,\"character\":47}},\"text\":\"\"}]}}",
        "{\"jsonrpc\":\"2.0\",\"method\":\"textDocument/publishDiagnostics\",\"params\":{\"diagnostics\":[{\"code\":\"E10\",\"message\":\"unknown state 'b'\",\"range\":{\"end\":{\"character\":46,\"line\":1},\"start\":{\"character\":45,\"line\":1}},\"severity\":1,\"source\":\"snl\"}],\"uri\":\"f:p\",\"version\":3}}\n",
    ),
    (
        b"{\"method\":\"textDocument/didChange\",\"params\":{\"textDocument\":{\"uri\":\"f:p\"},\"contentChanges\":[{\"range\":{\"start\":{\"line\":1,\"character\":2},\"end\":{\"line\":1,\"character\":1}},\"text\":\"\"}]}}",
        "{\"jsonrpc\":\"2.0\",\"method\":\"textDocument/publishDiagnostics\",\"params\":{\"diagnostics\":[],\"uri\":\"f:p\"}}\n{\"jsonrpc\":\"2.0\",\"method\":\"window/showMessage\",\"params\":{\"message\":\"f:p: a change could not be followed: open the file again\",\"type\":1}}\n",
    ),
    (
        b"{\"method\":\"textDocument/didChange\",\"params\":{\"textDocument\":{\"uri\":\"f:p\"},\"contentChanges\":[{\"range\":{\"start\":{\"line\":0,\"character\":0},\"end\":{\"line\":0,\"character\":0}},\"text\":\"\"}]}}",
        "",
    ),
    (
        b"{\"method\":\"textDocument/didChange\",\"params\":{\"textDocument\":{\"uri\":\"f:p\",\"version\":6},\"contentChanges\":[{\"text\":\"program p\\nss s { state a { } }\\n\"}]}}",
        "{\"jsonrpc\":\"2.0\",\"method\":\"textDocument/publishDiagnostics\",\"params\":{\"diagnostics\":[],\"uri\":\"f:p\",\"version\":6}}\n",
    ),
    (
        b"{]}",
        "{\"error\":{\"code\":-32700,\"message\":\"parse error\"},\"id\":null,\"jsonrpc\":\"2.0\"}\n{\"jsonrpc\":\"2.0\",\"method\":\"textDocument/publishDiagnostics\",\"params\":{\"diagnostics\":[],\"uri\":\"f:p\"}}\n{\"jsonrpc\":\"2.0\",\"method\":\"window/showMessage\",\"params\":{\"message\":\"f:p: a change could not be followed: open the file again\",\"type\":1}}\n",
    ),
    (
        b"{\"method\":\"textDocument/didClose\",\"params\":{\"textDocument\":{\"uri\":\"f:p\"}}}",
        "{\"jsonrpc\":\"2.0\",\"method\":\"textDocument/publishDiagnostics\",\"params\":{\"diagnostics\":[],\"uri\":\"f:p\"}}\n",
    ),
    (
        b"{\"id\":2,\"method\":\"shutdown\"}",
        "{\"id\":2,\"jsonrpc\":\"2.0\",\"result\":null}\n",
    ),
];

/// Bodies, a line each, in their frames.
fn framed(alloc: Global, bodies: &str) -> Result<Vec<u8>, Fail> {
    let mut all = Vec::new(alloc);
    for body in bodies.lines() {
        let start = all.len();
        all.extend_from_slice(body.as_bytes())?;
        frame_from(&mut all, start)?;
    }
    Ok(all)
}

/// Expects what is answered to each message, a body a line.
pub fn expect_all(
    rt: &(impl Abort + AllocGlobal),
    docs: &mut Docs<SessionText>,
    rows: &[(&[u8], &str)],
) -> Result<(), Fail> {
    for (row, (body, wanted)) in rows.iter().enumerate() {
        let mut said = Vec::new(rt.alloc());
        docs.answer(Turn::Body(body), &mut said)?;
        let wanted = framed(rt.alloc(), wanted)?;
        assert!(rt; said.as_slice() == wanted.as_slice(), "row {row}");
        assert!(rt; docs.ended().is_none(), "row {row}");
    }
    Ok(())
}

#[test]
fn answers_each_message(rt: HostRuntime) -> Result<(), Fail> {
    let mut docs: Docs<SessionText> = Docs::new(rt.alloc());
    expect_all(&rt, &mut docs, &TALK)?;
    let mut said = Vec::new(rt.alloc());
    docs.answer(Turn::HeaderAlone, &mut said)?;
    docs.answer(Turn::Body(b"{\"method\":\"exit\"}"), &mut said)?;
    assert!(rt; docs.ended() == Some(true));
    Ok(())
}
