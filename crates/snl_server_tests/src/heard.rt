//! What bodies of messages ask.

use crate::words::add_message;
use json::Scratch;
use snl_hear::Body;
use std::alloc::Global;
use std::process::Abort;
use std::test::Fail;

/// What a body asks, as words.
fn heard(alloc: Global, body: &[u8]) -> Result<Vec<u8>, Fail> {
    let mut words = Vec::new(alloc);
    let mut scratch = Scratch::new(alloc);
    let body = Body::read(alloc, body, &mut scratch)?;
    let message = body.message(alloc)?;
    add_message(alloc, &mut words, &message)?;
    Ok(words)
}

fn expect_all(rt: &(impl Abort + AllocGlobal), rows: &[(&[u8], &str)]) -> Result<(), Fail> {
    for (row, (body, wanted)) in rows.iter().enumerate() {
        let words = heard(rt.alloc(), body)?;
        assert!(rt;
            words.as_slice() == wanted.as_bytes(),
            "row {row}: {wanted}"
        );
    }
    Ok(())
}

// As neovim sends them: `/` with an escape, the members in any order.
static NEOVIM: [(&[u8], &str); 9] = [
    (
        b"{\"method\":\"initialize\",\"id\":1,\"params\":{\"trace\":\"off\",\"capabilities\":{\"window\":{}}},\"jsonrpc\":\"2.0\"}",
        "1 initialize utf-16 ",
    ),
    (
        b"{\"method\":\"initialized\",\"params\":{},\"jsonrpc\":\"2.0\"}",
        "initialized ",
    ),
    (
        b"{\"method\":\"textDocument\\/didOpen\",\"params\":{\"textDocument\":{\"languageId\":\"\",\"text\":\"program p\\n\\n\",\"uri\":\"file:\\/\\/\\/p.stt\",\"version\":0}},\"jsonrpc\":\"2.0\"}",
        "opened file:///p.stt 0 'program p\n\n' ",
    ),
    (
        b"{\"method\":\"textDocument\\/didChange\",\"params\":{\"contentChanges\":[{\"text\":\"\\/* \xc3\xa4\xf0\x9f\x98\x80 *\\/ \",\"range\":{\"end\":{\"line\":2,\"character\":0},\"start\":{\"line\":2,\"character\":0}},\"rangeLength\":0}],\"textDocument\":{\"uri\":\"file:\\/\\/\\/p.stt\",\"version\":5}},\"jsonrpc\":\"2.0\"}",
        "changed file:///p.stt 5 2:0 2:0 '/* ä😀 */ ' ",
    ),
    (
        b"{\"method\":\"textDocument\\/hover\",\"id\":2,\"params\":{\"position\":{\"line\":25,\"character\":12},\"textDocument\":{\"uri\":\"file:\\/\\/\\/p.stt\"}},\"jsonrpc\":\"2.0\"}",
        "2 file:///p.stt Hover(Place { line: 25, character: 12 }) ",
    ),
    (
        b"{\"method\":\"textDocument\\/documentSymbol\",\"id\":4,\"params\":{\"textDocument\":{\"uri\":\"file:\\/\\/\\/p.stt\"}},\"jsonrpc\":\"2.0\"}",
        "4 file:///p.stt Symbols ",
    ),
    (
        b"{\"method\":\"textDocument\\/didClose\",\"params\":{\"textDocument\":{\"uri\":\"file:\\/\\/\\/p.stt\"}},\"jsonrpc\":\"2.0\"}",
        "closed file:///p.stt ",
    ),
    (
        b"{\"method\":\"shutdown\",\"id\":5,\"jsonrpc\":\"2.0\"}",
        "5 shutdown ",
    ),
    (b"{\"method\":\"exit\",\"jsonrpc\":\"2.0\"}", "exit "),
];

// As eglot sends them: changes gathered, and `null` for no parameters.
static EGLOT: [(&[u8], &str); 8] = [
    (
        b"{\"jsonrpc\":\"2.0\",\"method\":\"textDocument/didOpen\",\"params\":{\"textDocument\":{\"uri\":\"file:///p.stt\",\"version\":0,\"languageId\":\"snl\",\"text\":\"int x;\\n\"}}}",
        "opened file:///p.stt 0 'int x;\n' ",
    ),
    (
        b"{\"jsonrpc\":\"2.0\",\"method\":\"workspace/didChangeConfiguration\",\"params\":{\"settings\":{}}}",
        "other ",
    ),
    (
        b"{\"jsonrpc\":\"2.0\",\"method\":\"textDocument/didChange\",\"params\":{\"textDocument\":{\"uri\":\"file:///p.stt\",\"version\":8},\"contentChanges\":[{\"range\":{\"start\":{\"line\":29,\"character\":5},\"end\":{\"line\":29,\"character\":5}},\"rangeLength\":0,\"text\":\";\\n\"},{\"range\":{\"start\":{\"line\":29,\"character\":4},\"end\":{\"line\":30,\"character\":0}},\"rangeLength\":0,\"text\":\"\"}]}}",
        "changed file:///p.stt 8 29:5 29:5 ';\n' 29:4 30:0 '' ",
    ),
    (
        b"{\"jsonrpc\":\"2.0\",\"id\":3,\"method\":\"textDocument/definition\",\"params\":{\"textDocument\":{\"uri\":\"file:///p.stt\"},\"position\":{\"line\":2,\"character\":24}}}",
        "3 file:///p.stt Definition(Place { line: 2, character: 24 }) ",
    ),
    (
        b"{\"jsonrpc\":\"2.0\",\"id\":4,\"method\":\"textDocument/references\",\"params\":{\"textDocument\":{\"uri\":\"file:///p.stt\"},\"position\":{\"line\":2,\"character\":24},\"context\":{\"includeDeclaration\":false}}}",
        "4 file:///p.stt References { place: Place { line: 2, character: 24 }, includes_declaration: false } ",
    ),
    (
        b"{\"jsonrpc\":\"2.0\",\"id\":4,\"method\":\"textDocument/documentHighlight\",\"params\":{\"textDocument\":{\"uri\":\"file:///p.stt\"},\"position\":{\"line\":2,\"character\":24}}}",
        "4 file:///p.stt Highlights(Place { line: 2, character: 24 }) ",
    ),
    (
        b"{\"jsonrpc\":\"2.0\",\"id\":5,\"method\":\"shutdown\",\"params\":null}",
        "5 shutdown ",
    ),
    (
        b"{\"jsonrpc\":\"2.0\",\"method\":\"exit\",\"params\":null}",
        "exit ",
    ),
];

#[test]
fn hears_what_editors_send(rt: HostRuntime) -> Result<(), Fail> {
    expect_all(&rt, &NEOVIM)?;
    expect_all(&rt, &EGLOT)
}

static ENCODINGS: [(&[u8], &str); 5] = [
    (
        b"{\"id\":0,\"method\":\"initialize\",\"params\":{\"capabilities\":{\"general\":{\"positionEncodings\":[\"utf-32\",\"utf-8\",\"utf-16\"]}}}}",
        "0 initialize utf-8 ",
    ),
    (
        b"{\"id\":0,\"method\":\"initialize\",\"params\":{\"capabilities\":{\"general\":{\"positionEncodings\":[\"utf-16\",8,\"UTF-8\"]}}}}",
        "0 initialize utf-16 ",
    ),
    (
        b"{\"id\":0,\"method\":\"initialize\",\"params\":{\"capabilities\":{\"general\":{\"positionEncodings\":\"utf-8\"}}}}",
        "0 initialize utf-16 ",
    ),
    (
        b"{\"id\":0,\"method\":\"initialize\",\"params\":{\"capabilities\":{\"general\":null}}}",
        "0 initialize utf-16 ",
    ),
    (
        b"{\"id\":0,\"method\":\"initialize\"}",
        "0 initialize utf-16 ",
    ),
];

// A string or an integer is an id. Numbers with a point and those of more than 64 bits are floats.
static IDS: [(&[u8], &str); 12] = [
    (
        b"{\"id\":\"a\\u00e4\",\"method\":\"shutdown\"}",
        "text aä shutdown ",
    ),
    (b"{\"id\":\"\",\"method\":\"shutdown\"}", "text  shutdown "),
    (
        b"{\"id\":18446744073709551615,\"method\":\"shutdown\"}",
        "18446744073709551615 shutdown ",
    ),
    (
        b"{\"id\":18446744073709551616,\"method\":\"shutdown\"}",
        "no message ",
    ),
    (
        b"{\"id\":-9223372036854775808,\"method\":\"shutdown\"}",
        "below -9223372036854775808 shutdown ",
    ),
    (b"{\"id\":-1,\"method\":\"shutdown\"}", "below -1 shutdown "),
    (b"{\"id\":-0,\"method\":\"shutdown\"}", "no message "),
    (b"{\"id\":1.0,\"method\":\"shutdown\"}", "no message "),
    (b"{\"id\":null,\"method\":\"shutdown\"}", "no message "),
    (b"{\"id\":[1],\"method\":\"shutdown\"}", "no message "),
    // the last one of two counts
    (
        b"{\"id\":1,\"id\":2,\"method\":\"shutdown\"}",
        "2 shutdown ",
    ),
    (b"{\"method\":\"shutdown\"}", "other "),
];

// Bodies that are no request and no notification.
static OTHERS: [(&[u8], &str); 21] = [
    (b"", "no JSON "),
    (b"{]}", "no JSON "),
    (b"{\"method\":\"exit\"", "no JSON "),
    (b"{\"method\":\"exit\"} x", "no JSON "),
    (b"{\"method\":\"ex\xffit\"}", "no JSON "),
    (b"{\"method\":\"\\ud83d\"}", "no JSON "),
    (b"{\"method\":NaN}", "no JSON "),
    (b"{\"method\":\"exit\",\"a\":1e999}", "no JSON "),
    (
        b"{\"method\":\"exit\",\"a\":[{\"b\":[0,-1e999]}]}",
        "no JSON ",
    ),
    (b"{\"method\":\"exit\",\"a\":[1e308,-1e-999]}", "exit "),
    (b"{\"method\":\"initialized\",\"method\":\"exit\"}", "exit "),
    (b"{\"m\\u0065thod\":\"\\u0065xit\"}", "exit "),
    (b"null", "no message "),
    (b"\"exit\"", "no message "),
    (b"[{\"method\":\"exit\"}]", "no message "),
    (b"{}", "no message "),
    (b"{\"id\":1}", "no message "),
    (b"{\"method\":7}", "no message "),
    (b"{\"id\":1,\"result\":null}", "response "),
    (b"{\"id\":1,\"error\":{\"code\":-32601}}", "response "),
    (b"{\"method\":\"exit\",\"result\":null}", "exit "),
];

#[test]
fn tells_ids_and_encodings(rt: HostRuntime) -> Result<(), Fail> {
    expect_all(&rt, &ENCODINGS)?;
    expect_all(&rt, &IDS)?;
    expect_all(&rt, &OTHERS)
}

// Parameters that do not fit, and methods that there are not.
static MISFITS: [(&[u8], &str); 19] = [
    (
        b"{\"id\":1,\"method\":\"textDocument/hover\"}",
        "1 invalid params ",
    ),
    (
        b"{\"id\":1,\"method\":\"textDocument/hover\",\"params\":{\"textDocument\":{\"uri\":\"u\"},\"position\":{\"line\":1}}}",
        "1 invalid params ",
    ),
    (
        b"{\"id\":1,\"method\":\"textDocument/definition\",\"params\":{\"textDocument\":{\"uri\":\"u\"},\"position\":{\"line\":-1,\"character\":0}}}",
        "1 invalid params ",
    ),
    (
        b"{\"id\":1,\"method\":\"textDocument/documentSymbol\",\"params\":[\"u\"]}",
        "1 invalid params ",
    ),
    (
        b"{\"id\":1,\"method\":\"textDocument/references\",\"params\":{\"textDocument\":{\"uri\":\"u\"},\"position\":{\"line\":1,\"character\":0}}}",
        "1 invalid params ",
    ),
    (
        b"{\"id\":1,\"method\":\"textDocument/references\",\"params\":{\"textDocument\":{\"uri\":\"u\"},\"position\":{\"line\":1,\"character\":0},\"context\":{\"includeDeclaration\":\"true\"}}}",
        "1 invalid params ",
    ),
    (
        b"{\"id\":1,\"method\":\"textDocument/rename\"}",
        "1 method not found ",
    ),
    (b"{\"id\":1,\"method\":\"exit\"}", "1 method not found "),
    (
        b"{\"method\":\"$/cancelRequest\",\"params\":{\"id\":1}}",
        "other ",
    ),
    (b"{\"method\":\"textDocument/didOpen\"}", "all lost "),
    (
        b"{\"method\":\"textDocument/didOpen\",\"params\":{\"textDocument\":{\"uri\":\"u\",\"version\":1}}}",
        "lost u ",
    ),
    (
        b"{\"method\":\"textDocument/didOpen\",\"params\":{\"textDocument\":{\"uri\":\"u\",\"version\":-1,\"text\":\"\"}}}",
        "opened u - '' ",
    ),
    (
        b"{\"method\":\"textDocument/didChange\",\"params\":{\"textDocument\":{\"uri\":\"u\",\"version\":null},\"contentChanges\":[]}}",
        "changed u - ",
    ),
    (
        b"{\"method\":\"textDocument/didChange\",\"params\":{\"textDocument\":{\"uri\":\"u\"},\"contentChanges\":[{\"text\":\"a\"},{\"text\":\"b\"}]}}",
        "changed u - 'a' 'b' ",
    ),
    (
        b"{\"method\":\"textDocument/didChange\",\"params\":{\"textDocument\":{\"uri\":\"u\"},\"contentChanges\":[{\"text\":\"a\"},{}]}}",
        "lost u ",
    ),
    (
        b"{\"method\":\"textDocument/didChange\",\"params\":{\"textDocument\":{\"uri\":\"u\"},\"contentChanges\":[{\"text\":\"a\",\"range\":{\"start\":{\"line\":0,\"character\":1.5},\"end\":{\"line\":0,\"character\":2}}}]}}",
        "lost u ",
    ),
    (
        b"{\"method\":\"textDocument/didChange\",\"params\":{\"textDocument\":{\"uri\":\"u\"}}}",
        "lost u ",
    ),
    (
        b"{\"method\":\"textDocument/didChange\",\"params\":{\"contentChanges\":[{\"text\":\"a\"}]}}",
        "all lost ",
    ),
    (
        b"{\"method\":\"textDocument/didClose\",\"params\":{}}",
        "other ",
    ),
];

#[test]
fn tells_what_does_not_fit(rt: HostRuntime) -> Result<(), Fail> {
    expect_all(&rt, &MISFITS)
}

/// `{"id":1,"method":"shutdown","params":[[..]]}`, which nests so deep.
fn nested(alloc: Global, levels: usize) -> Result<Vec<u8>, Fail> {
    let mut body = Vec::from_slice(alloc, b"{\"id\":1,\"method\":\"shutdown\",\"params\":")?;
    for _ in 1..levels {
        body.push(b'[')?;
    }
    for _ in 1..levels {
        body.push(b']')?;
    }
    body.push(b'}')?;
    Ok(body)
}

#[test]
fn reads_what_nests_127_levels_deep(rt: HostRuntime) -> Result<(), Fail> {
    for (levels, wanted) in [(127, "1 shutdown "), (128, "no JSON ")] {
        let body = nested(rt.alloc(), levels)?;
        let words = heard(rt.alloc(), &body)?;
        assert!(rt; words.as_slice() == wanted.as_bytes(), "{levels} levels");
    }
    Ok(())
}
