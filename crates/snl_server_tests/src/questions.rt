//! What is answered to questions on a document.

use crate::served::expect_all;
use snl_docs::Docs;
use snl_shown::SessionText;
use std::test::Fail;

// The answers to `initialize`, as it is sent in the rows of these tests.
const INITIALIZED_IN_UTF_8: &str =
    "{\"id\":0,\"jsonrpc\":\"2.0\",\"result\":{\"capabilities\":{\"definitionProvider\":true,\"documentHighlightProvider\":true,\"documentSymbolProvider\":true,\"hoverProvider\":true,\"positionEncoding\":\"utf-8\",\"referencesProvider\":true,\"textDocumentSync\":{\"change\":2,\"openClose\":true}},\"serverInfo\":{\"name\":\"snl_lsp\"}}}\n";

pub const INITIALIZED_IN_UTF_16: &str =
    "{\"id\":1,\"jsonrpc\":\"2.0\",\"result\":{\"capabilities\":{\"definitionProvider\":true,\"documentHighlightProvider\":true,\"documentSymbolProvider\":true,\"hoverProvider\":true,\"positionEncoding\":\"utf-16\",\"referencesProvider\":true,\"textDocumentSync\":{\"change\":2,\"openClose\":true}},\"serverInfo\":{\"name\":\"snl_lsp\"}}}\n";

// A message and the bodies that are answered to it, a line each. A document is opened, and its
// symbols are asked for. Then, right after `x` in the condition: where that is declared, what it
// is, and where it is named. White space means nothing, and nor does the program's name. The last
// document isn't open.
static QUESTIONS: [(&[u8], &str); 12] = [
    (
        b"{\"id\":0,\"method\":\"initialize\",\"params\":{\"capabilities\":{\"general\":{\"positionEncodings\":[\"utf-8\"]}}}}",
        INITIALIZED_IN_UTF_8,
    ),
    (
        b"{\"method\":\"textDocument/didOpen\",\"params\":{\"textDocument\":{\"uri\":\"f:p\",\"version\":1,\"text\":\"program p\\nint x; assign x to \\\"v\\\"; monitor x;\\nss s { state a { when (x) { } state a } }\\n\"}}}",
        "{\"jsonrpc\":\"2.0\",\"method\":\"textDocument/publishDiagnostics\",\"params\":{\"diagnostics\":[],\"uri\":\"f:p\",\"version\":1}}\n",
    ),
    (
        b"{\"id\":1,\"method\":\"textDocument/documentSymbol\",\"params\":{\"textDocument\":{\"uri\":\"f:p\"}}}",
        "{\"id\":1,\"jsonrpc\":\"2.0\",\"result\":[{\"children\":[],\"kind\":4,\"name\":\"p\",\"range\":{\"end\":{\"character\":9,\"line\":0},\"start\":{\"character\":0,\"line\":0}},\"selectionRange\":{\"end\":{\"character\":9,\"line\":0},\"start\":{\"character\":8,\"line\":0}}},{\"children\":[],\"kind\":13,\"name\":\"x\",\"range\":{\"end\":{\"character\":6,\"line\":1},\"start\":{\"character\":0,\"line\":1}},\"selectionRange\":{\"end\":{\"character\":5,\"line\":1},\"start\":{\"character\":4,\"line\":1}}},{\"children\":[{\"children\":[],\"kind\":5,\"name\":\"a\",\"range\":{\"end\":{\"character\":39,\"line\":2},\"start\":{\"character\":7,\"line\":2}},\"selectionRange\":{\"end\":{\"character\":14,\"line\":2},\"start\":{\"character\":13,\"line\":2}}}],\"kind\":3,\"name\":\"s\",\"range\":{\"end\":{\"character\":41,\"line\":2},\"start\":{\"character\":0,\"line\":2}},\"selectionRange\":{\"end\":{\"character\":4,\"line\":2},\"start\":{\"character\":3,\"line\":2}}}]}\n",
    ),
    (
        b"{\"id\":2,\"method\":\"textDocument/definition\",\"params\":{\"textDocument\":{\"uri\":\"f:p\"},\"position\":{\"line\":2,\"character\":24}}}",
        "{\"id\":2,\"jsonrpc\":\"2.0\",\"result\":{\"range\":{\"end\":{\"character\":5,\"line\":1},\"start\":{\"character\":4,\"line\":1}},\"uri\":\"f:p\"}}\n",
    ),
    (
        b"{\"id\":3,\"method\":\"textDocument/hover\",\"params\":{\"textDocument\":{\"uri\":\"f:p\"},\"position\":{\"line\":2,\"character\":24}}}",
        "{\"id\":3,\"jsonrpc\":\"2.0\",\"result\":{\"contents\":{\"kind\":\"plaintext\",\"value\":\"int x; assign x to \\\"v\\\"; monitor x;\\nchannel 0 \\\"v\\\" monitored\"},\"range\":{\"end\":{\"character\":24,\"line\":2},\"start\":{\"character\":23,\"line\":2}}}}\n",
    ),
    (
        b"{\"id\":7,\"method\":\"textDocument/references\",\"params\":{\"context\":{\"includeDeclaration\":true},\"textDocument\":{\"uri\":\"f:p\"},\"position\":{\"line\":2,\"character\":24}}}",
        "{\"id\":7,\"jsonrpc\":\"2.0\",\"result\":[{\"range\":{\"end\":{\"character\":5,\"line\":1},\"start\":{\"character\":4,\"line\":1}},\"uri\":\"f:p\"},{\"range\":{\"end\":{\"character\":15,\"line\":1},\"start\":{\"character\":14,\"line\":1}},\"uri\":\"f:p\"},{\"range\":{\"end\":{\"character\":33,\"line\":1},\"start\":{\"character\":32,\"line\":1}},\"uri\":\"f:p\"},{\"range\":{\"end\":{\"character\":24,\"line\":2},\"start\":{\"character\":23,\"line\":2}},\"uri\":\"f:p\"}]}\n",
    ),
    (
        b"{\"id\":8,\"method\":\"textDocument/references\",\"params\":{\"context\":{\"includeDeclaration\":false},\"textDocument\":{\"uri\":\"f:p\"},\"position\":{\"line\":2,\"character\":24}}}",
        "{\"id\":8,\"jsonrpc\":\"2.0\",\"result\":[{\"range\":{\"end\":{\"character\":15,\"line\":1},\"start\":{\"character\":14,\"line\":1}},\"uri\":\"f:p\"},{\"range\":{\"end\":{\"character\":33,\"line\":1},\"start\":{\"character\":32,\"line\":1}},\"uri\":\"f:p\"},{\"range\":{\"end\":{\"character\":24,\"line\":2},\"start\":{\"character\":23,\"line\":2}},\"uri\":\"f:p\"}]}\n",
    ),
    (
        b"{\"id\":9,\"method\":\"textDocument/documentHighlight\",\"params\":{\"textDocument\":{\"uri\":\"f:p\"},\"position\":{\"line\":2,\"character\":38}}}",
        "{\"id\":9,\"jsonrpc\":\"2.0\",\"result\":[{\"range\":{\"end\":{\"character\":14,\"line\":2},\"start\":{\"character\":13,\"line\":2}}},{\"range\":{\"end\":{\"character\":37,\"line\":2},\"start\":{\"character\":36,\"line\":2}}}]}\n",
    ),
    (
        b"{\"id\":10,\"method\":\"textDocument/references\",\"params\":{\"context\":{\"includeDeclaration\":true},\"textDocument\":{\"uri\":\"f:p\"},\"position\":{\"line\":2,\"character\":6}}}",
        "{\"id\":10,\"jsonrpc\":\"2.0\",\"result\":null}\n",
    ),
    (
        b"{\"id\":4,\"method\":\"textDocument/definition\",\"params\":{\"textDocument\":{\"uri\":\"f:p\"},\"position\":{\"line\":2,\"character\":6}}}",
        "{\"id\":4,\"jsonrpc\":\"2.0\",\"result\":null}\n",
    ),
    (
        b"{\"id\":5,\"method\":\"textDocument/hover\",\"params\":{\"textDocument\":{\"uri\":\"f:p\"},\"position\":{\"line\":0,\"character\":8}}}",
        "{\"id\":5,\"jsonrpc\":\"2.0\",\"result\":null}\n",
    ),
    (
        b"{\"id\":6,\"method\":\"textDocument/documentSymbol\",\"params\":{\"textDocument\":{\"uri\":\"f:q\"}}}",
        "{\"error\":{\"code\":-32602,\"message\":\"invalid params\"},\"id\":6,\"jsonrpc\":\"2.0\"}\n",
    ),
];

#[test]
fn answers_questions(rt: HostRuntime) -> Result<(), Fail> {
    let mut docs: Docs<SessionText> = Docs::new(rt.alloc());
    expect_all(&rt, &mut docs, &QUESTIONS)
}
