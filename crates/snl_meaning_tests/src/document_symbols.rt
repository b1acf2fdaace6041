//! The symbols of a text.

use snl_questions::{DocumentSymbol, DocumentSymbolKind, symbols};
use snl_session::{Session, Span};
use std::process::Abort;
use std::test::Fail;

// A state is faulty, one has no name, and one is in no state set. Two state sets are not closed: the
// first of these ends with the item before the second, a header that is out of place.
const TEXT: &[u8] =
    b"program p (\"+r\")\nint x, *v[3];\nevflag e;\nforeign g, h;\nassign x to \"pv\";\nint k(int q);\nstruct s { int m; };\nvoid f(int q) { int r; }\noption +c;\nss a {\n  int y;\n  state one {\n    double z;\n    evflag w;\n    when (x) { int t; } state two\n  }\n  state two { when (y { } exit }\n} // a\nstate lone { int n; }\nss b {\n  state { int o; }\n  state two { }\n  program q\nss c {\n";

// Of each symbol its kind, its depth, and where its name begins, with its length; then the same of
// its extent.
type Row = (DocumentSymbolKind, usize, [usize; 2], [usize; 2]);

static SYMBOLS: [Row; 19] = [
    (DocumentSymbolKind::Program, 0, [8, 1], [0, 16]),
    (DocumentSymbolKind::Variable, 0, [21, 1], [17, 13]),
    (DocumentSymbolKind::Variable, 0, [25, 1], [17, 13]),
    (DocumentSymbolKind::EventFlag, 0, [38, 1], [31, 9]),
    (DocumentSymbolKind::Variable, 0, [49, 1], [41, 13]),
    (DocumentSymbolKind::Variable, 0, [52, 1], [41, 13]),
    (DocumentSymbolKind::Function, 0, [113, 1], [108, 24]),
    (DocumentSymbolKind::StateSet, 0, [147, 1], [144, 130]),
    (DocumentSymbolKind::Variable, 1, [157, 1], [153, 6]),
    (DocumentSymbolKind::State, 1, [168, 3], [162, 77]),
    (DocumentSymbolKind::Variable, 2, [185, 1], [185, 1]),
    (DocumentSymbolKind::EventFlag, 2, [199, 1], [199, 1]),
    (DocumentSymbolKind::State, 1, [248, 3], [242, 30]),
    (DocumentSymbolKind::State, 0, [286, 4], [280, 21]),
    (DocumentSymbolKind::Variable, 1, [297, 1], [297, 1]),
    (DocumentSymbolKind::StateSet, 0, [305, 1], [302, 53]),
    (DocumentSymbolKind::State, 1, [336, 3], [330, 13]),
    (DocumentSymbolKind::Program, 1, [354, 1], [346, 9]),
    (DocumentSymbolKind::StateSet, 0, [359, 1], [356, 6]),
];

fn span_of([start, len]: [usize; 2]) -> Span {
    Span { start, len }
}

fn symbol_of((kind, depth, name, extent): Row) -> DocumentSymbol {
    DocumentSymbol {
        kind,
        name: span_of(name),
        extent: span_of(extent),
        depth,
    }
}

#[test]
fn symbols_are_told(rt: HostRuntime) -> Result<(), Fail> {
    let mut session = Session::new(rt.alloc())?;
    session.edit(0, 0, TEXT)?;
    let found = symbols(rt.alloc(), session.text(), &session.kept().lists)?;
    assert!(rt; found.len() == SYMBOLS.len());
    for (number, wanted) in SYMBOLS.iter().enumerate() {
        let is_told = found.get(number).copied() == Some(symbol_of(*wanted));
        assert!(rt; is_told, "symbol {number}");
    }
    Ok(())
}
