//! Texts with the lines and files of offsets in them, told from the rules of line markers.

use snl_cut::Count;
use snl_lex::{Line, LineList, lex, line_of};
use std::alloc::Global;
use std::test::Fail;

// A text, an offset, the number of its line, and where the name of its file is.
static LINES: [(&[u8], usize, usize, Option<(usize, usize)>); 31] = [
    (b"", 0, 1, None),
    (b"", 9, 1, None),
    (b"a\nb\nc", 0, 1, None),
    (b"a\nb\nc", 1, 1, None),
    (b"a\nb\nc", 2, 2, None),
    (b"a\nb\nc", 4, 3, None),
    (b"a\nb\nc", 99, 3, None),
    (b"# 10 \"a.st\"\nx\ny", 0, 1, None),
    (b"# 10 \"a.st\"\nx\ny", 11, 1, None),
    (b"# 10 \"a.st\"\nx\ny", 12, 10, Some((6, 4))),
    (b"# 10 \"a.st\"\nx\ny", 14, 11, Some((6, 4))),
    (b"# 7 \"a.st\"\nx", 11, 7, Some((5, 4))),
    (b"x\n# 100\ny", 8, 100, None),
    (b"x\n#pragma x\ny", 12, 3, None),
    (b"# 5 \"f\"", 7, 1, None),
    (b"# 5 \"f\"", 99, 1, None),
    (b"#5\"f\"\nx", 6, 2, None),
    (b"#line5\nx", 7, 2, None),
    (b"#line 5\nx", 8, 5, None),
    (b"# \tline\t 5 x\nx", 13, 5, None),
    (b"# 10 \"\"\nx", 8, 10, Some((6, 0))),
    (b"# 3 \"f\"\n# 9\r\"g\"\nx", 16, 9, Some((5, 1))),
    (b"# 3 \"f\"\n# 9\nx", 12, 9, Some((5, 1))),
    (b"# 0\nx\ny", 4, 0, None),
    (b"# 0\nx\ny", 6, 1, None),
    (b"# 2147483647\nx", 13, 2147483647, None),
    (b"# 2147483648\nx", 13, 2, None),
    (b"# 00000000009\nx", 14, 2, None),
    (b"# 0000000009 \"a\\\"b\" 3\nx", 22, 9, Some((14, 4))),
    (b"# 4 \"a\nx", 7, 4, None),
    (b"/*\n# 5\n*/ x", 10, 3, None),
];

// The line of an offset by the pieces of a text, and by its lists.
fn lines_at(alloc: Global, text: &[u8], offset: usize) -> Result<[Line; 2], Fail> {
    let pieces = lex(alloc, text, &mut Count::new())?;
    let lines = LineList::of(alloc, text, &pieces)?;
    Ok([line_of(text, &pieces, offset), lines.line_by(text, offset)])
}

#[test]
fn tells_the_line_of_an_offset(rt: HostRuntime) -> Result<(), Fail> {
    for (text, offset, number, file) in &LINES {
        let wanted = Line {
            number: *number,
            file: *file,
        };
        let told = lines_at(rt.alloc(), text, *offset)?;
        assert_eq!(rt; told, [wanted, wanted], "{text:?} at {offset}");
    }
    Ok(())
}
