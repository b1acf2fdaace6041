//! Lists of pieces and of lines that edits change in place: each time they are those made anew.

ghost use Rattle.snl_cut.specs.Cut.{IsEdit};
ghost use Rattle.snl_lex.specs.LineList.{IsLineList};
ghost use Rattle.snl_lex.specs.PieceList.{piece_ends, piece_kinds};
ghost use Rattle.snl_lex.specs.Shift.{marker_count};
ghost use Rattle.std.specs.Prelude.{◌≡◌, ◌<◌, ◌≤◌, ◌^◌, IfOk, length};

use crate::edits::edited;
use snl_cut::Count;
use snl_lex::{LineList, PieceList, TextEdit, lex, line_of};
use std::alloc::Global;
use std::process::Abort;
use std::test::Fail;

// The lists of a text.
#[derive(Drop)]
struct Lists {
    pieces: PieceList,
    lines: LineList,
}

fn lists_of(alloc: Global, text: &[u8]) -> Result<Lists, Fail>
    requires { length text.now < 2 ^ 32 }
    ensures ends { IfOk result (λ l. l.pieces.ends.items ≡ piece_ends text.now) }
    ensures kinds { IfOk result (λ l. l.pieces.kinds.items ≡ piece_kinds text.now) }
    ensures markers { IfOk result (λ l. l.pieces.markers ≡ marker_count text.now) }
    ensures lines { IfOk result (λ l. IsLineList text.now l.lines) }
{
    let pieces = lex(alloc, text, &mut Count::new())?;
    Ok(Lists {
        pieces: PieceList::of(alloc, &pieces)?,
        lines: LineList::of(alloc, text, &pieces)?,
    })
}

// Changes the lists of the old text to those of the new one.
fn change(alloc: Global, lists: &mut Lists, edit: &TextEdit) -> Result<(), Fail>
    requires ends { lists.old.pieces.ends.items ≡ piece_ends edit.now.old.now }
    requires kinds { lists.old.pieces.kinds.items ≡ piece_kinds edit.now.old.now }
    requires markers { lists.old.pieces.markers ≡ marker_count edit.now.old.now }
    requires lines { IsLineList edit.now.old.now lists.old.lines }
    ensures { IfOk result (λ _. IsLineList edit.now.text.now lists.new.lines) }
{
    let change = lists.pieces.change(alloc, edit, &mut Count::new())?;
    let made = LineList::made(alloc, edit, &change)?;
    lists.pieces.reserve(change.list.ends.len())?;
    lists.lines.reserve(&made)?;
    lists.pieces.commit(edit, &change);
    lists.lines.commit(edit, &change, &made);
    Ok(())
}

// An edit of a text: other bytes for those from one offset up to another.
static EDITS: [(&[u8], usize, usize, &[u8]); 18] = [
    // typing
    (b"", 0, 0, b"int x;\n"),
    (b"int x;\nint y;\n", 5, 5, b"y"),
    (b"int x;\nint y;\n", 3, 3, b"\n"),
    (b"a = \"b\";\nc\n", 5, 5, b"\\"),
    (b"a = \"b\";\nc\n", 6, 7, b""),
    (b"a /* b */ c\n/* d */\n", 2, 3, b""),
    (b"a / b */ c\n/* d */\n", 3, 3, b"*"),
    // markers
    (b"# 10 \"a.st\"\nx\n# 20\ny\n", 0, 0, b"\n"),
    (b"# 10 \"a.st\"\nx\n# 20\ny\n", 2, 3, b""),
    (b"# 10 \"a.st\"\nx\n# 20\ny\n", 11, 12, b""),
    (b"# 10 \"a.st\"\nx\n# 20\ny\n", 12, 13, b"# 5 \"b.st\"\nz"),
    (b"# 10 \"a.st\"\nx\n# 20 \"b\"\ny\n", 0, 12, b""),
    (b"x\n# 20 \"b\"\ny\n# 30\nz", 3, 6, b"line 4000"),
    (b"x\n# 20 \"b\"\ny\n# 30\nz", 0, 1, b"/*"),
    // pasting and cutting
    (
        b"int x;\n",
        7,
        7,
        b"# 3 \"c.st\"\nss a {\nstate b {\n}\n}\n",
    ),
    (b"ss a {\nstate b {\n}\n}\n# 4\n", 0, 25, b""),
    (b"%{ a\n}%\n# 7\nb\n", 0, 1, b""),
    (b"a\n\n\nb\n# 9\nc\nd", 1, 4, b" "),
];

fn expect_same(rt: &impl Abort, kept: &Lists, anew: &Lists) {
    assert!(rt; kept.pieces.ends == anew.pieces.ends && kept.pieces.kinds == anew.pieces.kinds);
    assert!(rt; kept.lines.ends == anew.lines.ends && kept.lines.markers == anew.lines.markers);
    assert!(rt; kept.lines.naming == anew.lines.naming);
}

// The line of each offset, by the lists and by the pieces.
fn expect_lines(rt: &impl Abort, alloc: Global, kept: &LineList, text: &[u8]) -> Result<(), Fail>
    requires small { length text.now < 2000 }
    requires lines { IsLineList text.now kept.now }
{
    let pieces = lex(alloc, text, &mut Count::new())?;
    for offset in 0..text.len() + 2 {
        let wanted = line_of(text, &pieces, offset);
        assert!(rt;
            kept.line_by(text, offset) == wanted,
            "{text:?} at {offset}"
        );
    }
    Ok(())
}

fn expect_edited(rt: &impl Abort, alloc: Global, edit: &TextEdit) -> Result<(), Fail>
    requires old { length edit.now.old.now < 1000 }
    requires text { length edit.now.text.now < 2000 }
{
    let mut kept = lists_of(alloc, edit.old)?;
    change(alloc, &mut kept, edit)?;
    expect_same(rt, &kept, &lists_of(alloc, edit.text)?);
    expect_lines(rt, alloc, &kept.lines, edit.text)
}

fn check(
    rt: &impl Abort,
    alloc: Global,
    text: &[u8],
    start: usize,
    stop: usize,
    new: &[u8],
) -> Result<(), Fail> {
    assert!(rt; start <= stop && stop <= text.len() && text.len() < 1000 && new.len() < 1000);
    let now = edited(alloc, text, start, stop, new)?;
    assert!(rt; now.len() < 2000);
    let edit = TextEdit {
        old: text,
        text: &now,
        start,
        old_stop: stop,
        new_stop: start + new.len(),
    };
    expect_edited(rt, alloc, &edit)
}

#[test]
fn lists_after_an_edit_are_those_made_anew(rt: HostRuntime) -> Result<(), Fail> {
    for (text, start, stop, new) in &EDITS {
        check(&rt, rt.alloc(), text, *start, *stop, new)?;
    }
    Ok(())
}
