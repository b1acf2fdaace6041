//! Broken texts: a block pasted half, marks of a merge, a brace too many, an open comment, a fault
//! in one state of four; and texts that tools made: a list of 60,000 names, deep blocks, a long
//! condition. Each is broken, looked at, mended and looked at again.

use crate::editor::Editor;
use crate::faults::Faults;
use crate::maker::Maker;
use crate::numbers::Numbers;
use crate::places::place_after;
use crate::program::{Shape, program_of};
use crate::typing::type_in;
use anyhow::Result;
use std::alloc::Global;

/// Puts bytes into the text, and then a comment in their place.
pub fn break_and_mend(
    editor: &mut Editor,
    maker: &mut Maker,
    at: usize,
    bytes: &[u8],
) -> Result<()> {
    editor.replace(at, at, bytes)?;
    maker.text.clear();
    maker.put_template("/* @w */")?;
    editor.replace(at, at.saturating_add(bytes.len()), &maker.text)
}

// A place after such bytes, at a part of the text of which there are eight.
fn place_in(editor: &Editor, part: usize, wanted: &[u8]) -> usize {
    let from = (editor.text().len() / 8).wrapping_mul(part);
    place_after(editor.text(), from, wanted)
}

// Pastes the front of a part of the text before a state.
fn paste_half(alloc: Global, editor: &mut Editor, maker: &mut Maker, part: usize) -> Result<()> {
    let begin = place_in(editor, 4, b"    state ");
    let end = begin.saturating_add(maker.numbers.below(900));
    let half = Vec::from_slice(alloc, editor.text().get(begin..end).unwrap_or(b"{"))?;
    let at = place_in(editor, part, b"    }\n");
    break_and_mend(editor, maker, at, &half)
}

// Puts the three marks of a merge around lines, and then comments in their place.
fn merge(editor: &mut Editor, maker: &mut Maker, part: usize) -> Result<()> {
    let at = place_in(editor, part, b";\n");
    let first = place_after(editor.text(), at.saturating_add(200), b";\n");
    let last = place_after(editor.text(), first.saturating_add(200), b";\n");
    editor.edit(last, last, b">>>>>>> theirs\n")?;
    editor.edit(first, first, b"=======\n")?;
    editor.replace(at, at, b"<<<<<<< ours\n")?;
    editor.edit(at, at.saturating_add(13), b"// their  \n")?;
    let first = place_after(editor.text(), at, b"=======\n").saturating_sub(8);
    editor.edit(first, first.saturating_add(8), b"// and\n")?;
    let last = place_after(editor.text(), first, b">>>>>>> theirs\n").saturating_sub(15);
    maker.text.clear();
    maker.put_template("// @w\n")?;
    editor.replace(last, last.saturating_add(15), &maker.text)
}

fn break_one(alloc: Global, editor: &mut Editor, maker: &mut Maker, round: usize) -> Result<()> {
    let part = maker.numbers.below(7);
    match round % 5 {
        0 => paste_half(alloc, editor, maker, part.max(4)),
        1 => merge(editor, maker, part),
        2 => {
            let at = place_in(editor, 3, b"    }\n");
            break_and_mend(editor, maker, at, b"}\n")
        }
        3 => {
            let at = place_in(editor, part, b"\n");
            break_and_mend(editor, maker, at, b"/*")
        }
        _ => {
            let at = place_in(editor, part, b" {\n");
            break_and_mend(editor, maker, at, b"{\n")
        }
    }
}

// Breaks a program of about so many bytes at several places.
fn break_program(alloc: Global, editor: &mut Editor, numbers: Numbers, size: usize) -> Result<()> {
    let mut maker = program_of(alloc, numbers, Shape::of(size))?;
    editor.open(&maker.text)?;
    for round in 0..10 {
        break_one(alloc, editor, &mut maker, round)?;
    }
    Ok(())
}

// Types in a program with a fault in one state of four.
fn type_in_faulty(
    alloc: Global,
    editor: &mut Editor,
    numbers: Numbers,
    size: usize,
    times: usize,
) -> Result<()> {
    let shape = Shape {
        faults: Faults::Many,
        ..Shape::of(size)
    };
    let mut maker = program_of(alloc, numbers, shape)?;
    editor.open(&maker.text)?;
    type_in(editor, &mut maker, times)
}

impl Maker {
    // Adds one declaration of so many names.
    fn put_list(&mut self, names: usize) -> Result<()> {
        self.put("program list\nint first")?;
        for name in 0..names {
            self.put(", ")?;
            self.put_state(name)?;
        }
        self.put(";\nss one { state only { when (first) { } exit } }\n")
    }

    // Adds functions with so many blocks in one another.
    fn put_blocks(&mut self, functions: usize) -> Result<()> {
        self.put("program blocks\nint first;\n")?;
        for function in 0..functions {
            self.group = function;
            self.put_template("int deep@g(int n) {\n    int level = @d;\n")?;
            for _ in 0..90 {
                self.put_template("{ int level = first + @d; n = level * @k;\n")?;
            }
            for _ in 0..90 {
                self.put("}")?;
            }
            self.put_template("\n    return n;\n}\n")?;
        }
        self.put("ss one { state only { when (first) { } exit } }\n")
    }

    // Adds a state with a condition of so many comparisons.
    fn put_chain(&mut self, comparisons: usize) -> Result<()> {
        self.put("program chain\nint first, second;\nss one { state only { when (first")?;
        for _ in 0..comparisons {
            self.put_template(" + @k > second * @d ||\n first")?;
        }
        self.put(") { } exit } }\n")
    }
}

// Types a name and a comma, takes the name away, puts a comment in the place of the comma, and
// types in that.
fn type_and_mend(editor: &mut Editor, maker: &mut Maker, at: usize) -> Result<()> {
    let after = at.saturating_add(1);
    editor.type_at(at, b"x,")?;
    editor.erase_before(after, 1)?;
    maker.text.clear();
    maker.put_template("/* @d */")?;
    editor.replace(at, after, &maker.text)?;
    editor.type_at(at.saturating_add(3), b"x")
}

// Opens the text that a maker has, and types in its middle and near its end.
fn type_in_made(editor: &mut Editor, maker: &mut Maker) -> Result<()> {
    editor.open(&maker.text)?;
    for part in [4, 7] {
        let at = place_in(editor, part, b" ");
        type_and_mend(editor, maker, at)?;
    }
    Ok(())
}

fn type_in_hostile(alloc: Global, editor: &mut Editor, numbers: Numbers) -> Result<()> {
    let mut maker = Maker::new(alloc, numbers, 1);
    maker.states = 60_000;
    maker.put_list(60_000)?;
    type_in_made(editor, &mut maker)?;
    maker.text.clear();
    maker.put_blocks(80)?;
    type_in_made(editor, &mut maker)?;
    maker.text.clear();
    maker.put_chain(10_000)?;
    type_in_made(editor, &mut maker)
}

/// Breaks and mends programs of several sizes, types in faulty ones and in what tools made, for
/// each round of the job.
pub fn run(alloc: Global, editor: &mut Editor, numbers: &mut Numbers, rounds: usize) -> Result<()> {
    for _ in 0..rounds {
        break_program(alloc, editor, numbers.part(), 20_000)?;
        break_program(alloc, editor, numbers.part(), 200_000)?;
        break_program(alloc, editor, numbers.part(), 900_000)?;
        type_in_faulty(alloc, editor, numbers.part(), 50_000, 12)?;
        type_in_faulty(alloc, editor, numbers.part(), 400_000, 4)?;
        type_in_hostile(alloc, editor, numbers.part())?;
    }
    Ok(())
}
