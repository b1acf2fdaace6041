//! Programs with thousands of faults at once, several in each state and each group of declarations:
//! keys are typed among them, all warnings go and come, a name that is missing in many states is
//! declared, and a brace too many comes and goes.

use crate::broken::break_and_mend;
use crate::editor::Editor;
use crate::faults::Faults;
use crate::maker::Maker;
use crate::numbers::Numbers;
use crate::places::place_after;
use crate::program::{Shape, program_of};
use crate::typing::{Programs, type_in, type_template};
use anyhow::Result;
use std::alloc::Global;

// Types an item between groups of declarations, and tells where it begins.
fn type_item(editor: &mut Editor, maker: &mut Maker, item: &str) -> Result<usize> {
    let from = maker.numbers.below(editor.text().len() / 4);
    let at = place_after(editor.text(), from, b";\n\n");
    type_template(editor, maker, at, item)?;
    Ok(at)
}

// Turns all warnings off, key by key, and then on by one edit.
fn switch_warnings(editor: &mut Editor, maker: &mut Maker) -> Result<()> {
    let at = type_item(editor, maker, "option -w;\n")?;
    let sign = at.saturating_add(7);
    editor.replace(sign, sign.saturating_add(1), b"+")
}

// Ends a state set too early, so that all its further states are out of place, and mends that.
fn end_a_set(editor: &mut Editor, maker: &mut Maker) -> Result<()> {
    let at = place_after(editor.text(), editor.text().len() / 2, b"    }\n");
    break_and_mend(editor, maker, at, b"}\n")
}

fn edit_faulty(editor: &mut Editor, maker: &mut Maker, times: usize) -> Result<()> {
    editor.open(&maker.text)?;
    type_in(editor, maker, times)?;
    switch_warnings(editor, maker)?;
    type_item(editor, maker, "int missing@d;\n")?;
    end_a_set(editor, maker)
}

// What is edited, in each round.
static PROGRAMS: [Programs; 3] = [
    Programs {
        size: 50_000,
        count: 2,
        times: 12,
    },
    Programs {
        size: 400_000,
        count: 1,
        times: 3,
    },
    Programs {
        size: 850_000,
        count: 1,
        times: 1,
    },
];

fn edit_some(
    alloc: Global,
    editor: &mut Editor,
    numbers: &mut Numbers,
    programs: &Programs,
) -> Result<()> {
    let shape = Shape {
        faults: Faults::Everywhere,
        ..Shape::of(programs.size)
    };
    for _ in 0..programs.count {
        let mut maker = program_of(alloc, numbers.part(), shape)?;
        edit_faulty(editor, &mut maker, programs.times)?;
    }
    Ok(())
}

/// Opens programs of several sizes, and edits each.
pub fn run(alloc: Global, editor: &mut Editor, numbers: &mut Numbers, rounds: usize) -> Result<()> {
    for _ in 0..rounds {
        for programs in &PROGRAMS {
            edit_some(alloc, editor, numbers, programs)?;
        }
    }
    Ok(())
}
