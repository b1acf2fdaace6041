//! Names are declared and renamed in a program that is open: each letter with a look, and the uses
//! by one edit each.

use crate::editor::Editor;
use crate::maker::Maker;
use crate::numbers::Numbers;
use crate::places::{next_name, place_after};
use crate::program::{Shape, program_of};
use crate::typing::Programs;
use anyhow::Result;
use std::alloc::Global;

// Makes the letters that are added to a name.
fn put_suffix(maker: &mut Maker) -> Result<()> {
    let number = maker.numbers.below(1000);
    maker.text.clear();
    maker.put("_b")?;
    maker.put_number(number)
}

// Adds letters at each further place of a name, with a look when all are added.
fn rename_uses(editor: &mut Editor, from: usize, name: &[u8], letters: &[u8]) -> Result<()> {
    let mut place = from;
    for _ in 0..1000 {
        let Some(next) = next_name(editor.text(), place, name) else {
            break;
        };
        editor.edit(next, next, letters)?;
        place = next;
    }
    if place > from {
        editor.look();
    }
    Ok(())
}

// Types the letters at the first place of a name, and then adds them at each further one.
fn rename(editor: &mut Editor, maker: &mut Maker, name: &[u8]) -> Result<()> {
    let Some(at) = next_name(editor.text(), 0, name) else {
        return Ok(());
    };
    put_suffix(maker)?;
    editor.type_at(at, &maker.text)?;
    rename_uses(editor, at, name, &maker.text)
}

// Renames a declaration that has this place in its group.
fn rename_declared(
    alloc: Global,
    editor: &mut Editor,
    maker: &mut Maker,
    place: usize,
) -> Result<()> {
    let group = maker.numbers.below(maker.groups);
    maker.text.clear();
    maker.put_name(group.wrapping_mul(8).wrapping_add(place))?;
    let name = Vec::from_slice(alloc, &maker.text)?;
    rename(editor, maker, &name)
}

fn rename_state(alloc: Global, editor: &mut Editor, maker: &mut Maker) -> Result<()> {
    maker.first_state = 0;
    maker.states = maker.groups.wrapping_mul(2).max(2);
    let state = maker.numbers.below(maker.states);
    maker.text.clear();
    maker.put_state(state)?;
    let name = Vec::from_slice(alloc, &maker.text)?;
    rename(editor, maker, &name)
}

// Types a declaration and its clauses after others.
fn declare(editor: &mut Editor, maker: &mut Maker, number: usize) -> Result<()> {
    maker.group = number;
    maker.text.clear();
    maker.put_template("double spare@g;\nassign spare@g to \"{P}spare@g\";\nmonitor spare@g;\n")?;
    let from = maker.numbers.below(editor.text().len() / 4);
    let at = place_after(editor.text(), from, b"\nevflag ").saturating_sub(7);
    editor.type_at(at, &maker.text)
}

// Types in the name of a channel.
fn name_channel(editor: &mut Editor, maker: &mut Maker) -> Result<()> {
    let from = maker.numbers.below(editor.text().len() / 4);
    let at = place_after(editor.text(), from, b"to \"{P}");
    put_suffix(maker)?;
    editor.type_at(at, &maker.text)
}

fn name_one(alloc: Global, editor: &mut Editor, maker: &mut Maker, round: usize) -> Result<()> {
    match round % 5 {
        0 => {
            let place = maker.numbers.below(4);
            rename_declared(alloc, editor, maker, place)
        }
        1 => rename_state(alloc, editor, maker),
        2 => declare(editor, maker, round),
        3 => rename_declared(alloc, editor, maker, 6),
        _ => name_channel(editor, maker),
    }
}

// What names are changed in, in each round.
static PROGRAMS: [Programs; 4] = [
    Programs {
        size: 8_000,
        count: 4,
        times: 15,
    },
    Programs {
        size: 24_000,
        count: 2,
        times: 15,
    },
    Programs {
        size: 200_000,
        count: 1,
        times: 4,
    },
    Programs {
        size: 1_000_000,
        count: 1,
        times: 1,
    },
];

// Opens some programs, and names things in each.
fn name_in_some(
    alloc: Global,
    editor: &mut Editor,
    numbers: &mut Numbers,
    programs: &Programs,
) -> Result<()> {
    for _ in 0..programs.count {
        let mut maker = program_of(alloc, numbers.part(), Shape::of(programs.size))?;
        editor.open(&maker.text)?;
        let first = maker.numbers.below(5);
        for time in 0..programs.times {
            name_one(alloc, editor, &mut maker, first.wrapping_add(time))?;
        }
    }
    Ok(())
}

/// Opens programs of several sizes, and names things in each.
pub fn run(alloc: Global, editor: &mut Editor, numbers: &mut Numbers, rounds: usize) -> Result<()> {
    for _ in 0..rounds {
        for programs in &PROGRAMS {
            name_in_some(alloc, editor, numbers, programs)?;
        }
    }
    Ok(())
}
