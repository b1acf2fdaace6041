//! Keys are typed into a program that is open, anywhere in it, each with a look.

use crate::editor::Editor;
use crate::maker::Maker;
use crate::numbers::Numbers;
use crate::places::place_after;
use crate::program::{Markers, Shape, program_of};
use anyhow::Result;
use std::alloc::Global;

// What is typed.
struct Typing {
    // where: after these bytes
    after: &'static [u8],
    keys: &'static str,
    // how many bytes before the last two are erased again, and what comes in their place
    erased: usize,
    mended: &'static str,
}

static TYPINGS: [Typing; 12] = [
    Typing {
        after: b" > ",
        keys: "3@d",
        erased: 0,
        mended: "",
    },
    Typing {
        after: b"entry {\n",
        keys: "            @n = @n * @d + 41;\n",
        erased: 2,
        mended: "7@d0",
    },
    Typing {
        after: b") {\n",
        keys: "            @u = @e;\n",
        erased: 3,
        mended: "(@k)",
    },
    Typing {
        after: b") {\n",
        keys: "            if (@n > @k) {\n                @n = @e;\n            }\n",
        erased: 0,
        mended: "",
    },
    Typing {
        after: b";\n",
        keys: "/* @w */\n",
        erased: 0,
        mended: "",
    },
    Typing {
        after: b"/* ",
        keys: "@w, ",
        erased: 0,
        mended: "",
    },
    Typing {
        after: b"{\n",
        keys: "\n    \n",
        erased: 0,
        mended: "",
    },
    Typing {
        after: b"entry {\n",
        keys: "            strcpy(@s, \"@w\");\n",
        erased: 0,
        mended: "",
    },
    Typing {
        after: b";\n",
        keys: "// @w\n",
        erased: 0,
        mended: "",
    },
    Typing {
        after: b") {\n",
        keys: "            pvPut(@n);\n",
        erased: 0,
        mended: "",
    },
    Typing {
        after: b"when (",
        keys: "@n > @k && ",
        erased: 0,
        mended: "",
    },
    Typing {
        after: b" > ",
        keys: "1@d",
        erased: 0,
        mended: "",
    },
];

// A place of the text: at its front, in its middle or at its back.
fn any_place(maker: &mut Maker, len: usize) -> usize {
    let part = len / 3;
    let begin = maker.numbers.below(3).wrapping_mul(part);
    begin.wrapping_add(maker.numbers.below(part))
}

/// Types the keys of a template at a place, and tells how many they are.
pub fn type_template(
    editor: &mut Editor,
    maker: &mut Maker,
    at: usize,
    keys: &str,
) -> Result<usize> {
    maker.text.clear();
    maker.put_template(keys)?;
    editor.type_at(at, &maker.text)?;
    Ok(maker.text.len())
}

fn type_one(editor: &mut Editor, maker: &mut Maker, typing: &Typing) -> Result<()> {
    let from = any_place(maker, editor.text().len());
    let at = place_after(editor.text(), from, typing.after);
    let typed = type_template(editor, maker, at, typing.keys)?;
    if typing.erased > 0 {
        let end = at.saturating_add(typed).saturating_sub(2);
        editor.erase_before(end, typing.erased)?;
        let begin = end.saturating_sub(typing.erased);
        type_template(editor, maker, begin, typing.mended)?;
    }
    Ok(())
}

/// Types in a program so often.
pub fn type_in(editor: &mut Editor, maker: &mut Maker, times: usize) -> Result<()> {
    let first = maker.numbers.below(TYPINGS.len());
    for time in 0..times {
        // 5 has no factor in common with 12, so each comes in turn
        let number = first.wrapping_add(time.wrapping_mul(5));
        if let Some(typing) = TYPINGS.get(number % 12) {
            type_one(editor, maker, typing)?;
        }
    }
    Ok(())
}

/// Programs of about so many bytes: how many there are, and how often is typed in each.
pub struct Programs {
    pub size: usize,
    pub count: usize,
    pub times: usize,
}

/// What is typed in, in each round.
pub static PLAIN: [Programs; 4] = [
    Programs {
        size: 8_000,
        count: 6,
        times: 40,
    },
    Programs {
        size: 24_000,
        count: 3,
        times: 40,
    },
    Programs {
        size: 200_000,
        count: 1,
        times: 12,
    },
    Programs {
        size: 1_000_000,
        count: 1,
        times: 2,
    },
];

/// The same for texts that the preprocessor wrote.
pub static MARKED: [Programs; 4] = [
    Programs {
        size: 8_000,
        count: 3,
        times: 20,
    },
    Programs {
        size: 24_000,
        count: 2,
        times: 16,
    },
    Programs {
        size: 200_000,
        count: 1,
        times: 4,
    },
    Programs {
        size: 1_000_000,
        count: 1,
        times: 1,
    },
];

// Opens some programs, and types in each.
fn type_in_some(
    alloc: Global,
    editor: &mut Editor,
    numbers: &mut Numbers,
    programs: &Programs,
    markers: Markers,
) -> Result<()> {
    let shape = Shape {
        markers,
        ..Shape::of(programs.size)
    };
    for _ in 0..programs.count {
        let mut maker = program_of(alloc, numbers.part(), shape)?;
        editor.open(&maker.text)?;
        type_in(editor, &mut maker, programs.times)?;
    }
    Ok(())
}

/// Opens programs of several sizes, and types in each.
pub fn run(
    alloc: Global,
    editor: &mut Editor,
    numbers: &mut Numbers,
    rounds: usize,
    all: &[Programs],
    markers: Markers,
) -> Result<()> {
    for _ in 0..rounds {
        for programs in all {
            type_in_some(alloc, editor, numbers, programs, markers)?;
        }
    }
    Ok(())
}
