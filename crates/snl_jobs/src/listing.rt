//! Programs with thousands of channels, and states that wake up on many of them, are opened and
//! listed.

use crate::editor::Editor;
use crate::maker::Maker;
use crate::numbers::Numbers;
use crate::places::place_after;
use anyhow::Result;
use std::alloc::Global;

// How many arrays a program has, how many channels each, and how many states.
const ARRAYS: usize = 90;

const CHANNELS: usize = 60;

const STATES: usize = 100;

impl Maker {
    // Adds an array with a channel for each element.
    fn put_array(&mut self) -> Result<()> {
        self.put_template("short @0[60];\nassign @0 to {")?;
        for _ in 1..CHANNELS {
            self.put_template("\"{P}@1_@k\", ")?;
        }
        self.put_template("\"{P}@1_last\"};\nmonitor @0;\nevflag @6;\nsync @0 to @6;\n")
    }

    // Adds the name of the first declaration of any group.
    fn put_any_array(&mut self) -> Result<()> {
        let group = self.numbers.below(self.groups);
        self.put_name(group.wrapping_mul(8))
    }

    fn put_waking_state(&mut self, state: usize) -> Result<()> {
        self.state = state;
        self.put_template("    state @q {\n        when (@l > @d")?;
        let uses = self.numbers.below(8).wrapping_add(2);
        for _ in 0..uses {
            self.put(" && ")?;
            self.put_any_array()?;
            self.put_template("[@l] > @d")?;
        }
        self.put_template(
            ") {\n            @l = @d;\n        } state @T\n        when (efTest(@f)) { } state @t\n    }\n",
        )
    }

    fn put_wide_program(&mut self) -> Result<()> {
        self.put("program wide\n")?;
        for group in 0..self.groups {
            self.group = group;
            self.put_array()?;
        }
        self.states = STATES;
        self.put_template("ss @S {\n    int @l = 0;\n")?;
        for state in 0..STATES {
            self.put_waking_state(state)?;
        }
        self.put("}\n")
    }
}

// Lists a program, with an edit after which it is listed again.
fn list(editor: &mut Editor, maker: &mut Maker) -> Result<()> {
    editor.open(&maker.text)?;
    editor.look_at_listing()?;
    let at = place_after(editor.text(), editor.text().len() / 2, b"to {\"{P}");
    maker.text.clear();
    maker.put_template("@k")?;
    editor.replace(at, at, &maker.text)?;
    editor.look_at_listing()
}

/// Opens and lists one program for each round of the job.
pub fn run(alloc: Global, editor: &mut Editor, numbers: &mut Numbers, rounds: usize) -> Result<()> {
    for _ in 0..rounds {
        let mut maker = Maker::new(alloc, numbers.part(), ARRAYS);
        maker.put_wide_program()?;
        list(editor, &mut maker)?;
    }
    Ok(())
}
