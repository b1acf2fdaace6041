//! A program as engineers write it: declarations, clauses, functions and state sets, with comments
//! and some embedded C. Numbers, a size and where line markers are come in, a text goes out.

use crate::faults::Faults;
use crate::maker::Maker;
use crate::numbers::Numbers;
use anyhow::Result;
use std::alloc::Global;

/// Where a text has line markers.
#[derive(Clone, Copy, PartialEq, Eq)]
pub enum Markers {
    Nowhere,
    /// One, at the top.
    Top,
    /// Also after each part, as that of an included file.
    Parts,
}

/// What a program is to be like. A size is about the number of its bytes.
#[derive(Clone, Copy)]
pub struct Shape {
    pub size: usize,
    pub markers: Markers,
    pub faults: Faults,
}

impl Shape {
    /// A program of about so many bytes, with no line markers and few faults.
    pub fn of(size: usize) -> Shape {
        Shape {
            size,
            markers: Markers::Nowhere,
            faults: Faults::Few,
        }
    }
}

// How many bytes a group of declarations has, with the two states that come for each. It is some
// 2,650 on average, so that a program of 1 MB stays below the limit of a text.
const PART: usize = 2700;

static HEAD: &str =
    "program sequence (\"P=dev:, R=rec\")\n\noption +r;\n\n%{\n#include <math.h>\n#include <string.h>\n}%\n\n";

static DECLARATIONS: &str = "/* Group @g: @w. */
double @0;
assign @0 to \"{P}@0\";
monitor @0;
int @1;      assign @1 to \"{P}@1\";  monitor @1;
short @2;    assign @2 to \"{P}@2\";
double @3 = @k;
assign @3 to \"{P}{R}@3.VAL\";
monitor @3;
int @4[8];
assign @4 to {\"{P}@40\", \"{P}@41\", \"{P}@42\", \"{P}@43\"};
int @5 = @d; // @w
evflag @6;
sync @0 to @6;
string @7;   assign @7 to \"{P}@7\";

";

static FUNCTIONS: [&str; 2] = [
    "int inside@g(double value, double range) {
    double middle = (range + value) / 2.0;
    return value > 10 ? middle < @n : middle >= @n;
}

",
    "struct limits@g {
    double low, high;
    int steps[8];
};

",
];

static BEGINS: [&str; 3] = [
    "    state @q {\n",
    "    /* @w */\n    state @q {\n",
    "    state @q {\n        int count = @d;\n",
];

static ENTRIES: [&str; 4] = [
    "        entry {\n            strcpy(@s, \"@w\\n\");\n            pvPut(@s);\n        }\n",
    "        entry {\n            @n = @e;\n            @l++;\n        }\n",
    "        option +e;\n        entry {\n            pvPut(@n, SYNC);\n        }\n",
    "",
];

static CONDITIONS: [&str; 3] = [
    "        when (@c) {\n",
    "        when (delay(@k)) {\n",
    "        when (@c) { /* @w */\n",
];

static STATEMENTS: [&str; 10] = [
    "            @n = @e;\n",
    "            @n = @e;\n            pvPut(@n);\n",
    "            if (@n > @k) {\n                @n = @e;\n            } else {\n                @n -= @k;\n            }\n",
    "            for (@l = 0; @l < 8; @l++) {\n                @a[@l] = (@l + @d) << 2;\n                pvPut(@a[@l]);\n            }\n",
    "            // @w\n            @u = @d;\n",
    "            printf(\"%s: %g\\n\", @s, @n);\n",
    "            while (@l > 0 && !@a[@l - 1]) {\n                @l = @l - 1;\n            }\n",
    "            @n = @c ? @e : @k;\n",
    "            %% printf(\"pressure %g\\n\", 1.0);\n",
    "            efClear(@f);\n",
];

impl Maker {
    fn put_line_marker(&mut self, shape: Shape) -> Result<()> {
        if shape.markers == Markers::Parts {
            self.put_template("# @g \"part@g.st\"\n")?;
        }
        Ok(())
    }

    fn put_group(&mut self, shape: Shape, group: usize) -> Result<()> {
        self.group = group;
        self.put_line_marker(shape)?;
        self.put_template(DECLARATIONS)?;
        self.put_faulty_items(shape.faults)
    }

    fn put_groups(&mut self, shape: Shape) -> Result<()> {
        for group in 0..self.groups {
            self.put_group(shape, group)?;
        }
        for group in 0..self.groups / 4 {
            self.group = group;
            self.put_one_of(&FUNCTIONS)?;
        }
        Ok(())
    }

    fn put_transition(&mut self, target: &str) -> Result<()> {
        self.put_one_of(&CONDITIONS)?;
        let statements = self.numbers.below(3).wrapping_add(1);
        for _ in 0..statements {
            self.put_one_of(&STATEMENTS)?;
        }
        self.put_template(target)
    }

    fn put_transitions(&mut self, shape: Shape) -> Result<()> {
        self.put_transition("        } state @T\n")?;
        self.put_fault_transition(shape)?;
        let more = self.numbers.below(3);
        for _ in 0..more {
            self.put_transition("        } state @t\n")?;
        }
        Ok(())
    }

    fn put_fault_transition(&mut self, shape: Shape) -> Result<()> {
        self.put_template("        when (@u > 3) {\n")?;
        self.put_faults(shape.faults)?;
        self.put_template("        } exit\n")
    }

    fn put_whole_state(&mut self, shape: Shape, state: usize) -> Result<()> {
        self.state = state;
        self.put_one_of(&BEGINS)?;
        self.put_one_of(&ENTRIES)?;
        self.put_transitions(shape)?;
        self.put("    }\n")
    }

    // Adds a state set, of the states from a number on.
    fn put_set(&mut self, shape: Shape, first: usize, states: usize) -> Result<()> {
        self.first_state = first;
        self.states = states;
        self.put_line_marker(shape)?;
        self.put_template("// @w\nss @S {\n    int @l = 0;\n")?;
        for state in 0..states {
            self.put_whole_state(shape, state)?;
        }
        self.put("}\n\n")
    }

    fn put_sets(&mut self, shape: Shape) -> Result<()> {
        let states = self.groups.wrapping_mul(2).max(2);
        let mut first: usize = 0;
        for set in 0..states {
            if first >= states {
                break;
            }
            self.set = set;
            let more = self.numbers.below(46).wrapping_add(5);
            let count = more.min(states.saturating_sub(first));
            self.put_set(shape, first, count)?;
            first = first.saturating_add(count);
        }
        Ok(())
    }

    /// Adds a program.
    pub fn put_program(&mut self, shape: Shape) -> Result<()> {
        if shape.markers != Markers::Nowhere {
            self.put("# 1 \"sequence.st\"\n")?;
        }
        self.put(HEAD)?;
        self.put_groups(shape)?;
        self.put_sets(shape)
    }
}

/// A program by numbers of its own, with the maker of what is typed into it.
pub fn program_of(alloc: Global, numbers: Numbers, shape: Shape) -> Result<Maker> {
    let groups = shape.size.div_ceil(PART).max(1);
    let mut maker = Maker::new(alloc, numbers, groups);
    maker.put_program(shape)?;
    Ok(maker)
}
