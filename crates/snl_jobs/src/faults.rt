//! What is wrong in a program. How many faults it is to have comes in, text goes out.

use crate::maker::Maker;
use anyhow::Result;

/// How many faults a program has.
#[derive(Clone, Copy, PartialEq, Eq)]
pub enum Faults {
    /// One in one state of 200.
    Few,
    /// One in one state of four.
    Many,
    /// Several in each state and each group of declarations. All states are sound.
    Everywhere,
}

// What is wrong in a state. The first and the last make all of it faulty.
static STATEMENTS: [&str; 4] = [
    "            @n = = @k;\n",
    "            unknown_@g = @k;\n",
    "            pvPut(@u);\n",
    "            if (@n > @k { @n = @k; }\n",
];

// What is wrong in a state that is sound: names that nothing declares, targets that are no states,
// arguments that are not assigned or no event flags, and what has no place there.
static SOUND_STATEMENTS: [&str; 9] = [
    "            missing@d = @k;\n",
    "            @n = missing@d + @k;\n",
    "            state nowhere@d;\n",
    "            pvPut(@u);\n",
    "            efClear(@n);\n",
    "            break;\n",
    "            delay(@k);\n",
    "            { int twice; int twice; }\n",
    "            { evflag late; }\n",
];

// What is wrong between declarations.
static ITEMS: [&str; 10] = [
    "assign missing@d to \"{P}missing@d\";\n",
    "assign @0 to \"{P}again@0\";\n",
    "assign @6 to \"{P}@6\";\n",
    "monitor @1;\n",
    "monitor @2[@d];\n",
    "monitor @5;\n",
    "sync @0 to @6;\n",
    "sync @1 to @5;\n",
    "double = @k;\n",
    "int $@g;\n",
];

impl Maker {
    // Adds one of the templates in one of so many calls.
    fn put_seldom(&mut self, bound: usize, templates: &[&'static str]) -> Result<()> {
        if self.numbers.below(bound) == 0 {
            self.put_one_of(templates)?;
        }
        Ok(())
    }

    fn put_sound_faults(&mut self) -> Result<()> {
        let count = self.numbers.below(4).wrapping_add(4);
        for _ in 0..count {
            self.put_one_of(&SOUND_STATEMENTS)?;
        }
        Ok(())
    }

    /// Adds what is wrong in a state.
    pub fn put_faults(&mut self, faults: Faults) -> Result<()> {
        match faults {
            Faults::Few => self.put_seldom(200, &STATEMENTS),
            Faults::Many => self.put_seldom(4, &STATEMENTS),
            Faults::Everywhere => self.put_sound_faults(),
        }
    }

    /// Adds what is wrong in a group of declarations.
    pub fn put_faulty_items(&mut self, faults: Faults) -> Result<()> {
        if faults == Faults::Everywhere {
            self.put_one_of(&ITEMS)?;
            self.put_one_of(&ITEMS)?;
        }
        Ok(())
    }
}
