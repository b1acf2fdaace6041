//! Makes programs, and what is typed into them. Numbers and a size come in, a text goes out.
//!
//! Templates are texts in which `@` and a letter stand for something of the program. Declarations
//! come in groups of eight: numbers 0 to 3 of a group are channels, 4 is an array of channels, 5 a
//! plain number, 6 an event flag and 7 a string.
//!
//! | Mark | What it stands for |
//! |---|---|
//! | `@0` to `@7` | a name of the group that is written |
//! | `@n`, `@a`, `@u`, `@f`, `@s` | any channel, array, plain number, event flag, string of the
//! program |
//! | `@k`, `@d` | a number; a digit below 8 |
//! | `@w` | some words |
//! | `@g`, `@S`, `@l` | the number of the group; the name of the state set; its own variable |
//! | `@q`, `@T`, `@t` | the name of the state that is written, of the next one, of any of the set |
//! | `@e`, `@c` | an expression, a condition |

use crate::numbers::{Numbers, number_of};
use crate::words::{OWNERS, PLAIN, QUANTITIES, STATES};
use anyhow::Result;
use std::alloc::Global;

// How many names a group has.
const GROUP: usize = 8;

/// The text that is made, and what is declared in it.
#[derive(Drop)]
pub struct Maker {
    pub text: Vec<u8>,
    pub numbers: Numbers,
    pub seed: u64,
    pub groups: usize,
    pub group: usize,
    pub set: usize,
    pub first_state: usize,
    pub states: usize,
    pub state: usize,
}

fn word_of(words: &[&'static str], number: usize) -> &'static str {
    words.get(number).copied().unwrap_or("x")
}

impl Maker {
    /// A maker of texts with so many groups of declarations.
    pub fn new(alloc: Global, mut numbers: Numbers, groups: usize) -> Maker {
        let seed = numbers.any();
        Maker {
            text: Vec::new(alloc),
            numbers,
            seed,
            groups,
            group: 0,
            set: 0,
            first_state: 0,
            states: 1,
            state: 0,
        }
    }

    /// Adds a text as it is.
    pub fn put(&mut self, text: &str) -> Result<()> {
        self.text.extend_from_slice(text.as_bytes())?;
        Ok(())
    }

    /// Adds a number below a million.
    pub fn put_number(&mut self, number: usize) -> Result<()> {
        for unit in [100_000, 10_000, 1000, 100, 10] {
            if number >= unit {
                self.text.push(b'0' + (number / unit % 10) as u8)?;
            }
        }
        self.text.push(b'0' + (number % 10) as u8)?;
        Ok(())
    }

    /// Adds the name of a declaration.
    pub fn put_name(&mut self, number: usize) -> Result<()> {
        self.put(word_of(&OWNERS, number_of(self.seed, number, OWNERS.len())))?;
        self.put(word_of(
            &QUANTITIES,
            number_of(self.seed ^ 1, number, QUANTITIES.len()),
        ))?;
        self.put_number(number)
    }

    // Adds the name of any declaration that has this place in its group.
    fn put_any(&mut self, place: usize) -> Result<()> {
        let group = self.numbers.below(self.groups);
        self.put_name(group.wrapping_mul(GROUP).wrapping_add(place))
    }

    // Adds the name of a declaration of the group that is written.
    fn put_own(&mut self, place: usize) -> Result<()> {
        self.put_name(self.group.wrapping_mul(GROUP).wrapping_add(place))
    }

    /// Adds the name of a state of the set that is written.
    pub fn put_state(&mut self, number: usize) -> Result<()> {
        let state = self
            .first_state
            .wrapping_add(number.checked_rem(self.states).unwrap_or(0));
        self.put(word_of(&STATES, number_of(self.seed ^ 2, state, STATES.len())))?;
        self.put_number(state)
    }

    fn put_any_number(&mut self) -> Result<()> {
        let whole = self.numbers.below(200);
        self.put_number(whole)?;
        if self.numbers.below(3) == 0 {
            let part = self.numbers.below(100);
            self.put(".")?;
            self.put_number(part)?;
        }
        Ok(())
    }

    fn put_words(&mut self) -> Result<()> {
        let count = self.numbers.below(8).wrapping_add(3);
        for number in 0..count {
            if number > 0 {
                self.put(" ")?;
            }
            let word = self.numbers.below(PLAIN.len());
            self.put(word_of(&PLAIN, word))?;
        }
        Ok(())
    }

    // Adds what a mark stands for that names something.
    fn put_name_of(&mut self, mark: u8) -> Result<()> {
        match mark {
            b'n' => {
                let place = self.numbers.below(4);
                self.put_any(place)
            }
            b'a' => self.put_any(4),
            b'u' => self.put_any(5),
            b'f' => self.put_any(6),
            b's' => self.put_any(7),
            b'q' => self.put_state(self.state),
            b'T' => self.put_state(self.state.wrapping_add(1)),
            b't' => {
                let state = self.numbers.below(self.states);
                self.put_state(state)
            }
            digit => self.put_own((digit & 7) as usize),
        }
    }

    // Adds what a mark stands for that holds no expression.
    fn put_mark(&mut self, mark: u8) -> Result<()> {
        match mark {
            b'k' => self.put_any_number(),
            b'd' => {
                let digit = self.numbers.below(8);
                self.put_number(digit)
            }
            b'w' => self.put_words(),
            b'g' => self.put_number(self.group),
            b'S' => {
                self.put("control")?;
                self.put_number(self.set)
            }
            b'l' => {
                self.put("step")?;
                self.put_number(self.set)
            }
            mark => self.put_name_of(mark),
        }
    }

    // Adds a template without expressions.
    fn put_plain(&mut self, template: &str) -> Result<()> {
        let mut is_marked = false;
        for byte in template.as_bytes() {
            if is_marked {
                self.put_mark(*byte)?;
                is_marked = false;
            } else if *byte == b'@' {
                is_marked = true;
            } else {
                self.text.push(*byte)?;
            }
        }
        Ok(())
    }

    fn put_operand(&mut self) -> Result<()> {
        let template = match self.numbers.below(8) {
            0 | 1 => "@n",
            2 | 3 => "@k",
            4 => "@a[@d]",
            5 => "@u",
            6 => "(@n - @k)",
            _ => "fabs(@n)",
        };
        self.put_plain(template)
    }

    fn put_sign(&mut self) -> Result<()> {
        let sign = match self.numbers.below(4) {
            0 => " + ",
            1 => " - ",
            2 => " * ",
            _ => " / ",
        };
        self.put(sign)
    }

    fn put_expression(&mut self) -> Result<()> {
        self.put_operand()?;
        let more = self.numbers.below(6).wrapping_add(1);
        for _ in 0..more {
            self.put_sign()?;
            self.put_operand()?;
        }
        Ok(())
    }

    fn put_comparison(&mut self) -> Result<()> {
        match self.numbers.below(7) {
            0 | 1 => self.put_plain("@n > @k"),
            2 => {
                self.put_plain("@n < ")?;
                self.put_expression()
            }
            3 => self.put_plain("efTestAndClear(@f)"),
            4 => self.put_plain("@u == @d"),
            5 => self.put_plain("!(@n >= @k)"),
            _ => self.put_plain("@a[@d] != @d"),
        }
    }

    fn put_condition(&mut self) -> Result<()> {
        self.put_comparison()?;
        let more = self.numbers.below(4);
        for _ in 0..more {
            let sign = self.numbers.below(2);
            self.put(if sign == 0 { " && " } else { " || " })?;
            self.put_comparison()?;
        }
        Ok(())
    }

    /// Adds a template.
    pub fn put_template(&mut self, template: &str) -> Result<()> {
        let mut is_marked = false;
        for byte in template.as_bytes() {
            if is_marked {
                match *byte {
                    b'e' => self.put_expression()?,
                    b'c' => self.put_condition()?,
                    mark => self.put_mark(mark)?,
                }
                is_marked = false;
            } else if *byte == b'@' {
                is_marked = true;
            } else {
                self.text.push(*byte)?;
            }
        }
        Ok(())
    }

    /// Adds one of some templates.
    pub fn put_one_of(&mut self, templates: &[&'static str]) -> Result<()> {
        let number = self.numbers.below(templates.len());
        self.put_template(word_of(templates, number))
    }
}
