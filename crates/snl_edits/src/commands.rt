//! A line of the list comes in, with a session; the edits that the line means go to the session.

use crate::quoted::bytes_of;
use crate::typed::Typed;
use anyhow::{Context, Result, bail};
use std::alloc::Global;

/// The words of a line, and the two texts between backquotes that may be on it.
#[derive(Drop)]
pub struct Command<'a> {
    words: &'a str,
    first: Vec<u8>,
    second: Vec<u8>,
}

// Where bytes come first in a text.
fn first_place(text: &[u8], bytes: &[u8]) -> Result<usize> {
    (0..text.len())
        .find(|at| text.get(*at..).unwrap_or(&[]).starts_with(bytes))
        .context("this isn't in the text")
}

fn number_in(word: Option<&str>) -> Result<usize> {
    let number = word.context("a number is missing")?.parse::<usize>()?;
    Ok(number)
}

impl<'a> Command<'a> {
    /// The command of a line.
    pub fn of(alloc: Global, line: &'a str) -> Result<Command<'a>> {
        let mut parts = line.split('`');
        let words = parts.next().unwrap_or("");
        let first = bytes_of(alloc, parts.next().unwrap_or(""))?;
        let _between = parts.next();
        let second = bytes_of(alloc, parts.next().unwrap_or(""))?;
        Ok(Command {
            words,
            first,
            second,
        })
    }

    // The place that a word tells, and what is put there.
    fn place(&self, text: &[u8], word: Option<&str>) -> Result<(usize, &[u8])> {
        match word {
            Some("front") => Ok((0, &self.first)),
            Some("middle") => Ok((text.len() / 2, &self.first)),
            Some("end") => Ok((text.len(), &self.first)),
            Some("before") => Ok((first_place(text, &self.first)?, &self.second)),
            Some("after") => {
                let at = first_place(text, &self.first)?;
                Ok((at.saturating_add(self.first.len()), &self.second))
            }
            _ => bail!("a place is front, middle, end, before or after"),
        }
    }

    // Puts the second text in the place of the first.
    fn swap(&self, alloc: Global, session: &mut Typed) -> Result<()> {
        let start = first_place(session.text(), &self.first)?;
        let stop = start.saturating_add(self.first.len());
        session.edit(alloc, start, stop, &self.second)
    }

    // Takes the first text away, letter by letter.
    fn erase(&self, alloc: Global, session: &mut Typed) -> Result<()> {
        let start = first_place(session.text(), &self.first)?;
        let stop = start.saturating_add(self.first.len());
        session.erase(alloc, stop, self.first.len())
    }

    /// Makes the edits of a session that the command means.
    pub fn carry_out(&self, alloc: Global, session: &mut Typed) -> Result<()> {
        let mut words = self.words.split_whitespace();
        match words.next() {
            Some("put") => {
                let (at, new) = self.place(session.text(), words.next())?;
                session.edit(alloc, at, at, new)
            }
            Some("type") => {
                let (at, new) = self.place(session.text(), words.next())?;
                session.type_at(alloc, at, new)
            }
            Some("swap") => self.swap(alloc, session),
            Some("erase") => self.erase(alloc, session),
            Some("undo") => match words.next() {
                Some("all") => session.undo_all(),
                count => session.undo(number_in(count)?),
            },
            Some("edit") => {
                let start = number_in(words.next())?;
                let stop = number_in(words.next())?;
                session.edit(alloc, start, stop, &self.first)
            }
            _ => bail!("a line begins with put, type, swap, erase, undo or edit"),
        }
    }
}
