//! A session at which somebody types: keys and pastes come in, edits go to the session, and are
//! undone again.

use crate::compared::{Compared, Outcome};
use anyhow::{Result, bail};
use std::alloc::Global;

// What takes an edit back.
#[derive(Drop)]
struct Undo {
    start: usize,
    stop: usize,
    bytes: Vec<u8>,
}

/// A session, what takes its edits back, and how many were made or refused.
#[derive(Drop)]
pub struct Typed {
    compared: Compared,
    undos: Vec<Undo>,
    pub begun_with: usize,
    pub edits: usize,
    pub found: usize,
}

impl Typed {
    /// A session over a text.
    pub fn new(alloc: Global, text: &[u8]) -> Result<Typed> {
        Ok(Typed {
            compared: Compared::new(alloc, text)?,
            undos: Vec::new(alloc),
            begun_with: text.len(),
            edits: 0,
            found: 0,
        })
    }

    /// The text.
    pub fn text(&self) -> &[u8] {
        self.compared.text()
    }

    // Makes an edit, and counts it.
    fn make(&mut self, start: usize, stop: usize, new: &[u8]) -> Result<Outcome> {
        let outcome = self.compared.edit(start, stop, new)?;
        self.edits = self.edits.saturating_add(1);
        self.found = self.found.saturating_add(self.compared.found());
        Ok(outcome)
    }

    /// Puts other bytes in the place of those from `start` up to `stop`.
    pub fn edit(&mut self, alloc: Global, start: usize, stop: usize, new: &[u8]) -> Result<()> {
        let bytes = Vec::from_slice(alloc, self.text().get(start..stop).unwrap_or(&[]))?;
        match self.make(start, stop, new)? {
            Outcome::Refused => {}
            Outcome::Made => {
                let stop = start.saturating_add(new.len());
                self.undos.push(Undo { start, stop, bytes })?;
            }
        }
        Ok(())
    }

    /// Types a text letter by letter.
    pub fn type_at(&mut self, alloc: Global, at: usize, new: &[u8]) -> Result<()> {
        for (number, byte) in new.iter().enumerate() {
            let at = at.saturating_add(number);
            self.edit(alloc, at, at, &[*byte])?;
        }
        Ok(())
    }

    /// Takes so many bytes away before a place, one by one.
    pub fn erase(&mut self, alloc: Global, at: usize, count: usize) -> Result<()> {
        for number in 0..count {
            let stop = at.saturating_sub(number);
            self.edit(alloc, stop.saturating_sub(1), stop, b"")?;
        }
        Ok(())
    }

    /// Takes all edits back, the last one first.
    pub fn undo_all(&mut self) -> Result<()> {
        let count = self.undos.len();
        self.undo(count)
    }

    /// Takes so many edits back, the last one first.
    pub fn undo(&mut self, count: usize) -> Result<()> {
        for _ in 0..count {
            let Some(undo) = self.undos.pop() else {
                bail!("no edit is left to be taken back");
            };
            self.make(undo.start, undo.stop, &undo.bytes)?;
        }
        Ok(())
    }
}
