//! The edits of a list, each made of every text that is before it in the list. After each, what a
//! session answers is held against what a new session over the same text does, and what the edit
//! cost against the second count.
//! In: the list. Out: how many edits of each text were made with no difference; else the line of
//! the list at which something differs. On standard error how much was found.
//!
//! The list has a line for each of these; empty lines and those that begin with `#` are for its
//! reader:
//! - `|` and a line of a text; `text` and bytes of it; `over`, which ends it
//! - `put PLACE` and bytes, `type PLACE` and bytes that come letter by letter; a place is `front`,
//!   `middle` or `end` of the text, or
//!   `before` or `after` bytes, where these come first
//! - `swap` and bytes, and others that are put in their place; `erase` and bytes that go letter by
//!   letter
//! - `undo` and how many edits are taken back, the last one first; `undo all`
//! - `edit`, two offsets, and bytes that are put in the place of what is between them
//!
//! Bytes are between backquotes. There `\n` is a line's end, `\x` and two digits a byte, and `\\` a
//! backslash.

use crate::commands::Command;
use crate::quoted::bytes_of;
use crate::typed::Typed;
use anyhow::{Context, Result};
use std::alloc::Global;

// The text that is read, and the sessions that the edits are made of.
#[derive(Drop)]
struct Bench {
    text: Vec<u8>,
    sessions: Vec<Typed>,
    is_edited: bool,
}

// Tells how many edits of a session were made.
fn tell(rt: &(impl Print + Eprint), session: &Typed) -> Result<()> {
    println!(rt;
        "{} edits of a text of {} bytes: after each, what a new session says, at the cost that the texts tell",
        session.edits, session.begun_with
    )?;
    eprintln!(rt; "diagnostics {}", session.found)?;
    Ok(())
}

fn carry_out_in(alloc: Global, command: &Command, sessions: &mut [Typed]) -> Result<()> {
    for session in sessions {
        command.carry_out(alloc, session)?;
    }
    Ok(())
}

impl Bench {
    // Tells of the sessions, and lets them go.
    fn clear(&mut self, rt: &(impl Print + Eprint)) -> Result<()> {
        for session in &self.sessions {
            tell(rt, session)?;
        }
        self.sessions.clear();
        self.is_edited = false;
        Ok(())
    }

    // Adds bytes to the text. After edits another text begins.
    fn add(&mut self, rt: &(impl Print + Eprint), bytes: &[u8]) -> Result<()> {
        if self.is_edited {
            self.clear(rt)?;
        }
        self.text.extend_from_slice(bytes)?;
        Ok(())
    }

    // Ends the text: a session begins with it.
    fn begin(&mut self, alloc: Global) -> Result<()> {
        self.sessions.push(Typed::new(alloc, &self.text)?)?;
        self.text.clear();
        Ok(())
    }

    // Adds the bytes that a quoted text means.
    fn add_quoted(
        &mut self,
        rt: &(impl Print + Eprint),
        alloc: Global,
        quoted: &str,
    ) -> Result<()> {
        let bytes = bytes_of(alloc, quoted)?;
        self.add(rt, &bytes)
    }

    // Carries out a command in each session.
    fn carry_out(&mut self, alloc: Global, line: &str) -> Result<()> {
        self.is_edited = true;
        let command = Command::of(alloc, line)?;
        carry_out_in(alloc, &command, &mut self.sessions)
    }

    // Takes a line of the list.
    fn take(&mut self, rt: &(impl Print + Eprint), alloc: Global, line: &str) -> Result<()> {
        if line.is_empty() || line.starts_with("#") {
            return Ok(());
        }
        if let Some(text) = line.strip_prefix("|") {
            self.add(rt, text.as_bytes())?;
            return self.add(rt, b"\n");
        }
        if let Some(quoted) = line.strip_prefix("text `") {
            return self.add_quoted(rt, alloc, quoted.strip_suffix("`").unwrap_or(quoted));
        }
        match line {
            "over" => self.begin(alloc),
            _ => self.carry_out(alloc, line),
        }
    }
}

fn take_lines(
    rt: &(impl Print + Eprint),
    alloc: Global,
    bench: &mut Bench,
    list: &str,
) -> Result<()> {
    for (number, line) in list.lines().enumerate() {
        bench
            .take(rt, alloc, line)
            .context(format_args!("line {}", number.saturating_add(1)))?;
    }
    bench.clear(rt)
}

/// Makes the edits of a list.
pub fn run(rt: &(impl Print + Eprint), alloc: Global, list: &str) -> Result<()> {
    let mut bench = Bench {
        text: Vec::new(alloc),
        sessions: Vec::new(alloc),
        is_edited: false,
    };
    take_lines(rt, alloc, &mut bench, list)
}
