//! Edits that a seed defines. After each, what a session answers is held against what a new session
//! over the same text does, and what the edit cost against the second count.
//! In: how many edits, and the seed. Out: that nothing differs, and on standard error how many were
//! made and refused and how much was found; or the edit after which something differs, and the text
//! before it.

use crate::any_edit::{Edit, next_edit};
use crate::compared::{Compared, Outcome};
use crate::numbers::Numbers;
use crate::parts::PROGRAM;
use anyhow::Result;
use std::alloc::Global;

// How many edits were made and refused, and how many diagnostics there were after all of them
// together.
#[derive(Clone, Copy)]
struct Tally {
    made: usize,
    refused: usize,
    found: usize,
}

impl Tally {
    fn count(&mut self, outcome: Outcome, found: usize) {
        match outcome {
            Outcome::Made => self.made = self.made.wrapping_add(1),
            Outcome::Refused => self.refused = self.refused.wrapping_add(1),
        }
        self.found = self.found.wrapping_add(found);
    }
}

fn tell_difference(rt: &impl Print, edit: &Edit, before: &[u8]) -> Result<()> {
    println!(rt; "edit: {} {} {:?}", edit.start, edit.stop, edit.new)?;
    println!(rt; "text before it: {before:?}")?;
    Ok(())
}

// Makes the next edit. Where something differs after it, it is told.
fn make_edit(
    rt: &impl Print,
    alloc: Global,
    numbers: &mut Numbers,
    session: &mut Compared,
) -> Result<Outcome> {
    let edit = next_edit(alloc, numbers, session.text())?;
    let before = Vec::from_slice(alloc, session.text())?;
    let outcome = session.edit(edit.start, edit.stop, &edit.new);
    if outcome.is_err() {
        tell_difference(rt, &edit, &before)?;
    }
    Ok(outcome?)
}

// Makes so many edits of a session.
fn make_edits(
    rt: &impl Print,
    alloc: Global,
    count: usize,
    numbers: &mut Numbers,
    session: &mut Compared,
) -> Result<Tally> {
    let mut tally = Tally {
        made: 0,
        refused: 0,
        found: 0,
    };
    for _ in 0..count {
        let outcome = make_edit(rt, alloc, numbers, session)?;
        tally.count(outcome, session.found());
    }
    Ok(tally)
}

/// Makes so many edits of a seed.
pub fn run(rt: &(impl Print + Eprint), alloc: Global, count: u64, seed: u64) -> Result<()> {
    let mut numbers = Numbers::new(seed);
    let mut session = Compared::new(alloc, PROGRAM)?;
    let tally = make_edits(
        rt,
        alloc,
        usize::try_from(count)?,
        &mut numbers,
        &mut session,
    )?;
    println!(rt;
        "{count} edits of seed {seed}: after each, what a new session says, at the cost that the texts tell"
    )?;
    eprintln!(rt;
        "made {} refused {} diagnostics {}",
        tally.made, tally.refused, tally.found
    )?;
    Ok(())
}
