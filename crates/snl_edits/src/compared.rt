//! A session under edits, compared after each of them: with a new session over the same text, and
//! its cost with the second count. Edits come in; what an edit came to goes out, or what is wrong.

use crate::count::{Change, second_count};
use crate::faults::Fault;
use crate::rows::same_tables;
use crate::splice::{refusal_of, spliced};
use snl_session::{Session, Work};
use std::alloc::Global;

/// What an edit came to.
#[derive(Clone, Copy, Debug, PartialEq, Eq)]
pub enum Outcome {
    Made,
    /// It is outside the text, or too large.
    Refused,
}

/// A session, and the text that it should have.
#[derive(Drop)]
pub struct Compared {
    session: Session,
    text: Vec<u8>,
}

// Compares what a session answers with what a new one does that gets the text at once.
fn compare(session: &Session, text: &[u8], new: &Session) -> Result<(), Fault> {
    if session.text() != text || new.text() != text {
        return Err(Fault::Text);
    }
    if session.diagnostics() != new.diagnostics() {
        return Err(Fault::Diagnostics);
    }
    if session.errors() != new.errors() || session.warnings() != new.warnings() {
        return Err(Fault::Numbers);
    }
    if !same_tables(session.tables(), new.tables()) {
        return Err(Fault::Tables);
    }
    Ok(())
}

// Compares the listings of two sessions.
fn compare_listings(session: &Session, new: &Session) -> Result<(), Fault> {
    let told = session.listing()?;
    let wanted = new.listing()?;
    if told.as_str() != wanted.as_str() {
        return Err(Fault::Listing);
    }
    Ok(())
}

// Compares a session with a new one over a text.
fn compare_with(session: &Session, text: &[u8], new: &Session) -> Result<(), Fault> {
    compare(session, text, new)?;
    compare_listings(session, new)
}

// Compares what an edit cost with the second count.
fn compare_work(
    alloc: Global,
    old: &[u8],
    text: &[u8],
    edit: Change,
    work: Work,
) -> Result<(), Fault> {
    let counts = second_count(alloc, old, text, edit)?;
    if work.lexed != counts.pieces as u64 {
        return Err(Fault::Lexed);
    }
    if work.parsed != counts.items as u64 {
        return Err(Fault::Parsed);
    }
    if work.checked != counts.stirred as u64 {
        return Err(Fault::Checked);
    }
    Ok(())
}

impl Compared {
    // A session over the empty text.
    fn empty(alloc: Global) -> Result<Compared, Fault> {
        let session = Session::new(alloc)?;
        Ok(Compared {
            session,
            text: Vec::new(alloc),
        })
    }

    /// A session that gets a text in one edit, whose cost is compared.
    pub fn new(alloc: Global, text: &[u8]) -> Result<Compared, Fault> {
        let mut compared = Compared::empty(alloc)?;
        compared.make(0, 0, text)?;
        Ok(compared)
    }

    /// The text.
    pub fn text(&self) -> &[u8] {
        &self.text
    }

    /// How many diagnostics there are.
    pub fn found(&self) -> usize {
        self.session.diagnostics().len()
    }

    // Compares the session with a new one over the text.
    fn compare(&self) -> Result<(), Fault> {
        let alloc = *self.text.allocator();
        let (new, _) = Session::over(alloc, Vec::from_slice(alloc, &self.text)?)?;
        compare_with(&self.session, &self.text, &new)
    }

    // Makes an edit that has to be made.
    fn make(&mut self, start: usize, stop: usize, new: &[u8]) -> Result<(), Fault> {
        let alloc = *self.text.allocator();
        let text = spliced(alloc, &self.text, start, stop, new)?;
        let work = self.session.edit(start, stop, new)?;
        let edit = Change {
            start,
            old_stop: stop,
            new_stop: start.saturating_add(new.len()),
        };
        compare_work(alloc, &self.text, &text, edit, work)?;
        self.text = text;
        Ok(())
    }

    /// Puts other bytes in the place of those from `start` up to `stop`, where that has to be
    /// taken, and compares.
    pub fn edit(&mut self, start: usize, stop: usize, new: &[u8]) -> Result<Outcome, Fault> {
        let outcome = match refusal_of(&self.text, start, stop, new.len()) {
            Some(refused) => {
                if self.session.edit(start, stop, new) != Err(refused) {
                    return Err(Fault::Refusal);
                }
                Outcome::Refused
            }
            None => {
                self.make(start, stop, new)?;
                Outcome::Made
            }
        };
        self.compare()?;
        Ok(outcome)
    }
}
