//! An editor with a text open in a session: keys go in, each with a look at what the session tells.
//!
//! A look is at all that it tells of the text, after a key too: all diagnostics and all rows of all
//! tables go into the digest, as does the cost of each edit. That takes some hundredths of the
//! time.

use crate::answers::{add_diagnostics, add_tables};
use crate::digest::Digest;
use anyhow::Result;
use snl_session::{Session, Work};
use std::alloc::Global;

/// A session, and the digest of what it answered.
#[derive(Drop)]
pub struct Editor {
    session: Session,
    pub digest: Digest,
    pub edits: usize,
}

fn add_work(digest: &mut Digest, work: Work) {
    digest.add(work.lexed);
    digest.add(work.parsed);
    digest.add(work.checked);
}

impl Editor {
    /// Opens the empty text.
    pub fn new(alloc: Global) -> Result<Editor> {
        Ok(Editor {
            session: Session::new(alloc)?,
            digest: Digest::new(),
            edits: 0,
        })
    }

    /// The text.
    pub fn text(&self) -> &[u8] {
        self.session.text()
    }

    /// Makes an edit.
    pub fn edit(&mut self, start: usize, stop: usize, new: &[u8]) -> Result<()> {
        let work = self.session.edit(start, stop, new)?;
        add_work(&mut self.digest, work);
        self.edits = self.edits.wrapping_add(1);
        Ok(())
    }

    /// Looks at all diagnostics and all tables.
    pub fn look(&mut self) {
        add_diagnostics(&mut self.digest, self.session.diagnostics());
        self.digest.add_size(self.session.errors());
        self.digest.add_size(self.session.warnings());
        add_tables(&mut self.digest, self.session.tables());
    }

    /// Looks at the listing.
    pub fn look_at_listing(&mut self) -> Result<()> {
        let listing = self.session.listing()?;
        self.digest.add_bytes(listing.as_bytes());
        Ok(())
    }

    /// Replaces the whole text, with a look.
    pub fn open(&mut self, text: &[u8]) -> Result<()> {
        let len = self.session.text().len();
        self.replace(0, len, text)
    }

    /// Types keys, with a look after each.
    pub fn type_at(&mut self, at: usize, keys: &[u8]) -> Result<()> {
        for (number, key) in keys.iter().enumerate() {
            let place = at.saturating_add(number);
            self.edit(place, place, &[*key])?;
            self.look();
        }
        Ok(())
    }

    /// Takes so many bytes away before a place, one by one, with a look after each.
    pub fn erase_before(&mut self, at: usize, count: usize) -> Result<()> {
        for number in 0..count {
            let stop = at.saturating_sub(number);
            self.edit(stop.saturating_sub(1), stop, &[])?;
            self.look();
        }
        Ok(())
    }

    /// Replaces bytes, with a look.
    pub fn replace(&mut self, start: usize, stop: usize, new: &[u8]) -> Result<()> {
        self.edit(start, stop, new)?;
        self.look();
        Ok(())
    }
}
