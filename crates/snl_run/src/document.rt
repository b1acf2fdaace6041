//! A text under edit.
//! In: a source, and edits. Out: a session over the text, and what the last edit that was made
//! cost. Knows nothing of scripts and answers.
#![tactic(auto)]

ghost use Rattle.std.specs.Prelude.{◌≡◌, ◌≤◌, length, IfErr, IfOk, OnOk};
ghost use Rattle.snl_session.specs.Edit.{limit};
ghost use Rattle.snl_run.specs.Run.{IsEdited, NoStart, start_fault};
ghost use Rattle.snl_run.specs.Version.{first_version};

use crate::faults::RunFault;
use snl_session::{Refused, Session, Work};
use std::alloc::Global;
use std::marker::Model;

/// A session over a text, and what the last edit that was made in it cost.
#[derive(Drop)]
pub struct Document {
    session: Session,
    work: Work,
}

impl Model for Document {
    ghost use Rattle.snl_run.specs.Version.{Version};

    ghost Value = { Version };

    ghost view = { λ d. record { text = d.session; work = d.work } };
}

/// Why a run cannot begin whose source was refused.
fn start_fault(refused: Refused) -> RunFault
    ensures { result ≡ start_fault refused }
{
    match refused {
        Refused::Memory => RunFault::Memory,
        Refused::Range | Refused::Size => RunFault::Source,
    }
}

impl Document {
    /// A document with a source, which its session keeps.
    pub fn begin(alloc: Global, source: Vec<u8>) -> Result<Document, RunFault>
        ensures ok { IfOk result (λ document. document ≡ first_version source.items) }
        ensures fits { OnOk result (length source.items ≤ limit) }
        ensures err { IfErr result (NoStart source.items) }
    {
        match Session::over(alloc, source) {
            Ok((session, work)) => Ok(Document { session, work }),
            Err(refused) => Err(start_fault(refused)),
        }
    }

    /// Makes an edit. The answer is why it was refused, if it was.
    pub fn edit(&mut self, start: usize, stop: usize, new: &[u8]) -> Option<Refused>
        ensures { IsEdited self.old self.new start stop new.now result }
    {
        match self.session.edit(start, stop, new) {
            Ok(work) => {
                self.work = work;
                None
            }
            Err(refused) => Some(refused),
        }
    }

    /// The session, for what its text says.
    pub fn session(&self) -> &Session
        ensures { result.now ≡ self.now.text }
    {
        &self.session
    }

    /// What the last edit that was made cost.
    pub fn work(&self) -> Work
        ensures { result ≡ self.now.work }
    {
        self.work
    }
}
