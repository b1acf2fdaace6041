//! A session, as what checks the text of a document.

ghost use Rattle.snl_shown.specs.Shown.{says_of_text};

use crate::answers::answer_in;
use crate::found::found_in;
use snl_cut::OutOfMemory;
use snl_document::CheckedText;
use snl_hear::Question;
use snl_place::Encoding;
use snl_say::{Answer, Shown};
use snl_session::{Refused, Session};
use std::alloc::Global;

/// A text that a session checks.
#[derive(Drop)]
pub struct SessionText {
    session: Session,
}

impl CheckedText for SessionText {
    ghost text_of = { λ checked. checked.session };

    ghost says = { says_of_text };

    fn empty(alloc: Global) -> Result<SessionText, OutOfMemory> {
        match Session::new(alloc) {
            Ok(session) => Ok(SessionText { session }),
            Err(_) => Err(OutOfMemory),
        }
    }

    fn edit(&mut self, start: usize, stop: usize, new: &[u8]) -> Result<(), OutOfMemory> {
        match self.session.edit(start, stop, new) {
            Ok(_) => Ok(()),
            Err(refused) => {
                prove!(matches!(refused, Refused::Memory));
                Err(OutOfMemory)
            }
        }
    }

    fn text(&self) -> &[u8] {
        self.session.text()
    }

    fn line_ends(&self) -> &[usize] {
        self.session.kept().lists.lines.ends.as_slice()
    }

    fn found(&self, alloc: Global, encoding: Encoding) -> Result<Vec<Shown<'_>>, OutOfMemory> {
        found_in(alloc, encoding, &self.session)
    }

    fn answer(
        &self,
        alloc: Global,
        encoding: Encoding,
        question: Question,
    ) -> Result<Answer<'_>, OutOfMemory> {
        answer_in(alloc, encoding, &self.session, question)
    }
}
