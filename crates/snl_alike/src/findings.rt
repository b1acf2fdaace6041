//! Findings, which become others by replacements in their text. In: those of both texts. Out: the
//! first one that goes or comes, if one does.

ghost use Rattle.std.specs.Prelude.{◌≡◌, IsTrue, map};
ghost use Rattle.snl_alike.specs.Moved.{edits_in};
ghost use Rattle.snl_alike.specs.Same.{moved_diagnostic};

use crate::moves::Moves;
use crate::moving::{Moving, all_become};
use crate::rows::file_becomes_if;
use snl_kept::Diagnostic;
use snl_tables::Span;

/// What becomes of findings.
#[derive(Clone, Copy, Debug, PartialEq, Eq)]
pub enum FindingChange {
    /// This one of the old text is not found any more.
    Gone(Diagnostic),
    /// This one of the new text was not found.
    Come(Diagnostic),
}

impl Moving for Diagnostic {
    ghost moved = { moved_diagnostic };

    fn becomes(&self, moves: &Moves<'_>, new: &Diagnostic) -> bool {
        let old_span = Span {
            start: self.offset,
            len: self.subject,
        };
        let new_span = Span {
            start: new.offset,
            len: new.subject,
        };
        self.line == new.line
            && self.code == new.code
            && file_becomes_if(self.file, moves, new.file)
            && moves.span_becomes(old_span, new_span)
    }
}

// Of two findings, of which the first does not become the second.
fn earlier(old: Diagnostic, new: Diagnostic) -> FindingChange {
    if old.line <= new.line {
        FindingChange::Gone(old)
    } else {
        FindingChange::Come(new)
    }
}

/// The first finding that goes or comes, if there is one.
pub fn first_finding_change(
    old: &[Diagnostic],
    moves: &Moves<'_>,
    new: &[Diagnostic],
) -> Option<FindingChange> {
    for number in 0..old.len().min(new.len()) {
        if !old[number].becomes(moves, &new[number]) {
            return Some(earlier(old[number], new[number]));
        }
    }
    match old.get(new.len()) {
        Some(gone) => Some(FindingChange::Gone(*gone)),
        None => Some(FindingChange::Come(*new.get(old.len())?)),
    }
}

/// Whether each finding becomes that of another list.
pub fn findings_become(old: &[Diagnostic], moves: &Moves<'_>, new: &[Diagnostic]) -> bool
    ensures { IsTrue result → new.now ≡ map (moved_diagnostic (edits_in moves.now)) old.now }
{
    all_become(old, moves, new)
}
