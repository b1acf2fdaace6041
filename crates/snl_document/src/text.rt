//! The text of an open document.
//! In: a text, and the changes of each message. Out: the text, where it is checked.
//! Knows nothing of names and versions, and of what is published.

ghost use Rattle.std.specs.Prelude.{◌≡◌, ◌≤◌, IfOk, IfSome, None, OnErr, OnOk, Some, length, map, option_map};
ghost use Rattle.snl_hear.specs.Changes.{changed_of};
ghost use Rattle.snl_lex.specs.Edit.{spliced};
ghost use Rattle.snl_document.specs.Splices.{Fits};
ghost use Rattle.snl_document.specs.Texts.{changed_by_all, checked, followed, limit, standing};

use crate::checked::CheckedText;
use crate::drafts::{change_draft_by_all, splice_of};
use crate::standing::Standing;
use snl_cut::OutOfMemory;
use snl_hear::Change;
use snl_place::{Draft, Encoding, Splice, trimmed};
use std::alloc::Global;
use std::marker::Model;
use std::mem::replace;

/// A text of at most so many bytes is checked.
const LIMIT: usize = 1_048_576;

/// A text of more bytes is not followed.
const LONGEST: usize = 67_108_864;

/// What is held of a text.
#[derive(Drop)]
enum Held<C> {
    Checked(C),
    Large(Draft),
    Lost,
}

/// The text of a document, if it is known. Contracts see that alone.
#[derive(Drop)]
pub struct DocumentText<C: CheckedText> {
    held: Held<C>,
}

impl<C: CheckedText> Model for DocumentText<C> {
    ghost use Rattle.std.specs.Prelude.{ℕ, List, Option};

    ghost Value = { Option (List ℕ) };

    ghost use Rattle.snl_document.specs.Held.{IsHeld, text_of};

    ghost view = { λ t. text_of C.text_of t.held };

    ghost invariant = { λ t. IsHeld C.text_of t.held };
}

/// Makes an edit. What of the bytes stays as it is, is left out.
fn edit<C: CheckedText>(
    checked: &mut C,
    start: usize,
    stop: usize,
    new: &[u8],
) -> Result<(), OutOfMemory>
    requires order { start ≤ stop }
    requires inside { stop ≤ length (C.text_of checked.old) }
    requires fits { length (spliced (C.text_of checked.old) start stop new.now) ≤ limit }
    ensures ok { OnOk result (C.text_of checked.new
        ≡ spliced (C.text_of checked.old) start stop new.now) }
    ensures err { OnErr result (C.text_of checked.new ≡ C.text_of checked.old) }
{
    let cut = trimmed(checked.text(), start, stop, new);
    checked.edit(cut.start, cut.stop, cut.new)
}

/// A text, to be checked from now on.
fn checked_from<C: CheckedText + Drop>(alloc: Global, text: &[u8]) -> Result<C, OutOfMemory>
    requires { length text.now ≤ limit }
    ensures { IfOk result (λ checked. C.text_of checked ≡ text.now) }
{
    let mut checked = C::empty(alloc)?;
    edit(&mut checked, 0, 0, text)?;
    Ok(checked)
}

/// The splice that a change is, if the text after it is one to check.
fn fitting_splice<'a, C: CheckedText>(
    checked: &C,
    encoding: Encoding,
    change: &Change<'a>,
) -> Option<Splice<'a>>
    ensures { IfSome result (Fits encoding (C.text_of checked.now) (changed_of change.now)) }
{
    let text = checked.text();
    let splice = splice_of(encoding, text, checked.line_ends(), change)?;
    let kept = text.len() - (splice.stop - splice.start);
    if splice.new.len() <= LIMIT - kept {
        Some(splice)
    } else {
        None
    }
}

impl<C: CheckedText + Drop> DocumentText<C> {
    /// The text of a document that is opened.
    pub fn of(alloc: Global, text: &[u8]) -> Result<DocumentText<C>, OutOfMemory>
        ensures { IfOk result (λ t. t ≡ followed (Some text.now)) }
    {
        let held = if text.len() <= LIMIT {
            Held::Checked(checked_from(alloc, text)?)
        } else if text.len() <= LONGEST {
            Held::Large(Draft::of(alloc, text)?)
        } else {
            Held::Lost
        };
        Ok(DocumentText { held })
    }

    /// How it is served.
    pub fn standing(&self) -> Standing
        ensures { result ≡ standing self.now }
    {
        match &self.held {
            Held::Checked(_) => Standing::Checked,
            Held::Large(_) => Standing::Large,
            Held::Lost => Standing::Lost,
        }
    }

    /// The text, where it is checked.
    pub fn checked(&self) -> Option<&C>
        ensures { option_map (λ c. C.text_of c.now) result ≡ checked self.now }
    {
        match &self.held {
            Held::Checked(checked) => Some(checked),
            Held::Large(_) | Held::Lost => None,
        }
    }

    /// Lets the text go.
    pub fn lose(&mut self)
        ensures { self.new ≡ None }
    {
        self.held = Held::Lost;
    }

    /// Makes the changes of one message, as one edit of what is checked. After an `Err`, which is
    /// want of memory, nothing is known of the text.
    pub fn change(
        &mut self,
        alloc: Global,
        encoding: Encoding,
        changes: &[Change<'_>],
    ) -> Result<(), OutOfMemory>
        ensures { OnOk result (self.new ≡ followed (changed_by_all encoding self.old
            (map (λ change. changed_of change) changes.now))) }
    {
        if let (Held::Checked(checked), [change]) = (&mut self.held, changes) {
            if let Some(splice) = fitting_splice(checked, encoding, change) {
                return edit(checked, splice.start, splice.stop, splice.new);
            }
        }
        let draft = self.draft(alloc)?;
        let draft = change_draft_by_all(alloc, draft, encoding, changes)?;
        self.settle(alloc, draft)
    }

    /// A draft of the text. What is checked stays, so that it can be edited afterwards.
    fn draft(&mut self, alloc: Global) -> Result<Option<Draft>, OutOfMemory>
        ensures { IfOk result (λ draft. draft ≡ self.old) }
    {
        if let Held::Checked(checked) = &self.held {
            return Ok(Some(Draft::of(alloc, checked.text())?));
        }
        match replace(&mut self.held, Held::Lost) {
            Held::Large(draft) => Ok(Some(draft)),
            Held::Checked(_) | Held::Lost => Ok(None),
        }
    }

    /// Goes on with another text.
    fn settle(&mut self, alloc: Global, draft: Option<Draft>) -> Result<(), OutOfMemory>
        ensures { OnOk result (self.new ≡ followed draft) }
    {
        let Some(draft) = draft else {
            self.held = Held::Lost;
            return Ok(());
        };
        let length = draft.text().len();
        if length <= LIMIT {
            return self.check(alloc, draft.text());
        }
        self.held = if length <= LONGEST {
            Held::Large(draft)
        } else {
            Held::Lost
        };
        Ok(())
    }

    /// Has this text checked, by an edit of the one that is there.
    fn check(&mut self, alloc: Global, text: &[u8]) -> Result<(), OutOfMemory>
        requires { length text.now ≤ limit }
        ensures { OnOk result (self.new ≡ Some text.now) }
    {
        if let Held::Checked(checked) = &mut self.held {
            let stop = checked.text().len();
            return edit(checked, 0, stop, text);
        }
        self.held = Held::Checked(checked_from(alloc, text)?);
        Ok(())
    }
}
