//! The session: edits of a text come in, its diagnostics and tables go out.
//! An edit has three steps: the test of its range and size, all that takes memory, and the change,
//! which cannot fail.
#![tactic(auto)]

ghost use Rattle.std.specs.Prelude.{◌≡◌, ℕ, ◌+◌, ◌<◌, ◌≤◌, [], List, length, IfOk, OnOk, OnErr, IsErrOf, IsOkUnless, MatchOption, None, string_bytes, true};
ghost use Rattle.snl_session.specs.Edit.{spliced};

use crate::edits::Refused;
use snl_check::Tables;
use snl_cut::OutOfMemory;
use snl_kept::{Diagnostic, Kept, Work, found_once, rows_have_bytes};
use snl_lex::TextEdit;
use snl_listing::{Lister, listing};
use std::alloc::Global;
use std::marker::Model;

/// The number of bytes that a text has at most.
const LIMIT: usize = 1_048_576;

/// A text, its diagnostics and its tables. Its value is the text: all that it answers is what the
/// text alone defines.
pub struct Session {
    text: Vec<u8>,
    kept: Kept,
}

// By hand, so that whoever holds a session need not know what is in it to let it go.
impl Drop for Session {
    fn drop(self) {
        let Session { text: _, kept: _ } = self;
    }
}

impl Model for Session {
    ghost use Rattle.std.specs.Prelude.{ℕ, List};
    ghost use Rattle.snl_session.specs.Held.{IsHeld};

    ghost Value = { List ℕ };

    ghost view = { λ s. s.text.items };

    ghost invariant = { λ s. IsHeld s.text.items s.kept };
}

impl Session {
    ghost use Rattle.snl_kept.specs.Diagnostics.{diagnostics_of, errors_of, stands_before, warnings_of};
    ghost use Rattle.std.specs.List.{AllPairs};
    ghost use Rattle.snl_moved.specs.Spans.{TablesHaveBytes, TablesLieIn};
    ghost use Rattle.snl_session.specs.Edit.{limit, refusal_of};
    ghost use Rattle.snl_items.specs.Fresh.{fresh_items, fresh_pieces};
    ghost use Rattle.snl_listing.specs.Lister.{IsFor};
    ghost use Rattle.snl_session.specs.Listing.{listing_text};
    ghost use Rattle.snl_kept.specs.Kept.{IsKept};
    ghost use Rattle.snl_kept.specs.Stirred.{stirred};
    ghost use Rattle.snl_kept.specs.Tables.{tables_in};

    /// A session over the empty text. The only refusal is that of memory.
    pub fn new(alloc: Global) -> Result<Session, Refused>
        ensures ok { IfOk result (λ s. s ≡ []) }
        ensures refused { IsOkUnless result Refused.Memory }
    {
        Session::empty(alloc).map_err(|_| Refused::Memory)
    }

    /// A session over a text, which it keeps as it comes, and what that cost: as much as the edit
    /// that puts the text into the empty one. A text of more than 1,048,576 bytes is refused; the
    /// only other refusal is that of memory.
    pub fn over(alloc: Global, text: Vec<u8>) -> Result<(Session, Work), Refused>
        ensures ok { IfOk result (λ made. made.0 ≡ text.items) }
        ensures lexed { IfOk result (λ made. made.1.lexed ≡ fresh_pieces [] 0 0 text.items) }
        ensures parsed { IfOk result (λ made. made.1.parsed ≡ length (fresh_items [] 0 0 text.items)) }
        ensures checked { IfOk result (λ made. made.1.checked ≡ stirred [] 0 0 text.items) }
        ensures large { limit < length text.items → IsErrOf result Refused.Size }
        ensures refused { length text.items ≤ limit → IsOkUnless result Refused.Memory }
    {
        if text.len() > LIMIT {
            return Err(Refused::Size);
        }
        match Kept::over(alloc, &text) {
            Ok((kept, work)) => Ok((Session { text, kept }, work)),
            Err(_) => Err(Refused::Memory),
        }
    }

    /// Puts other bytes in the place of those from `start` up to `stop`, and tells what that cost.
    /// An `Err` changes nothing.
    pub fn edit(&mut self, start: usize, stop: usize, new: &[u8]) -> Result<Work, Refused>
        ensures ok { OnOk result (self.new ≡ spliced self.old start stop new.now) }
        ensures lexed { IfOk result (λ work. work.lexed ≡ fresh_pieces self.old start stop new.now) }
        ensures parsed { IfOk result (λ work. work.parsed ≡ length (fresh_items self.old start stop new.now)) }
        ensures checked { IfOk result (λ work. work.checked ≡ stirred self.old start stop new.now) }
        ensures refused { MatchOption (refusal_of self.old start stop (length new.now))
            (IsOkUnless result Refused.Memory) (λ e. IsErrOf result e) }
        ensures err { OnErr result (self.new ≡ self.old) }
    {
        if let Some(refused) = self.refusal(start, stop, new.len()) {
            return Err(refused);
        }
        self.replace(start, stop, new).map_err(|_| Refused::Memory)
    }

    /// The text.
    pub fn text(&self) -> &[u8]
        ensures text { result.now ≡ self.now }
        ensures size { length result.now ≤ limit }
    {
        self.text.as_slice()
    }

    /// What is kept of the text, for whoever asks more of it.
    pub fn kept(&self) -> &Kept
        ensures { IsKept self.now result.now }
    {
        &self.kept
    }

    /// The diagnostics of the text. They rise by offset, and at one offset by code: no two have one
    /// offset and one code.
    pub fn diagnostics(&self) -> &[Diagnostic]
        ensures of_text { result.now ≡ diagnostics_of self.now }
        ensures rising { AllPairs (λ x y. stands_before x y ≡ true) result.now }
    {
        found_once();
        self.kept.found.as_slice()
    }

    /// The tables of the text. The bytes that their rows speak of lie in it, at least one for each
    /// name.
    pub fn tables(&self) -> &Tables
        ensures of_text { result.now ≡ tables_in self.now }
        ensures spans { TablesLieIn self.now result.now }
        ensures bytes { TablesHaveBytes result.now }
    {
        rows_have_bytes();
        &self.kept.tables
    }

    /// A writer of the text's listing, which has all the memory that it needs. The only refusal is
    /// that of memory.
    pub fn lister(&self) -> Result<Lister, Refused>
        ensures ok { IfOk result (IsFor (tables_in self.now)) }
        ensures refused { IsOkUnless result Refused.Memory }
    {
        Lister::new(*self.text.allocator(), &self.kept.tables).map_err(|_| Refused::Memory)
    }

    /// The listing of the text. The only refusal is that of memory.
    pub fn listing(&self) -> Result<String, Refused>
        ensures ok { IfOk result (λ listing. string_bytes listing ≡ listing_text self.now) }
        ensures refused { IsOkUnless result Refused.Memory }
    {
        listing(*self.text.allocator(), self.text(), self.tables()).map_err(|_| Refused::Memory)
    }

    /// How many of the diagnostics are errors.
    #[tactic(auto, unfolding(snl_kept::specs::Diagnostics::errors_of))]
    pub fn errors(&self) -> usize
        ensures { result ≡ errors_of self.now }
    {
        self.kept.found.iter().filter(|d| d.code.is_error()).count()
    }

    /// How many of the diagnostics are warnings.
    #[tactic(auto, unfolding(snl_kept::specs::Diagnostics::warnings_of))]
    pub fn warnings(&self) -> usize
        ensures { result ≡ warnings_of self.now }
    {
        self.kept
            .found
            .iter()
            .filter(|d| !d.code.is_error())
            .count()
    }

    // Why an edit is refused before any memory is asked for.
    fn refusal(&self, start: usize, stop: usize, added: usize) -> Option<Refused>
        ensures { result ≡ refusal_of self.now start stop added }
    {
        if start > stop || stop > self.text.len() {
            return Some(Refused::Range);
        }
        if added > LIMIT - (self.text.len() - (stop - start)) {
            return Some(Refused::Size);
        }
        None
    }

    // Makes an edit that nothing but want of memory can refuse: first all that takes memory, then
    // the change.
    fn replace(&mut self, start: usize, stop: usize, new: &[u8]) -> Result<Work, OutOfMemory>
        requires { refusal_of self.old start stop (length new.now) ≡ None }
        ensures ok { OnOk result (self.new ≡ spliced self.old start stop new.now) }
        ensures lexed { IfOk result (λ work. work.lexed ≡ fresh_pieces self.old start stop new.now) }
        ensures parsed { IfOk result (λ work. work.parsed ≡ length (fresh_items self.old start stop new.now)) }
        ensures checked { IfOk result (λ work. work.checked ≡ stirred self.old start stop new.now) }
        ensures err { OnErr result (self.new ≡ self.old) }
    {
        let alloc = *self.text.allocator();
        let text = spliced(alloc, &self.text, start, stop, new)?;
        let edit = TextEdit {
            old: &self.text,
            text: &text,
            start,
            old_stop: stop,
            new_stop: start + new.len(),
        };
        let work = self.kept.edit(&edit)?;
        self.text = text;
        Ok(work)
    }

    // A session over the empty text.
    fn empty(alloc: Global) -> Result<Session, OutOfMemory>
        ensures { IfOk result (λ s. s ≡ []) }
    {
        let kept = Kept::empty(alloc)?;
        Ok(Session {
            text: Vec::new(alloc),
            kept,
        })
    }
}

// A text with other bytes in the place of those from `start` up to `stop`.
fn spliced(
    alloc: Global,
    old: &[u8],
    start: usize,
    stop: usize,
    new: &[u8],
) -> Result<Vec<u8>, OutOfMemory>
    requires order { start ≤ stop }
    requires inside { stop ≤ length old.now }
    ensures { IfOk result (λ v. v.items ≡ spliced old.now start stop new.now) }
{
    let room = (old.len() - stop + start).saturating_add(new.len());
    let mut text = Vec::with_capacity(alloc, room)?;
    text.extend_from_slice(&old[..start])?;
    text.extend_from_slice(new)?;
    text.extend_from_slice(&old[stop..])?;
    Ok(text)
}
