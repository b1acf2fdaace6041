//! A document that is open.
//! In: its URI, its text, and the changes of each message. Out: what the client is told of it.
//! Knows nothing of other documents, and of what is asked.

ghost use Rattle.std.specs.Prelude.{◌≡◌, ◌++◌, IfOk, OnOk, map, option_map};
ghost use Rattle.json.specs.Print.{quoted};
ghost use Rattle.snl_hear.specs.Changes.{changed_of};
ghost use Rattle.snl_document.specs.Notices.{large_notice, lost_notice};
ghost use Rattle.snl_replies.specs.Replies.{framed_reply, said_of};

use crate::checked::CheckedText;
use crate::standing::Standing;
use crate::text::DocumentText;
use snl_cut::OutOfMemory;
use snl_hear::Change;
use snl_place::Encoding;
use snl_replies::{say_found, say_notice};
use snl_say::{Severity, WrittenItems, put_quoted};
use std::alloc::{AllocError, Global};
use std::marker::Model;

/// A document that is open. `quoted_uri` is its URI as a string of JSON; `written` has the items
/// of what was published of it last.
#[derive(Drop)]
pub struct Document<C: CheckedText> {
    uri: String,
    quoted_uri: Vec<u8>,
    version: Option<u64>,
    text: DocumentText<C>,
    written: WrittenItems,
}

impl<C: CheckedText> Model for Document<C> {
    ghost use Rattle.std.specs.Prelude.{◌≡◌, string_bytes};
    ghost use Rattle.json.specs.Print.{quoted};
    ghost use Rattle.snl_document.specs.Documents.{Doc};

    ghost Value = { Doc };

    ghost view = { λ d. record {
      uri = string_bytes d.uri;
      version = d.version;
      text = d.text;
    } };

    ghost invariant = { λ d. d.quoted_uri.items ≡ quoted (string_bytes d.uri) };
}

/// A URI as a string of JSON.
pub fn quoted_uri(alloc: Global, uri: &str) -> Result<Vec<u8>, AllocError>
    ensures { IfOk result (λ v. v.items ≡ quoted uri.now) }
{
    let mut bytes = Vec::new(alloc);
    put_quoted(&mut bytes, uri.as_bytes())?;
    Ok(bytes)
}

#[tactic(auto, unfolding(crate::specs::Notices::large_notice))]
fn large_notice() -> &'static [u8]
    ensures { result.now ≡ large_notice }
{
    b": more than 1048576 bytes: not checked"
}

#[tactic(auto, unfolding(crate::specs::Notices::lost_notice))]
fn lost_notice() -> &'static [u8]
    ensures { result.now ≡ lost_notice }
{
    b": a change could not be followed: open the file again"
}

impl<C: CheckedText + Drop> Document<C> {
    ghost use Rattle.snl_document.specs.Documents.{after_changes, is_named, lost, opened};
    ghost use Rattle.snl_document.specs.Texts.{checked, standing};
    ghost use Rattle.snl_document.specs.Told.{notices, published, told, told_after, told_of};

    pub fn open(
        alloc: Global,
        uri: &str,
        version: Option<u64>,
        text: &str,
    ) -> Result<Document<C>, OutOfMemory>
        ensures { IfOk result (λ document. document ≡ opened uri.now version text.now) }
    {
        let quoted_uri = quoted_uri(alloc, uri)?;
        let uri = uri.to_string(alloc)?;
        let text = DocumentText::of(alloc, text.as_bytes())?;
        Ok(Document {
            uri,
            quoted_uri,
            version,
            text,
            written: WrittenItems::new(alloc),
        })
    }

    pub fn is_named(&self, uri: &str) -> bool
        ensures { result ≡ is_named uri.now self.now }
    {
        self.uri.as_str() == uri
    }

    /// Its URI as a string of JSON.
    pub fn quoted_uri(&self) -> &[u8]
        ensures { result.now ≡ quoted self.now.uri }
    {
        &self.quoted_uri
    }

    /// Its text, where that is checked.
    pub fn checked(&self) -> Option<&C>
        ensures { option_map (λ c. C.text_of c.now) result ≡ checked self.now.text }
    {
        self.text.checked()
    }

    /// Publishes what is found in its text, or nothing, where that isn't checked.
    #[tactic(auto, using(snl_replies::specs::ReplyLaws::publish_framed))]
    fn publish(&mut self, encoding: Encoding, said: &mut Vec<u8>) -> Result<(), OutOfMemory>
        ensures state { self.new ≡ self.old }
        ensures said { OnOk result (said.new.items ≡ said.old.items
            ++ framed_reply (published C.says encoding self.old)) }
    {
        match self.text.checked() {
            Some(checked) => {
                let found = checked.found(*said.allocator(), encoding)?;
                let written = &mut self.written;
                say_found(said, &self.quoted_uri, self.version, &found, written)?;
            }
            None => say_found(said, &self.quoted_uri, self.version, &[], &mut self.written)?,
        }
        Ok(())
    }

    /// Says why its text isn't checked, if it isn't.
    #[tactic(auto, unfolding(snl_replies::specs::Replies::said_of))]
    fn notify(&self, said: &mut Vec<u8>) -> Result<(), OutOfMemory>
        ensures { OnOk result (said.new.items ≡ said.old.items
            ++ said_of (notices self.now.uri (standing self.now.text))) }
    {
        let uri = self.uri.as_bytes();
        match self.text.standing() {
            Standing::Checked => {}
            Standing::Large => say_notice(said, Severity::Warning, uri, large_notice())?,
            Standing::Lost => say_notice(said, Severity::Error, uri, lost_notice())?,
        }
        Ok(())
    }

    /// Tells the client how it is now.
    #[tactic(auto, unfolding(snl_replies::specs::Replies::said_of))]
    pub fn tell(&mut self, encoding: Encoding, said: &mut Vec<u8>) -> Result<(), OutOfMemory>
        ensures state { self.new ≡ self.old }
        ensures said { OnOk result (said.new.items ≡ said.old.items
            ++ said_of (told C.says encoding self.old)) }
    {
        self.publish(encoding, said)?;
        self.notify(said)
    }

    /// Tells the client how it is after a change, unless it stays unchecked.
    #[tactic(auto, unfolding(snl_replies::specs::Replies::said_of))]
    fn tell_after(
        &mut self,
        encoding: Encoding,
        before: Standing,
        said: &mut Vec<u8>,
    ) -> Result<(), OutOfMemory>
        ensures state { self.new ≡ self.old }
        ensures said { OnOk result (said.new.items ≡ said.old.items
            ++ said_of (told_after C.says encoding before self.old)) }
    {
        if before.stays(self.text.standing()) {
            return Ok(());
        }
        self.tell(encoding, said)
    }

    /// Makes the changes of one message, and tells the client how it is then. After an `Err`, which
    /// is want of memory, nothing is known of it.
    pub fn change(
        &mut self,
        encoding: Encoding,
        version: Option<u64>,
        changes: &[Change<'_>],
        said: &mut Vec<u8>,
    ) -> Result<(), OutOfMemory>
        ensures state { OnOk result (self.new ≡ after_changes encoding version
            (map (λ change. changed_of change) changes.now) self.old) }
        ensures said { OnOk result (said.new.items ≡ said.old.items ++ said_of
            (told_of C.says encoding (after_changes encoding version
            (map (λ change. changed_of change) changes.now)) self.old)) }
    {
        let before = self.text.standing();
        self.version = version;
        self.text.change(*said.allocator(), encoding, changes)?;
        self.tell_after(encoding, before, said)
    }

    /// Lets its text go, and tells the client so, once. After an `Err`, which is want of memory,
    /// the client may not know.
    pub fn lose(&mut self, encoding: Encoding, said: &mut Vec<u8>) -> Result<(), OutOfMemory>
        ensures state { self.new ≡ lost self.old }
        ensures said { OnOk result (said.new.items ≡ said.old.items
            ++ said_of (told_of C.says encoding lost self.old)) }
    {
        let before = self.text.standing();
        self.version = None;
        self.text.lose();
        self.tell_after(encoding, before, said)
    }
}
