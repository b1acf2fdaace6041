//! The items of a document's diagnostics, as they were written last.
//! In: what is found now. Out: the bytes of its items, after those that are there. An item that
//! says what the one of its number said is not written anew: most keys change few.
//! Knows nothing of documents, and of what is written around items.

ghost use Rattle.std.specs.Prelude.{◌≡◌, ◌+◌, ◌≤◌, ◌++◌, ◌∷◌, [], IfOk, IsTrue, OnOk, codes, flat_map, length, map, max, take};
ghost use Rattle.snl_say.specs.Publish.{after_comma, found_of, item_text, items_text};

use crate::diagnostics::{Shown, put_item};
use crate::severity::Severity;
use snl_facts::are_same_bytes;
use snl_place::Place;
use std::alloc::{AllocError, Global};
use std::marker::Model;

/// Nearly all items have fewer bytes.
const ITEM_ROOM: usize = 192;

/// An item with a comma before it, and what it says. Contracts see what it says.
#[derive(Drop)]
struct WrittenItem {
    start: Place,
    stop: Place,
    severity: Severity,
    code: &'static [u8],
    message: &'static [u8],
    quoted: Vec<u8>,
    text: Vec<u8>,
}

impl Model for WrittenItem {
    ghost use Rattle.std.specs.Prelude.{◌≡◌, ◌++◌};
    ghost use Rattle.snl_say.specs.Publish.{Found, after_comma};
    ghost use Rattle.snl_script.specs.Parts.{quoted as in_quotes};

    ghost Value = { Found };

    ghost view = { λ w. record {
      start = w.start;
      stop = w.stop;
      severity = w.severity;
      code = w.code.now;
      message = w.message.now ++ in_quotes w.quoted.items;
    } };

    ghost invariant = { λ w. w.text.items ≡ after_comma (record {
      start = w.start;
      stop = w.stop;
      severity = w.severity;
      code = w.code.now;
      message = w.message.now ++ in_quotes w.quoted.items;
    }) };
}

impl WrittenItem {
    fn of(alloc: Global, shown: &Shown<'_>) -> Result<WrittenItem, AllocError>
        ensures { IfOk result (λ w. w ≡ found_of shown.now) }
    {
        let mut text = Vec::with_capacity(alloc, ITEM_ROOM)?;
        put_item(&mut text, true, shown)?;
        let quoted = Vec::from_slice(alloc, shown.quoted)?;
        Ok(WrittenItem {
            start: shown.start,
            stop: shown.stop,
            severity: shown.severity,
            code: shown.code,
            message: shown.message,
            quoted,
            text,
        })
    }

    /// Its bytes, with a comma before them.
    fn after_comma(&self) -> &[u8]
        ensures { result.now ≡ after_comma self.now }
    {
        &self.text
    }

    /// Its bytes.
    fn text(&self) -> &[u8]
        ensures { result.now ≡ item_text self.now }
    {
        &self.text[1..]
    }

    /// Whether it says this.
    fn says(&self, shown: &Shown<'_>) -> bool
        ensures { IsTrue result → self.now ≡ found_of shown.now }
    {
        self.start == shown.start
            && self.stop == shown.stop
            && self.severity == shown.severity
            && are_same_bytes(self.code, shown.code)
            && are_same_bytes(self.message, shown.message)
            && are_same_bytes(&self.quoted, shown.quoted)
    }

    /// Makes it say this.
    fn keep(&mut self, alloc: Global, shown: &Shown<'_>) -> Result<(), AllocError>
        ensures { OnOk result (self.new ≡ found_of shown.now) }
    {
        if !self.says(shown) {
            *self = WrittenItem::of(alloc, shown)?;
        }
        Ok(())
    }
}

/// The items of the diagnostics of a document. Contracts see what they say.
#[derive(Drop)]
pub struct WrittenItems {
    items: Vec<WrittenItem>,
}

impl Model for WrittenItems {
    ghost use Rattle.std.specs.Prelude.{List};
    ghost use Rattle.snl_say.specs.Publish.{Found};

    ghost Value = { List Found };

    ghost view = { λ w. w.items.items };
}

impl WrittenItems {
    /// No items.
    pub fn new(alloc: Global) -> WrittenItems
        ensures { result ≡ [] }
    {
        WrittenItems {
            items: Vec::new(alloc),
        }
    }

    /// Makes the item of a number say this, or the one after the last.
    fn keep(&mut self, alloc: Global, number: usize, shown: &Shown<'_>) -> Result<(), AllocError>
        requires { number ≤ length self.old }
        ensures front { OnOk result (take (number + 1) self.new
            ≡ take number self.old ++ (found_of shown.now ∷ [])) }
        ensures count { OnOk result (length self.new ≡ max (length self.old) (number + 1)) }
    {
        if number < self.items.len() {
            self.items[number].keep(alloc, shown)?;
        } else {
            self.items.push(WrittenItem::of(alloc, shown)?)?;
        }
        Ok(())
    }

    /// Makes them say what is found now. After an `Err`, of memory, they say something else.
    pub fn update(&mut self, alloc: Global, all: &[Shown<'_>]) -> Result<(), AllocError>
        ensures { OnOk result (self.new ≡ map (λ s. found_of s) all.now) }
    {
        self.items.truncate(all.len());
        for (number, shown) in all.iter().enumerate() {
            self.keep(alloc, number, shown)?;
        }
        Ok(())
    }

    /// The items and the bracket that closes them. An `Err`, of memory, may leave a front of them.
    pub fn put(&self, out: &mut Vec<u8>) -> Result<(), AllocError>
        ensures { OnOk result (out.new.items ≡ out.old.items ++ items_text self.now) }
    {
        put_items(out, &self.items)
    }
}

/// The items after the first, each with a comma before it, and the bracket that closes them.
fn put_rest(out: &mut Vec<u8>, rest: &[WrittenItem]) -> Result<(), AllocError>
    ensures { OnOk result (out.new.items ≡ out.old.items
        ++ (flat_map after_comma rest.now ++ codes "]")) }
{
    for item in rest {
        out.extend_from_slice(item.after_comma())?;
    }
    out.extend_from_slice(b"]")?;
    Ok(())
}

/// The items and the bracket that closes them.
fn put_items(out: &mut Vec<u8>, all: &[WrittenItem]) -> Result<(), AllocError>
    ensures { OnOk result (out.new.items ≡ out.old.items ++ items_text all.now) }
{
    match all.split_first() {
        Some((first, rest)) => {
            out.extend_from_slice(first.text())?;
            put_rest(out, rest)?;
        }
        None => out.extend_from_slice(b"]")?,
    }
    Ok(())
}
