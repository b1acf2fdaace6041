//! What a session keeps of an item: what the parser made of it, and what it says to the others. In:
//! tokens of a text, and where its items end among them. Out: an entry for each item, which goes by
//! the spelling of its tokens alone, so that an edit elsewhere leaves it as it is. Items with
//! nothing in them that are spelled alike, as `}` and `;`, share their entries.
#![tactic(auto)]

ghost use Rattle.std.specs.Prelude.{◌≡◌, ◌<◌, All, IfOk, IfSome, length, map};
ghost use Rattle.snl_cut.specs.Cut.{after_ticks, members, ticked};
ghost use Rattle.snl_lex.specs.PieceList.{spelled};
ghost use Rattle.snl_lex.specs.Pieces.{LiesIn};
ghost use Rattle.snl_grammar.specs.Outcome.{parsed_by};
ghost use Rattle.snl_kept.specs.Entries.{entry_by};
ghost use Rattle.snl_kept.specs.Parts.{EndsWithin};

use crate::shared::Shared;
use snl_cut::{Count, OutOfMemory};
use snl_grammar::tree::item::Item;
use snl_grammar::{Parsed, same_spelling_same_tree};
use snl_items::{TokenList, are_spelled_alike};
use snl_lex::Piece;
use snl_scope::{Summary, same_spelling_same_summary, summary_of};
use snl_syntax::parsed;
use std::alloc::Global;
use std::marker::Model;

/// An item as it is kept.
pub struct Entry {
    pub parsed: Parsed,
    pub summary: Summary,
}

// By hand, so that whoever holds one need not know what is in it to let it go.
impl Drop for Entry {
    fn drop(self) {
        let Entry {
            parsed: _,
            summary: _,
        } = self;
    }
}

// The most entries that others share.
const FEW: usize = 8;

// The tokens of an item, and its entry, which others that are spelled alike share.
#[derive(Drop)]
struct CommonEntry {
    own: Vec<Piece>,
    entry: Shared<Entry>,
}

// The entries of items of a text with nothing in them, each once.
#[derive(Drop)]
struct CommonEntries<'a> {
    text: &'a [u8],
    entries: Vec<CommonEntry>,
}

impl<'a> Model for CommonEntries<'a> {
    ghost use Rattle.std.specs.Prelude.{All, List, ℕ};
    ghost use Rattle.snl_kept.specs.Entries.{IsCommon};

    ghost Value = { List ℕ };

    ghost view = { λ c. c.text.now };

    ghost invariant = { λ c. All (IsCommon c.text.now) c.entries.items };
}

// Whether the tree of an item has nothing in it, or there is none.
fn is_leaf(parsed: &Parsed) -> bool {
    match parsed {
        Parsed::Sound(tree) => matches!(tree, Item::SsEnd | Item::Empty),
        Parsed::BadToken(_) | Parsed::NoItem(_) => true,
    }
}

impl<'a> CommonEntries<'a> {
    fn new(alloc: Global, text: &'a [u8]) -> CommonEntries<'a>
        ensures { result ≡ text.now }
    {
        CommonEntries {
            text,
            entries: Vec::new(alloc),
        }
    }

    // The entry of an item with these tokens, if one of these items is spelled alike.
    fn spelled_as(&self, own: &[Piece]) -> Option<&Shared<Entry>>
        requires { All (LiesIn self.now) own.now }
        ensures { IfSome result (λ same. same.now ≡ entry_by (spelled self.now own.now)) }
    {
        for common in &self.entries {
            if are_spelled_alike(self.text, &common.own, self.text, own) {
                return Some(&common.entry);
            }
        }
        None
    }

    // Lets all go where there are too many: what comes next is more likely like what came last.
    fn keep_few(&mut self)
        ensures { self.new ≡ self.old }
    {
        if self.entries.len() >= FEW {
            self.entries.clear();
        }
    }

    // Takes in the entry of the item that has these tokens.
    fn add(&mut self, own: Vec<Piece>, entry: &Shared<Entry>) -> Result<(), OutOfMemory>
        requires within { All (LiesIn self.old) own.items }
        requires entry { entry.now ≡ entry_by (spelled self.old own.items) }
        ensures { self.new ≡ self.old }
    {
        let entry = entry.share()?;
        self.entries.push(CommonEntry { own, entry })?;
        Ok(())
    }
}

// The entry of the item that consists of these tokens, by what the parser made of them.
fn entry_with(
    alloc: Global,
    text: &[u8],
    tokens: &[Piece],
    parsed: Parsed,
) -> Result<Entry, OutOfMemory>
    requires parsed { parsed ≡ parsed_by (spelled text.now tokens.now) }
    requires within { All (LiesIn text.now) tokens.now }
    ensures { IfOk result (λ e. e ≡ entry_by (spelled text.now tokens.now)) }
{
    same_spelling_same_summary();
    let summary = summary_of(alloc, text, tokens, parsed.tree())?;
    Ok(Entry { parsed, summary })
}

/// The entry of the item that consists of these tokens. It is parsed once.
pub fn entry_of(
    alloc: Global,
    text: &[u8],
    tokens: &[Piece],
    work: &mut Count,
) -> Result<Entry, OutOfMemory>
    requires some { 0 < length tokens.now }
    requires within { All (LiesIn text.now) tokens.now }
    ensures entry { IfOk result (λ e. e ≡ entry_by (spelled text.now tokens.now)) }
    ensures ticks { work.new ≡ ticked work.old }
{
    same_spelling_same_tree();
    let parsed = parsed(alloc, text, tokens, work)?;
    entry_with(alloc, text, tokens, parsed)
}

// An entry by what the parser made of these tokens, to be shared.
fn kept_entry(
    alloc: Global,
    text: &[u8],
    tokens: &[Piece],
    parsed: Parsed,
) -> Result<Shared<Entry>, OutOfMemory>
    requires parsed { parsed ≡ parsed_by (spelled text.now tokens.now) }
    requires within { All (LiesIn text.now) tokens.now }
    ensures { IfOk result (λ e. e ≡ entry_by (spelled text.now tokens.now)) }
{
    let entry = entry_with(alloc, text, tokens, parsed)?;
    Ok(Shared::new(alloc, entry)?)
}

// The entry of an item with nothing in it, that of one which is spelled alike if there is one. With
// it comes a list for the tokens of the next item: this one's, if they aren't kept.
fn common_entry(
    alloc: Global,
    common: &mut CommonEntries,
    own: Vec<Piece>,
    parsed: Parsed,
) -> Result<(Shared<Entry>, Vec<Piece>), OutOfMemory>
    requires within { All (LiesIn common.old) own.items }
    requires parsed { parsed ≡ parsed_by (spelled common.old own.items) }
    ensures common { common.new ≡ common.old }
    ensures entry { IfOk result (λ r. r.0 ≡ entry_by (spelled common.old own.items)) }
{
    if let Some(same) = common.spelled_as(&own) {
        let entry = same.share()?;
        return Ok((entry, own));
    }
    let entry = kept_entry(alloc, common.text, &own, parsed)?;
    common.keep_few();
    common.add(own, &entry)?;
    Ok((entry, Vec::new(alloc)))
}

// The entry of the item that has these tokens, shared where nothing is in it. It is parsed once.
// With it comes a list for the tokens of the next item.
fn shared_entry(
    alloc: Global,
    common: &mut CommonEntries,
    own: Vec<Piece>,
    work: &mut Count,
) -> Result<(Shared<Entry>, Vec<Piece>), OutOfMemory>
    requires some { 0 < length own.items }
    requires within { All (LiesIn common.old) own.items }
    ensures common { common.new ≡ common.old }
    ensures entry { IfOk result (λ r. r.0 ≡ entry_by (spelled common.old own.items)) }
    ensures ticks { work.new ≡ ticked work.old }
{
    same_spelling_same_tree();
    let parsed = parsed(alloc, common.text, &own, work)?;
    if is_leaf(&parsed) {
        return common_entry(alloc, common, own, parsed);
    }
    let entry = kept_entry(alloc, common.text, &own, parsed)?;
    Ok((entry, own))
}

/// The entries of the items that end at these tokens, the first of which begins at token `from`.
/// Each is parsed once.
pub fn entries_along(
    alloc: Global,
    text: &[u8],
    tokens: &TokenList,
    from: usize,
    ends: &[u32],
    work: &mut Count,
) -> Result<Vec<Shared<Entry>>, OutOfMemory>
    requires ends { EndsWithin from ends.now (length tokens.now) }
    requires within { All (LiesIn text.now) tokens.now }
    ensures entries { IfOk result (λ es. es.items ≡ map entry_by (members (spelled text.now tokens.now) from ends.now)) }
    ensures ticks { IfOk result (λ es. work.new ≡ after_ticks work.old (length ends.now)) }
{
    let mut entries = Vec::with_capacity(alloc, ends.len())?;
    let mut common = CommonEntries::new(alloc, text);
    let mut own = Vec::new(alloc);
    let mut start = from;
    for end in ends {
        let stop = *end as usize;
        tokens.list(alloc, start, stop, &mut own)?;
        let (entry, next) = shared_entry(alloc, &mut common, own, work)?;
        own = next;
        entries.push(entry)?;
        start = stop;
    }
    Ok(entries)
}
