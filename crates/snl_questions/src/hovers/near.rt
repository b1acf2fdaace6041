//! What a hover says. In: what is kept of a text, and an offset. Out: the token near it, and the
//! lines.

ghost use Rattle.std.specs.Prelude.{◌≡◌, ◌++◌, IfOk, OnOk, option_map};
ghost use Rattle.snl_kept.specs.Kept.{IsKept, IsListed};
ghost use Rattle.snl_questions.specs.FaultNotes.{fault_told};
ghost use Rattle.snl_questions.specs.Hover.{further, hover_at, hover_by_note, hover_of, hover_over};
ghost use Rattle.snl_questions.specs.Hover.{named_at, noted_at, table_lines, told_of};

use crate::fault_notes::note_at::{FaultNote, fault_note_of};
use crate::hovers::channels::put_channels;
use crate::hovers::declarations::declaration_line;
use crate::hovers::flags::put_flag;
use crate::hovers::states::put_state;
use crate::meanings::near::{Meaning, meaning_of};
use crate::meanings::text_items::TextItems;
use crate::tokens::item_tokens::ItemTokens;
use crate::tokens::text_tokens::all_tokens;
use snl_cut::OutOfMemory;
use snl_kept::{Kept, Lists};
use snl_tables::{Span, Tables};
use std::alloc::Global;

/// What a hover says of a name, or of a token at fault: lines, with an LF between two and none at
/// the end.
#[derive(Debug, Drop)]
pub struct Hover {
    pub name: Span,
    pub lines: Vec<u8>,
}

// What the tables say of what a name means, a line each.
#[tactic(auto, using(crate::proofs::Lines::further_append))]
fn put_table_lines(
    alloc: Global,
    out: &mut Vec<u8>,
    text: &[u8],
    tables: &Tables,
    meaning: Meaning,
) -> Result<(), OutOfMemory>
    ensures { OnOk result (out.new.items ≡ out.old.items
        ++ further (table_lines text.now tables.now meaning)) }
{
    put_channels(out, text, tables, meaning.number)?;
    put_flag(out, tables.flags.as_slice(), meaning.declared)?;
    put_state(alloc, out, text, tables, meaning.declared)
}

// What a hover says of a name, by what it means.
#[tactic(auto, using(crate::proofs::Lines::joined))]
fn hover_over(
    alloc: Global,
    text: &[u8],
    kept: &Kept,
    meaning: Meaning,
) -> Result<Hover, OutOfMemory>
    requires { IsKept text.now kept.now }
    ensures { IfOk result (λ hover. told_of hover ≡ hover_over text.now meaning) }
{
    let ends = kept.lists.lines.ends.as_slice();
    let mut lines = Vec::new(alloc);
    lines.extend_from_slice(declaration_line(text, ends, meaning.declared))?;
    put_table_lines(alloc, &mut lines, text, &kept.tables, meaning)?;
    Ok(Hover {
        name: meaning.name,
        lines,
    })
}

// The hover of a token at fault, which says its note.
fn hover_by_note(alloc: Global, note: FaultNote) -> Result<Hover, OutOfMemory>
    ensures { IfOk result (λ hover. told_of hover ≡ hover_by_note (fault_told note)) }
{
    let mut lines = Vec::new(alloc);
    lines.extend_from_slice(note.words.as_bytes())?;
    Ok(Hover {
        name: note.token,
        lines,
    })
}

// The hover of the token that has the byte at an offset, if it is at fault.
fn noted_at(
    alloc: Global,
    lists: &Lists,
    items: &TextItems,
    offset: usize,
) -> Result<Option<Hover>, OutOfMemory>
    requires { IsListed items.now.text.now lists.now }
    ensures { IfOk result (λ hover. option_map (λ x. told_of x) hover
        ≡ noted_at items.now.text.now offset) }
{
    let Some(note) = fault_note_of(alloc, lists, items, offset)? else {
        return Ok(None);
    };
    let hover = hover_by_note(alloc, note)?;
    Ok(Some(hover))
}

// The hover of the name that has it, if it means something.
fn named_at(
    alloc: Global,
    kept: &Kept,
    items: &TextItems,
    offset: usize,
) -> Result<Option<Hover>, OutOfMemory>
    requires { IsKept items.now.text.now kept.now }
    ensures { IfOk result (λ hover. option_map (λ x. told_of x) hover
        ≡ named_at items.now.text.now offset) }
{
    let Some(meaning) = meaning_of(alloc, &kept.lists, items, offset)? else {
        return Ok(None);
    };
    let hover = hover_over(alloc, items.text, kept, meaning)?;
    Ok(Some(hover))
}

// What is said of the token that has the byte at an offset.
#[tactic(auto, unfolding(crate::specs::Hover::hover_at))]
fn hover_among(
    alloc: Global,
    kept: &Kept,
    items: &TextItems,
    offset: usize,
) -> Result<Option<Hover>, OutOfMemory>
    requires { IsKept items.now.text.now kept.now }
    ensures { IfOk result (λ hover. option_map (λ x. told_of x) hover
        ≡ hover_at items.now.text.now offset) }
{
    if let Some(hover) = noted_at(alloc, &kept.lists, items, offset)? {
        return Ok(Some(hover));
    }
    named_at(alloc, kept, items, offset)
}

// The same of the token that a cursor at the offset is on.
#[tactic(auto, unfolding(crate::specs::Hover::hover_of))]
fn hover_near(
    alloc: Global,
    kept: &Kept,
    items: &TextItems,
    offset: usize,
) -> Result<Option<Hover>, OutOfMemory>
    requires { IsKept items.now.text.now kept.now }
    ensures { IfOk result (λ hover. option_map (λ x. told_of x) hover
        ≡ hover_of items.now.text.now offset) }
{
    if let Some(hover) = hover_among(alloc, kept, items, offset)? {
        return Ok(Some(hover));
    }
    if offset == 0 {
        return Ok(None);
    }
    hover_among(alloc, kept, items, offset - 1)
}

/// What a hover says of the token that a cursor at an offset is on. Of a token at fault, where E02
/// stands: what may come there (`note_at`). Of a name: the line of its declaration, of at most 200
/// bytes, and then its channels, its number as an event flag, or the mark of the state and what
/// that wakes on. None where nothing is said of the token that has the byte at the offset, nor of
/// that which has the byte before. The only error is want of memory.
pub fn hover_at<'a>(
    alloc: Global,
    text: &'a [u8],
    kept: &'a Kept,
    offset: usize,
) -> Result<Option<Hover>, OutOfMemory>
    requires { IsKept text.now kept.now }
    ensures { IfOk result (λ hover. option_map (λ x. told_of x) hover
        ≡ hover_of text.now offset) }
{
    let tokens = all_tokens(alloc, &kept.lists.pieces)?;
    let items = TextItems {
        text,
        items: ItemTokens::of_text(text, &tokens, &kept.lists.items.ends),
    };
    hover_near(alloc, kept, &items, offset)
}
