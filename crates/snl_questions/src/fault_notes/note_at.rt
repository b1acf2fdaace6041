//! The note on the token at an offset of a text. In: what is kept of the text. Out: the token,
//! where something is wanted, and the words, if the token is at fault.

ghost use Rattle.std.specs.Prelude.{◌≡◌, All, IfOk, Some, option_map, slice_get};
ghost use Rattle.snl_grammar.specs.Parsing.{LiesIn};
ghost use Rattle.snl_kept.specs.Kept.{IsListed};
ghost use Rattle.snl_kept.specs.Program.{item_tokens};
ghost use Rattle.snl_notes.specs.Notes.{note_of};
ghost use Rattle.snl_questions.specs.FaultNotes.{blamed_by, blamed_in, fault_noted, fault_told};
ghost use Rattle.snl_questions.specs.FaultNotes.{is_blamed, told_at_place, told_by, wanted_at};

use crate::meanings::items::TokenPlace;
use crate::meanings::text_items::TextItems;
use crate::tokens::item_tokens::ItemTokens;
use crate::tokens::text_tokens::all_tokens;
use snl_cut::OutOfMemory;
use snl_grammar::{Parsed, same_spelling_same_tree};
use snl_kept::Lists;
use snl_lex::{Piece, text_in_pieces};
use snl_notes::{Wanted, note_of};
use snl_tables::Span;
use std::alloc::Global;

/// What is said of the token at fault in a faulty item. Something is wanted at its first byte, or
/// right after its last one.
#[derive(Debug, Drop)]
pub struct FaultNote {
    pub token: Span,
    pub wanted: usize,
    pub words: String,
}

// Which token the parser blames, where none is faulty by itself.
fn blamed_by(parsed: &Parsed) -> Option<usize>
    ensures { result ≡ blamed_by parsed.now }
{
    match parsed {
        Parsed::NoItem(at) => Some(*at),
        Parsed::Sound(_) | Parsed::BadToken(_) => None,
    }
}

// The same of the item with a number, which has these tokens.
fn blamed_in(lists: &Lists, items: &TextItems, number: usize, tokens: &[Piece]) -> Option<usize>
    requires listed { IsListed items.now.text.now lists.now }
    requires tokens { slice_get (item_tokens items.now.text.now) number ≡ Some tokens.now }
    ensures { result ≡ blamed_in items.now.text.now tokens.now }
{
    same_spelling_same_tree();
    let Some(entry) = lists.entries.get(number) else {
        return None;
    };
    blamed_by(&entry.get().parsed)
}

fn is_blamed(blamed: Option<usize>, number: usize) -> bool
    ensures { result ≡ is_blamed blamed number }
{
    match blamed {
        None => false,
        Some(at) => at == number,
    }
}

// Where something is wanted: the text says that the token is not too far off.
fn wanted_at(_text: &[u8], token: Piece, wanted: Wanted) -> usize
    requires { LiesIn _text.now token }
    ensures { result ≡ wanted_at token wanted }
{
    match wanted {
        Wanted::InPlaceOf(_) => token.start,
        Wanted::After(_) => token.start + token.len,
    }
}

// The note on a token of an item that has these, with its number among them.
fn note_on(
    alloc: Global,
    text: &[u8],
    tokens: &[Piece],
    number: usize,
    token: Piece,
) -> Result<Option<FaultNote>, OutOfMemory>
    requires within { All (LiesIn text.now) tokens.now }
    requires token { LiesIn text.now token }
    ensures { IfOk result (λ note. option_map (λ x. fault_told x) note
        ≡ option_map (told_by token) (note_of text.now tokens.now number)) }
{
    let Some(note) = note_of(alloc, text, tokens, number)? else {
        return Ok(None);
    };
    Ok(Some(FaultNote {
        token: Span {
            start: token.start,
            len: token.len,
        },
        wanted: wanted_at(text, token, note.wanted),
        words: note.words,
    }))
}

// The note on the token at a place, if it is at fault.
fn note_at_place(
    alloc: Global,
    lists: &Lists,
    items: &TextItems,
    place: TokenPlace,
) -> Result<Option<FaultNote>, OutOfMemory>
    requires { IsListed items.now.text.now lists.now }
    ensures { IfOk result (λ note. option_map (λ x. fault_told x) note
        ≡ told_at_place items.now.text.now place) }
{
    text_in_pieces();
    let Some(tokens) = items.tokens_of(place.item) else {
        return Ok(None);
    };
    let Some(token) = tokens.get(place.token) else {
        return Ok(None);
    };
    if !is_blamed(blamed_in(lists, items, place.item, tokens), place.token) {
        return Ok(None);
    }
    note_on(alloc, items.text, tokens, place.token, *token)
}

/// The note on the token of the text that has the byte at an offset, if it is at fault. None where
/// the parser doesn't blame that token, or more than 4,095 tokens of its item are before it. The
/// tokens before it are parsed some 100 times.
#[tactic(auto, unfolding(crate::specs::FaultNotes::fault_noted))]
pub fn fault_note_of(
    alloc: Global,
    lists: &Lists,
    items: &TextItems,
    offset: usize,
) -> Result<Option<FaultNote>, OutOfMemory>
    requires { IsListed items.now.text.now lists.now }
    ensures { IfOk result (λ note. option_map (λ x. fault_told x) note
        ≡ fault_noted items.now.text.now offset) }
{
    match items.place_at(offset) {
        None => Ok(None),
        Some(place) => note_at_place(alloc, lists, items, place),
    }
}

/// The note on the token that has the byte at an offset, if it is at fault in its item: where E02
/// stands. There is none on a token that comes after 4,095 others in its item. The time is that of
/// the text's tokens, which are listed, and of the tokens before the place, which are parsed some
/// 100 times.
pub fn note_at<'a>(
    alloc: Global,
    text: &'a [u8],
    lists: &'a Lists,
    offset: usize,
) -> Result<Option<FaultNote>, OutOfMemory>
    requires { IsListed text.now lists.now }
    ensures { IfOk result (λ note. option_map (λ x. fault_told x) note
        ≡ fault_noted text.now offset) }
{
    let tokens = all_tokens(alloc, &lists.pieces)?;
    let items = TextItems {
        text,
        items: ItemTokens::of_text(text, &tokens, &lists.items.ends),
    };
    fault_note_of(alloc, lists, &items, offset)
}
