//! What an edit of a text makes of its tokens.
//! In: the list of the old pieces and what the edit makes of them. Out: which tokens are replaced,
//! and by which.

ghost use Rattle.snl_items.specs.Changes.{AreLeftFrom, AreShifted, IsTokenChange, made_tokens, replaced_tokens};
ghost use Rattle.snl_items.specs.Items.{mark_in};
ghost use Rattle.snl_items.specs.Places.{piece_to};
ghost use Rattle.snl_lex.specs.Edit.{IsChange, edit_of, made_pieces};
ghost use Rattle.snl_lex.specs.PieceList.{is_token_class, listed_pieces, piece_ends, piece_kinds, spelled};
ghost use Rattle.snl_lex.specs.Pieces.{LiesIn, is_token};
ghost use Rattle.std.specs.Prelude.{◌≡◌, ◌+◌, ◌^◌, ◌<◌, ◌≤◌, ◌↔◌, [], All, IfOk, IfSome, IsTrue, count_by, filter, length, map, vec_capacity, vec_len};

use crate::laws::few_pieces;
use crate::shifted::{Shifted, shifted_from};
use crate::spelled::are_spelled_alike;
use snl_cut::{OutOfMemory, ends_in_order, meets_where_sought, one_cut};
use snl_grammar::{Mark, mark};
use snl_lex::{
    Bytes, Class, Piece, PieceChange, PieceList, TextEdit, kept_as_spelled, pieces_as_listed,
    text_in_pieces,
};
use std::alloc::Global;

/// An edit of a list of tokens: those from `start` up to `old_stop` became those from `start` up to
/// `new_stop`.
#[derive(Clone, Copy, Debug, PartialEq, Eq)]
pub struct TokenEdit {
    pub start: usize,
    pub old_stop: usize,
    pub new_stop: usize,
}

/// What an edit of a text makes of its tokens: which are replaced, the marks of those that are made,
/// and whether these are spelled as the replaced ones, so that nothing changes for the items; and
/// whether moreover the edit leaves all tokens of the text at their places, or shifted.
#[derive(Drop)]
pub struct TokenChange {
    pub edit: TokenEdit,
    pub marks: Vec<Mark>,
    pub same: bool,
    pub shifted: Option<Shifted>,
}

// So many pieces can be counted in a byte, and so sixteen of them at once.
const BLOCK: usize = 255;

// How many of a few pieces of these classes are tokens.
fn count_few(kinds: &[Class]) -> u8
    requires { length kinds.now ≤ 255 }
    ensures { result ≡ count_by is_token_class kinds.now }
{
    let mut count: u8 = 0;
    for kind in kinds {
        if kind.is_token() {
            count += 1;
        }
    }
    count
}

// How many of the pieces of these classes are tokens.
pub(crate) fn count_tokens(kinds: &[Class]) -> usize
    ensures { result ≡ count_by is_token_class kinds.now }
{
    let mut count = 0;
    let mut start = 0;
    while start < kinds.len() {
        let stop = kinds.len().min(start + BLOCK);
        count += count_few(&kinds[start..stop]) as usize;
        start = stop;
    }
    count
}

// The piece of this class from one place up to another.
fn piece_between(kind: Class, start: u32, end: u32) -> Piece
    ensures { result ≡ piece_to kind start end }
{
    Piece {
        kind,
        start: start as usize,
        len: end.saturating_sub(start) as usize,
    }
}

// Adds the marks of those pieces that are tokens, if the first piece begins at a place. They come by
// value, and there is room for all: so their place and number stay in registers, and no room is
// looked for at each.
fn with_marks(
    mut marks: Vec<Mark>,
    text: &[u8],
    begin: u32,
    ends: &[u32],
    kinds: &[Class],
) -> Vec<Mark>
    requires none { marks.items ≡ [] }
    requires room { count_by is_token_class kinds.now ≤ vec_capacity marks }
    requires same { length ends.now ≡ length kinds.now }
    requires inside { All (LiesIn text.now) (listed_pieces begin ends.now kinds.now) }
    ensures { result.items ≡ map (mark_in text.now) (filter is_token (listed_pieces begin ends.now kinds.now)) }
{
    let mut start = begin;
    for (number, kind) in kinds.iter().enumerate() {
        let end = ends[number];
        if kind.is_token() {
            marks.push_reserved(mark(text, piece_between(*kind, start, end)));
        }
        start = end;
    }
    marks
}

// What the tokens that an edit makes are to the cut into items.
fn made_marks(alloc: Global, text: &[u8], change: &PieceChange) -> Result<Vec<Mark>, OutOfMemory>
    requires same { vec_len change.now.list.ends ≡ vec_len change.now.list.kinds }
    requires inside { All (LiesIn text.now) (made_pieces change.now) }
    ensures { IfOk result (λ marks. marks.items ≡ map (mark_in text.now) (made_tokens change.now)) }
{
    let ends = change.list.ends.as_slice();
    let kinds = change.list.kinds.as_slice();
    let marks = Vec::with_capacity(alloc, count_tokens(kinds))?;
    Ok(with_marks(marks, text, change.made_from, ends, kinds))
}

// Whether tokens that an edit makes are spelled as those that it replaces; if so, what is known of
// it if it leaves these.
struct Alike {
    same: bool,
    shifted: Option<Shifted>,
}

// Compares the tokens that an edit makes with those that it replaces, which are as many. The first
// of these has the number `from`.
fn compared(edit: &TextEdit, from: usize, replaced: &[Piece], made: &[Piece]) -> Alike
    requires fits { from + length replaced.now < 2 ^ 64 }
    requires old { All (LiesIn edit.now.old.now) replaced.now }
    requires new { All (LiesIn edit.now.text.now) made.now }
    ensures same { IsTrue result.same ↔ (spelled edit.now.old.now replaced.now ≡ spelled edit.now.text.now made.now) }
    ensures shifted { IfSome result.shifted (AreLeftFrom (edit_of edit.now) result.same from replaced.now made.now) }
{
    let same = are_spelled_alike(edit.old, replaced, edit.text, made);
    let shifted = shifted_from(edit, same, from, replaced, made);
    Alike { same, shifted }
}

// Whether the tokens that an edit makes are spelled as those that it replaces. They are listed only
// where they are as many.
fn likeness_of(
    alloc: Global,
    pieces: &PieceList,
    edit: &TextEdit,
    change: &PieceChange,
    tokens: TokenEdit,
) -> Result<Alike, OutOfMemory>
    requires ends { pieces.now.ends.items ≡ piece_ends edit.now.old.now }
    requires kinds { pieces.now.kinds.items ≡ piece_kinds edit.now.old.now }
    requires change { IsChange (edit_of edit.now) change.now }
    requires replaced { tokens.old_stop ≡ tokens.start + length (replaced_tokens edit.now.old.now change.now) }
    requires made { tokens.new_stop ≡ tokens.start + length (made_tokens change.now) }
    ensures same { IfOk result (λ a. IsTrue a.same ↔ (spelled edit.now.old.now (replaced_tokens edit.now.old.now change.now) ≡ spelled edit.now.text.now (made_tokens change.now))) }
    ensures shifted { IfOk result (λ a. IfSome a.shifted (AreLeftFrom (edit_of edit.now) a.same tokens.start (replaced_tokens edit.now.old.now change.now) (made_tokens change.now))) }
{
    text_in_pieces();
    if tokens.old_stop != tokens.new_stop {
        return Ok(Alike {
            same: false,
            shifted: None,
        });
    }
    let back = pieces.ends.len() - change.kept_back;
    let replaced = pieces.tokens_between(alloc, change.kept_front, back)?;
    let made = change.made_tokens(alloc)?;
    Ok(compared(edit, tokens.start, &replaced, &made))
}

impl TokenChange {
    /// What an edit makes of the tokens of a text, the pieces of which are listed. The only error
    /// is want of memory.
    pub fn of(
        alloc: Global,
        pieces: &PieceList,
        edit: &TextEdit,
        change: &PieceChange,
    ) -> Result<TokenChange, OutOfMemory>
        requires ends { pieces.now.ends.items ≡ piece_ends edit.now.old.now }
        requires kinds { pieces.now.kinds.items ≡ piece_kinds edit.now.old.now }
        requires change { IsChange (edit_of edit.now) change.now }
        ensures change { IfOk
            result
            (λ r. IsTokenChange (edit_of edit.now) r) }
        ensures shifted { IfOk
            result
            (λ r. IfSome r.shifted (λ t. AreShifted (edit_of edit.now) t.by t.before)) }
    {
        kept_as_spelled();
        meets_where_sought::<Bytes>();
        one_cut::<Bytes>();
        ends_in_order::<Bytes>();
        text_in_pieces();
        pieces_as_listed();
        few_pieces();
        let front = change.kept_front;
        let back = pieces.ends.len() - change.kept_back;
        let marks = made_marks(alloc, edit.text, change)?;
        let start = count_tokens(&pieces.kinds[..front]);
        let tokens = TokenEdit {
            start,
            old_stop: start + count_tokens(&pieces.kinds[front..back]),
            new_stop: start + marks.len(),
        };
        let Alike { same, shifted } = likeness_of(alloc, pieces, edit, change, tokens)?;
        Ok(TokenChange {
            edit: tokens,
            marks,
            same,
            shifted,
        })
    }
}
