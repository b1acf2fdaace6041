//! The cut of a text into pieces, made whole or again after an edit.
//! In: a text; after an edit also the old text and its pieces. Out: the pieces, or what is kept and
//! made of them. It knows of a piece only that it is the first one of what is left.

ghost use Rattle.snl_cut.specs.Cut.{Counted, IsCut, IsEdit, IsRecut, after_ticks, last_end};
ghost use Rattle.snl_lex.specs.Local.{piece_front, piece_local};
ghost use Rattle.snl_lex.specs.PieceList.{IsRelexed, listed_pieces};
ghost use Rattle.snl_lex.specs.Pieces.{HasOwnBytes, LiesIn, bytes_at, moved_piece, piece_at, piece_class, piece_end, piece_length, pieces_of};
ghost use Rattle.std.specs.List.{flat_map};
ghost use Rattle.std.specs.Prelude.{◌≡◌, ◌+◌, ◌-◌, ◌^◌, ◌<◌, ◌≤◌, ◌++◌, All, IfOk, drop, length, map, take};

use crate::piece::{Class, Piece};
use crate::scan::first_piece;
use snl_cut::{
    Count, Ends, Front, NarrowRecut, NotedRecut, Noting, OutOfMemory, recut_narrow, recut_noted,
};
use std::alloc::Global;

/// The front that cuts a text into pieces: its units are bytes.
pub struct Bytes;

impl Front for Bytes {
    type Unit = u8;

    ghost first_of = { piece_length };

    ghost within = { piece_front };

    ghost local = { piece_local };

    fn first(&self, rest: &[u8], work: &mut Count) -> usize {
        work.tick();
        first_piece(rest).1
    }
}

// It notes the class of each piece.
impl Noting for Bytes {
    type Note = Class;

    ghost note_of = { piece_class };

    fn first_noted(&self, rest: &[u8], work: &mut Count) -> (usize, Class) {
        work.tick();
        let (class, length) = first_piece(rest);
        (length, class)
    }
}

// The piece that begins at `at`.
#[tactic(auto, unfolding(crate::specs::Pieces::piece_at))]
fn piece_at(text: &[u8], at: usize) -> Piece
    requires { at < length text.now }
    ensures piece { result ≡ piece_at text.now at }
    ensures some { 1 ≤ result.len }
    ensures inside { at + result.len ≤ length text.now }
{
    let (kind, len) = first_piece(&text[at..]);
    Piece {
        kind,
        start: at,
        len,
    }
}

/// The pieces of a text, cut from the left. Each is one tick. The only error is want of memory.
///
/// Classes are those of the SNL reference of the EPICS sequencer 2.2 manual; which bytes a faulty
/// piece takes is this project's profile.
pub fn lex(alloc: Global, text: &[u8], work: &mut Count) -> Result<Vec<Piece>, OutOfMemory>
    ensures pieces { IfOk result (λ pieces. pieces.items ≡ pieces_of text.now) }

    // Laws of the pieces of any text: joined they are the text, each lies in it and has a byte, and
    // each has bytes of its class alone.
    ensures joined { IfOk result (λ pieces. flat_map (bytes_at text.now) pieces.items ≡ text.now) }
    ensures inside { IfOk result (λ pieces. All (LiesIn text.now) pieces.items) }
    ensures own_bytes { IfOk result (λ pieces. All (HasOwnBytes text.now) pieces.items) }
    ensures cut { IfOk result (λ pieces. IsCut piece_length text.now (map piece_end pieces.items)) }

    ensures ticks { IfOk result (λ pieces. work.new ≡ after_ticks work.old (length pieces.items)) }
    ensures counted { Counted work.old work.new }
{
    let mut pieces = Vec::new(alloc);
    let mut at = 0;
    while at < text.len() {
        work.tick();
        let piece = piece_at(text, at);
        pieces.push(piece)?;
        at += piece.len;
    }
    Ok(pieces)
}

// The pieces that these lists say, the first of which begins at a place.
fn listed_pieces(
    alloc: Global,
    from: usize,
    ends: &[usize],
    kinds: &[Class],
) -> Result<Vec<Piece>, OutOfMemory>
    requires { length ends.now ≡ length kinds.now }
    ensures { IfOk result (λ pieces. pieces.items ≡ listed_pieces from ends.now kinds.now) }
{
    let mut pieces = Vec::with_capacity(alloc, ends.len())?;
    let mut start = from;
    for number in 0..ends.len() {
        let end = ends[number];
        pieces.push(Piece {
            kind: kinds[number],
            start,
            len: end.saturating_sub(start),
        })?;
        start = end;
    }
    Ok(pieces)
}

/// What is kept of the pieces of `old_text`, however their ends are kept, and the ends and classes
/// of those that are made for `text`, in which the bytes from `start` to `old_stop` were replaced
/// by those up to `new_stop`. Each piece that is made is one tick. The only error is want of
/// memory.
pub fn relex_by<E: Ends>(
    alloc: Global,
    old_text: &[u8],
    old: &E,
    text: &[u8],
    start: usize,
    old_stop: usize,
    new_stop: usize,
    work: &mut Count,
) -> Result<NotedRecut<Class>, OutOfMemory>
    requires old_ends { E.listed old.now ≡ map piece_end (pieces_of old_text.now) }
    requires edit { IsEdit old_text.now text.now start old_stop new_stop }
    ensures relexed { IfOk
        result
        (λ r. IsRelexed old_text.now text.now start old_stop new_stop r.kept_front r.made.items r.notes.items r.kept_back) }
    ensures ticks { IfOk result (λ r. work.new ≡ after_ticks work.old (length r.made.items)) }
    ensures counted { Counted work.old work.new }
{
    let relexed = recut_noted(
        alloc, &Bytes, old_text, old, text, start, old_stop, new_stop, work,
    )?;
    Ok(relexed)
}

/// The same with four bytes for each end that is made: the new text is shorter than 4 GiB.
pub fn relex_narrow<E: Ends>(
    alloc: Global,
    old_text: &[u8],
    old: &E,
    text: &[u8],
    start: usize,
    old_stop: usize,
    new_stop: usize,
    work: &mut Count,
) -> Result<NarrowRecut<Class>, OutOfMemory>
    requires old_ends { E.listed old.now ≡ map piece_end (pieces_of old_text.now) }
    requires edit { IsEdit old_text.now text.now start old_stop new_stop }
    requires short { length text.now < 2 ^ 32 }
    ensures relexed { IfOk
        result
        (λ r. IsRelexed old_text.now text.now start old_stop new_stop r.kept_front r.made.items r.notes.items r.kept_back) }
    ensures ticks { IfOk result (λ r. work.new ≡ after_ticks work.old (length r.made.items)) }
    ensures counted { Counted work.old work.new }
{
    let relexed = recut_narrow(
        alloc, &Bytes, old_text, old, text, start, old_stop, new_stop, work,
    )?;
    Ok(relexed)
}

// Where the first `count` members end.
pub fn end_by<E: Ends>(ends: &E, count: usize) -> usize
    requires { count ≤ length (E.listed ends.now) }
    ensures { result ≡ last_end 0 (take count (E.listed ends.now)) }
{
    if count == 0 { 0 } else { ends.end(count - 1) }
}

/// What is kept and made of the pieces of an old text: so many at the front, the new ones, and so
/// many at the back, which moved with the bytes.
#[derive(Drop)]
pub struct Relexed {
    pub kept_front: usize,
    pub made: Vec<Piece>,
    pub kept_back: usize,
}

// Pieces, as the places where they end. None is too far off.
#[derive(Clone, Copy)]
struct PieceEnds<'a> {
    pieces: &'a [Piece],
    ghost near: { All (λ p. piece_end p < 2 ^ 64) pieces.now },
}

impl Ends for PieceEnds<'_> {
    ghost listed = { λ p. map piece_end p.pieces.now };

    fn count(&self) -> usize {
        self.pieces.len()
    }

    fn end(&self, number: usize) -> usize {
        self.pieces[number].start + self.pieces[number].len
    }
}

/// The pieces of `text` from those of `old_text`, of which the bytes from `start` to `old_stop`
/// were replaced by those up to `new_stop`. Each piece that is made is one tick. The only error is
/// want of memory.
pub fn relex(
    alloc: Global,
    old_text: &[u8],
    old: &[Piece],
    text: &[u8],
    start: usize,
    old_stop: usize,
    new_stop: usize,
    work: &mut Count,
) -> Result<Relexed, OutOfMemory>
    requires old_pieces { old.now ≡ pieces_of old_text.now }
    requires edit { IsEdit old_text.now text.now start old_stop new_stop }
    ensures recut { IfOk
        result
        (λ r. IsRecut piece_length old_text.now (map piece_end old.now) text.now start old_stop new_stop r.kept_front (map piece_end r.made.items) r.kept_back) }
    ensures order { IfOk result (λ r. r.kept_front + r.kept_back ≤ length old.now) }
    ensures pieces { IfOk
        result
        (λ r. pieces_of text.now ≡ (take r.kept_front old.now ++ r.made.items) ++ map (moved_piece old_stop new_stop) (drop (length old.now - r.kept_back) old.now)) }
    ensures ticks { IfOk result (λ r. work.new ≡ after_ticks work.old (length r.made.items)) }
    ensures counted { Counted work.old work.new }
{
    let ends = PieceEnds { pieces: old };
    let relexed = relex_by(
        alloc, old_text, &ends, text, start, old_stop, new_stop, work,
    )?;
    let from = end_by(&ends, relexed.kept_front);
    let made = listed_pieces(alloc, from, &relexed.made, &relexed.notes)?;
    Ok(Relexed {
        kept_front: relexed.kept_front,
        made,
        kept_back: relexed.kept_back,
    })
}
