//! Tokens by the numbers of their pieces: four bytes each, where a list of pieces takes 24 for each.
//! In: the list of the pieces. Out: tokens, by their numbers.

ghost use Rattle.snl_items.specs.OwnTokens.{tokens_between};
ghost use Rattle.snl_items.specs.Places.{AreAmong, piece_with, pieces_at, token_places};
ghost use Rattle.snl_lex.specs.PieceList.{listed_pieces};
ghost use Rattle.snl_lex.specs.Pieces.{is_token};
ghost use Rattle.snl_cut.specs.Cut.{last_end};
ghost use Rattle.std.specs.Prelude.{◌≡◌, ◌-◌, ◌^◌, ◌<◌, ◌≤◌, [], IfOk, OnOk, Some, drop, filter, length, slice_get, take, vec_capacity, vec_len};

use snl_cut::OutOfMemory;
use snl_lex::{Class, Piece, PieceList};
use std::alloc::Global;
use std::marker::Model;
use std::mem::replace;

/// Tokens, one after another, by the numbers of their pieces. Contracts see the tokens.
#[derive(Drop)]
pub(crate) struct NumberedTokens<'a> {
    begin: u32,
    ends: &'a [u32],
    kinds: &'a [Class],
    places: Vec<u32>,
}

impl<'a> Model for NumberedTokens<'a> {
    ghost use Rattle.std.specs.Prelude.{◌≡◌, List, length};
    ghost use Rattle.snl_items.specs.Places.{AreAmong, pieces_at};
    ghost use Rattle.snl_lex.specs.declared.piece.Piece.{Piece};

    ghost Value = { List Piece };

    ghost view = { λ l. pieces_at l.begin l.ends.now l.kinds.now l.places.items };

    ghost invariant = { λ l. (length l.ends.now ≡ length l.kinds.now) × AreAmong (length l.kinds.now) l.places.items };
}

// Adds the numbers of those of the pieces of these classes that are tokens. They come by value, and
// there is room for all: so their place and number stay in registers, and no room is looked for at
// each.
fn with_places(mut places: Vec<u32>, kinds: &[Class]) -> Vec<u32>
    requires none { vec_len places ≡ 0 }
    requires room { length kinds.now ≤ vec_capacity places }
    requires few { length kinds.now < 2 ^ 32 }
    ensures { result.items ≡ token_places 0 kinds.now }
{
    for (number, kind) in kinds.iter().enumerate() {
        if kind.is_token() {
            places.push_reserved(number as u32);
        }
    }
    places
}

// Where the piece with this number begins, if the first one begins at a place.
fn start_at(begin: u32, ends: &[u32], number: usize) -> u32
    requires { number ≤ length ends.now }
    ensures { result ≡ last_end begin (take number ends.now) }
{
    if number == 0 { begin } else { ends[number - 1] }
}

// The piece with a number.
fn piece_at(begin: u32, ends: &[u32], kinds: &[Class], number: usize) -> Piece
    requires ends { number < length ends.now }
    requires kinds { number < length kinds.now }
    ensures { result ≡ piece_with begin ends.now kinds.now number }
{
    let start = start_at(begin, ends, number);
    Piece {
        kind: kinds[number],
        start: start as usize,
        len: ends[number].saturating_sub(start) as usize,
    }
}

// Adds the pieces with these numbers. They come by value, and there is room for all, for the same
// reason.
fn with_pieces(
    mut pieces: Vec<Piece>,
    begin: u32,
    ends: &[u32],
    kinds: &[Class],
    places: &[u32],
) -> Vec<Piece>
    requires none { pieces.items ≡ [] }
    requires room { length places.now ≤ vec_capacity pieces }
    requires ends { AreAmong (length ends.now) places.now }
    requires kinds { AreAmong (length kinds.now) places.now }
    ensures { result.items ≡ pieces_at begin ends.now kinds.now places.now }
{
    for place in places {
        pieces.push_reserved(piece_at(begin, ends, kinds, *place as usize));
    }
    pieces
}

// Those from one number up to another.
fn part(places: &[u32], start: usize, stop: usize) -> &[u32]
    requires order { start ≤ stop }
    requires inside { stop ≤ length places.now }
    ensures { result.now ≡ take (stop - start) (drop start places.now) }
{
    &places[start..stop]
}

impl<'a> NumberedTokens<'a> {
    /// Those of the pieces that are tokens, if the first piece begins at a place. The only error is
    /// want of memory.
    pub(crate) fn of(
        alloc: Global,
        begin: u32,
        pieces: &'a PieceList,
    ) -> Result<NumberedTokens<'a>, OutOfMemory>
        requires same { vec_len pieces.now.ends ≡ vec_len pieces.now.kinds }
        requires few { vec_len pieces.now.kinds < 2 ^ 32 }
        ensures { IfOk result (λ l. l ≡ filter is_token (listed_pieces begin pieces.now.ends.items pieces.now.kinds.items)) }
    {
        let kinds = pieces.kinds.as_slice();
        let places = Vec::with_capacity(alloc, kinds.len())?;
        Ok(NumberedTokens {
            begin,
            ends: pieces.ends.as_slice(),
            kinds,
            places: with_places(places, kinds),
        })
    }

    /// Gives back the room for more.
    pub(crate) fn give_back_room(&mut self)
        ensures { self.new ≡ self.old }
    {
        self.places.shrink_to_fit();
    }

    pub(crate) fn len(&self) -> usize
        ensures { result ≡ length self.now }
    {
        self.places.len()
    }

    /// The token with a number, which is less than how many there are.
    pub(crate) fn at(&self, number: usize) -> Piece
        requires { number < length self.now }
        ensures { slice_get self.now number ≡ Some result }
    {
        let place = self.places[number] as usize;
        piece_at(self.begin, self.ends, self.kinds, place)
    }

    /// The token with a number, if there is one.
    pub(crate) fn get(&self, number: usize) -> Option<Piece>
        ensures { result ≡ slice_get self.now number }
    {
        if number < self.places.len() {
            Some(self.at(number))
        } else {
            None
        }
    }

    /// Lists the tokens from one number up to another, in the place of what a list had. An error
    /// leaves the list empty.
    pub(crate) fn list(
        &self,
        alloc: Global,
        start: usize,
        stop: usize,
        listed: &mut Vec<Piece>,
    ) -> Result<(), OutOfMemory>
        requires order { start ≤ stop }
        requires inside { stop ≤ length self.now }
        ensures { OnOk result (listed.new.items ≡ tokens_between self.now start stop) }
    {
        let places = part(&self.places, start, stop);
        let mut pieces = replace(listed, Vec::new(alloc));
        pieces.clear();
        pieces.reserve(places.len())?;
        *listed = with_pieces(pieces, self.begin, self.ends, self.kinds, places);
        Ok(())
    }
}
