//! A text with what is kept of it, and places in it.

use snl_lex::PieceList;
use snl_place::{Encoding, Place};

/// A text, how its places are counted, where its lines end, and its pieces.
#[derive(Clone, Copy)]
pub struct Source<'a> {
    pub encoding: Encoding,
    pub text: &'a [u8],
    pub ends: &'a [usize],
    pub pieces: &'a PieceList,
}

/// An offset of a text, with its place.
#[derive(Clone, Copy)]
pub struct Mark {
    pub offset: usize,
    pub place: Place,
}
