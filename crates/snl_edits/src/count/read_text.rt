//! A text comes in; what is read of it from its first byte goes out: its pieces, tokens, items,
//! summaries and links.

ghost use Rattle.snl_lex.specs.Pieces.{LiesIn};
ghost use Rattle.std.specs.Prelude.{All};

use snl_cut::OutOfMemory;
use snl_lex::Piece;
use snl_reading::{item_ends_of, links_of, pieces_of, summaries_along, tokens_of};
use snl_scope::{Links, Summary};
use std::alloc::Global;

/// The items of a text, read.
#[derive(Drop)]
pub struct ReadItems {
    /// Where they end, as numbers of tokens.
    pub ends: Vec<usize>,
    pub summaries: Vec<Summary>,
    pub links: Links,
}

/// A text, read.
#[derive(Drop)]
pub struct ReadText {
    /// Where its pieces end.
    pub piece_ends: Vec<usize>,
    pub tokens: Vec<Piece>,
    pub items: ReadItems,
}

/// Where a piece ends.
pub fn end_of(piece: &Piece) -> usize {
    piece.start.saturating_add(piece.len)
}

// Where the pieces of a text end.
fn piece_ends_of(alloc: Global, text: &[u8]) -> Result<Vec<usize>, OutOfMemory> {
    let pieces = pieces_of(alloc, text)?;
    let mut ends = Vec::new(alloc);
    for piece in &pieces {
        ends.push(end_of(piece))?;
    }
    Ok(ends)
}

// Reads the items of a text that has these tokens.
fn read_items(alloc: Global, text: &[u8], tokens: &[Piece]) -> Result<ReadItems, OutOfMemory>
    requires { All (LiesIn text.now) tokens.now }
{
    let ends = item_ends_of(alloc, text, tokens)?;
    let summaries = summaries_along(alloc, text, tokens, &ends)?;
    let links = links_of(alloc, &summaries)?;
    Ok(ReadItems {
        ends,
        summaries,
        links,
    })
}

/// Reads a text.
pub fn read(alloc: Global, text: &[u8]) -> Result<ReadText, OutOfMemory> {
    let piece_ends = piece_ends_of(alloc, text)?;
    let tokens = tokens_of(alloc, text)?;
    let items = read_items(alloc, text, &tokens)?;
    Ok(ReadText {
        piece_ends,
        tokens,
        items,
    })
}
