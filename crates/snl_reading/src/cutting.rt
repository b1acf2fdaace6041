//! A text comes in; its pieces, its tokens, and where its items end among these go out.

ghost use Rattle.std.specs.Prelude.{◌≡◌, All, IfOk, length};
ghost use Rattle.snl_item_check.specs.Items.{EndsWithin};
ghost use Rattle.snl_cut.specs.Cut.{IsCut};
ghost use Rattle.snl_lex.specs.Pieces.{LiesIn, pieces_of, tokens_of};
ghost use Rattle.snl_grammar.specs.Items.{item};

use snl_cut::{Count, OutOfMemory, cut_all};
use snl_grammar::{Mark, Tokens, mark};
use snl_lex::{Piece, lex, tokens_among};
use std::alloc::Global;

/// The pieces of a text.
pub fn pieces_of(alloc: Global, text: &[u8]) -> Result<Vec<Piece>, OutOfMemory>
    ensures pieces { IfOk result (λ pieces. pieces.items ≡ pieces_of text.now) }
    ensures inside { IfOk result (λ pieces. All (LiesIn text.now) pieces.items) }
{
    let pieces = lex(alloc, text, &mut Count::new())?;
    Ok(pieces)
}

/// The tokens of a text.
pub fn tokens_of(alloc: Global, text: &[u8]) -> Result<Vec<Piece>, OutOfMemory>
    ensures tokens { IfOk result (λ tokens. tokens.items ≡ tokens_of text.now) }
    ensures inside { IfOk result (λ tokens. All (LiesIn text.now) tokens.items) }
{
    let pieces = pieces_of(alloc, text)?;
    let tokens = tokens_among(alloc, &pieces)?;
    Ok(tokens)
}

/// What the tokens are to the cut into items.
pub fn marks_of(alloc: Global, text: &[u8], tokens: &[Piece]) -> Result<Vec<Mark>, OutOfMemory>
    requires { All (LiesIn text.now) tokens.now }
    ensures { IfOk result (λ marks. length marks.items ≡ length tokens.now) }
{
    let mut marks = Vec::new(alloc);
    for piece in tokens {
        marks.push(mark(text, *piece))?;
    }
    Ok(marks)
}

/// The numbers of the marks at which items end.
pub fn ends_of(alloc: Global, marks: &[Mark]) -> Result<Vec<usize>, OutOfMemory>
    ensures cut { IfOk result (λ ends. IsCut item marks.now ends.items) }
    ensures within { IfOk result (λ ends. EndsWithin 0 ends.items (length marks.now)) }
{
    let ends = cut_all(alloc, &Tokens, marks, &mut Count::new())?;
    Ok(ends)
}

/// The numbers of the tokens at which items end.
pub fn item_ends_of(alloc: Global, text: &[u8], tokens: &[Piece]) -> Result<Vec<usize>, OutOfMemory>
    requires { All (LiesIn text.now) tokens.now }
    ensures { IfOk result (λ ends. EndsWithin 0 ends.items (length tokens.now)) }
{
    let marks = marks_of(alloc, text, tokens)?;
    ends_of(alloc, &marks)
}
