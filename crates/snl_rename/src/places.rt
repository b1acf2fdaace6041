//! Lines and names at places of a text. In: what is kept of the text, and a place. Out: the number
//! of its line, or the name there.

ghost use Rattle.snl_kept.specs.Kept.{IsListed};

use snl_cut::OutOfMemory;
use snl_kept::Lists;
use snl_questions::{ItemTokens, TokenPlace, all_tokens};
use snl_tables::Span;
use std::alloc::Global;

/// The number of the line of an offset.
pub fn line_at(text: &[u8], lists: &Lists, offset: usize) -> usize
    requires { IsListed text.now lists.now }
{
    lists.lines.line_by(text, offset).number
}

/// The span of a token.
pub fn span_at(
    alloc: Global,
    text: &[u8],
    lists: &Lists,
    place: TokenPlace,
) -> Result<Option<Span>, OutOfMemory>
    requires { IsListed text.now lists.now }
{
    let tokens = all_tokens(alloc, &lists.pieces)?;
    let items = ItemTokens::of_text(text, &tokens, &lists.items.ends);
    Ok(items.span_at(place.item, place.token))
}
