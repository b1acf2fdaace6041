//! The tokens of a text, item by item. In: an offset, or the place of a token. Out: the place of
//! the token that has the byte there, or the token's span and its bytes.

ghost use Rattle.std.specs.Prelude.{◌≡◌, option_copied, position, slice_get};
ghost use Rattle.snl_kept.specs.Program.{item_tokens};
ghost use Rattle.snl_questions.specs.Items.{span_at};
ghost use Rattle.snl_questions.specs.Tokens.{has_byte};
ghost use Rattle.snl_questions.specs.Meanings.{place_from, span_bytes};

use crate::meanings::text_items::TextItems;
use snl_lex::Piece;
use snl_tables::Span;

/// A token of an item: the number of the item, and that of the token in it.
#[derive(Clone, Copy, Debug, PartialEq, Eq)]
pub struct TokenPlace {
    pub item: usize,
    pub token: usize,
}

fn has_byte(offset: usize, token: &Piece) -> bool
    ensures { result ≡ has_byte offset token.now }
{
    token.start <= offset && offset - token.start < token.len
}

/// The first of these tokens that has the byte at an offset.
fn token_with(tokens: &[Piece], offset: usize) -> Option<usize>
    ensures { result ≡ position (has_byte offset) tokens.now }
{
    tokens.iter().position(|token| has_byte(offset, token))
}

/// The bytes of a span of a text, or those of them that there are.
pub fn span_bytes(text: &[u8], span: Span) -> &[u8]
    ensures { result.now ≡ span_bytes text.now span }
{
    let after = &text[span.start.min(text.len())..];
    &after[..span.len.min(after.len())]
}

impl<'a> TextItems<'a> {
    /// The tokens of the item with a number.
    pub fn tokens_of(&self, item: usize) -> Option<&'a [Piece]>
        ensures { option_copied result ≡ slice_get (item_tokens self.now.text.now) item }
    {
        self.items.tokens_of(item)
    }

    /// The first token that has the byte at an offset.
    pub fn place_at(&self, offset: usize) -> Option<TokenPlace>
        ensures { result ≡ place_from offset 0 (item_tokens self.now.text.now) }
    {
        for item in 0..self.items.ends.len() {
            let tokens = self.tokens_of(item)?;
            if let Some(token) = token_with(tokens, offset) {
                return Some(TokenPlace { item, token });
            }
        }
        None
    }

    /// The span of a token.
    pub fn span_at(&self, place: TokenPlace) -> Option<Span>
        ensures { result ≡ span_at (item_tokens self.now.text.now) place.item place.token }
    {
        self.items.span_at(place.item, place.token)
    }
}
