//! The tokens of one item of a text: their numbers in the item come in, tokens, their bytes and
//! values go out.

ghost use Rattle.std.specs.Prelude.{◌≡◌, option_map, slice_get};
ghost use Rattle.snl_items.specs.Reaches.{reach_of};
ghost use Rattle.snl_walk.specs.Tokens.{IsSource, token_bytes, value_at};
ghost use Rattle.snl_check.specs.ItemSpans.{span_of};
ghost use Rattle.snl_check.specs.ItemTokens.{own_tokens};

use snl_items::{Reach, TokenList};
use snl_lex::{Piece, int_value};
use snl_tables::Span;
use std::alloc::Global;

/// The tokens of an item, which are those of a text from one number up to another, and the memory
/// for what is made of them.
#[derive(Clone, Copy)]
pub(crate) struct ItemSource<'a> {
    pub text: &'a [u8],
    pub tokens: &'a TokenList<'a>,
    pub start: usize,
    pub stop: usize,
    pub alloc: Global,
}

impl<'a> ItemSource<'a> {
    /// The item that has all of these tokens.
    pub(crate) fn of(text: &'a [u8], tokens: &'a TokenList<'a>, alloc: Global) -> ItemSource<'a>
        ensures text { result.text.now ≡ text.now }
        ensures tokens { own_tokens result ≡ tokens.now }
    {
        ItemSource {
            text,
            tokens,
            start: 0,
            stop: tokens.len(),
            alloc,
        }
    }

    /// The token with a number in the item, if there is one.
    pub(crate) fn token(&self, number: usize) -> Option<Piece>
        ensures { result ≡ slice_get (own_tokens self.now) number }
    {
        if number < self.stop.saturating_sub(self.start) {
            self.tokens.get(self.start + number)
        } else {
            None
        }
    }

    // Where the token with a number in the item is, if there is one.
    fn reach(&self, number: usize) -> Option<Reach>
        ensures { result ≡ option_map reach_of (slice_get (own_tokens self.now) number) }
    {
        if number < self.stop.saturating_sub(self.start) {
            self.tokens.reach(self.start + number)
        } else {
            None
        }
    }

    /// Where a token is.
    pub(crate) fn span(&self, number: usize) -> Span
        ensures { result ≡ span_of (slice_get (own_tokens self.now) number) }
    {
        match self.reach(number) {
            Some(Reach { start, len }) => Span { start, len },
            None => Span { start: 0, len: 0 },
        }
    }

    /// The bytes of a token; none, where there is no token of this number.
    #[tactic(auto, unfolding(snl_walk::specs::Tokens::token_bytes))]
    pub(crate) fn bytes(&self, number: usize) -> &'a [u8]
        requires { IsSource self.now.text.now (own_tokens self.now) }
        ensures { result.now ≡ token_bytes self.now.text.now (own_tokens self.now) number }
    {
        match self.reach(number) {
            Some(reach) => &self.text[reach.start..reach.start + reach.len],
            None => &[],
        }
    }

    /// The value of an integer.
    pub(crate) fn value(&self, number: usize) -> Option<u64>
        requires { IsSource self.now.text.now (own_tokens self.now) }
        ensures { result ≡ value_at self.now.text.now (own_tokens self.now) number }
    {
        int_value(self.bytes(number))
    }
}
