//! The tokens of an item, by their numbers: a number comes in, the bytes of its token go out.

ghost use Rattle.std.specs.Prelude.{◌≡◌, ◌+◌};
ghost use Rattle.snl_walk.specs.Tokens.{IsSource, bytes_in, value_at};

use snl_lex::{Piece, int_value, token_text};
use std::alloc::Global;

/// The tokens of an item as pieces of its text, and the memory for what is made of them.
#[derive(Clone, Copy)]
pub struct Source<'a> {
    pub text: &'a [u8],
    pub tokens: &'a [Piece],
    pub alloc: Global,
}

impl<'a> Source<'a> {
    /// The bytes of a token; none, where there is no token of this number.
    #[tactic(auto, unfolding(crate::specs::Tokens::token_bytes))]
    pub fn bytes(&self, number: usize) -> &'a [u8]
        requires { IsSource self.now.text.now self.now.tokens.now }
        ensures { result.now ≡ bytes_in self.now number }
    {
        match self.tokens.get(number) {
            Some(piece) => token_text(self.text, *piece),
            None => &[],
        }
    }

    /// The value of an integer.
    pub fn value(&self, number: usize) -> Option<u64>
        requires { IsSource self.now.text.now self.now.tokens.now }
        ensures { result ≡ value_at self.now.text.now self.now.tokens.now number }
    {
        int_value(self.bytes(number))
    }

    /// The bytes of the token so many tokens after another.
    #[tactic(auto, unfolding(crate::specs::Tokens::token_bytes))]
    pub(crate) fn bytes_after(&self, number: usize, distance: usize) -> &'a [u8]
        requires { IsSource self.now.text.now self.now.tokens.now }
        ensures { result.now ≡ bytes_in self.now (number + distance) }
    {
        match number.checked_add(distance) {
            Some(number) => self.bytes(number),
            None => &[],
        }
    }
}
