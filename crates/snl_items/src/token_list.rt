//! The tokens of a text, or of a part of it: as pieces, or by the numbers of their pieces.
//! In: tokens, or the list of the pieces. Out: tokens, by their numbers.

ghost use Rattle.snl_items.specs.OwnTokens.{tokens_between};
ghost use Rattle.snl_items.specs.Reaches.{reach_of};
ghost use Rattle.snl_lex.specs.PieceList.{listed_pieces};
ghost use Rattle.snl_lex.specs.Pieces.{is_token};
ghost use Rattle.std.specs.Prelude.{◌≡◌, ◌^◌, ◌<◌, ◌≤◌, IfOk, OnOk, Some, filter, length, option_map, slice_get, vec_len};

use crate::numbered_tokens::NumberedTokens;
use snl_cut::OutOfMemory;
use snl_lex::{Piece, PieceList};
use std::alloc::Global;
use std::marker::Model;

#[derive(Drop)]
enum Form<'a> {
    Listed(&'a [Piece]),
    Numbered(NumberedTokens<'a>),
}

/// Where a token is: so many bytes, from a place on.
#[derive(Clone, Copy)]
pub struct Reach {
    pub start: usize,
    pub len: usize,
}

/// Tokens, one after another. Contracts see the list of them. Those of a long text are not listed
/// as pieces: what is asked of one is read off the list of the text's pieces.
#[derive(Drop)]
pub struct TokenList<'a> {
    form: Form<'a>,
}

impl<'a> Model for TokenList<'a> {
    ghost use Rattle.std.specs.Prelude.{List};
    ghost use Rattle.snl_items.specs.TokenForms.{tokens_in};
    ghost use Rattle.snl_lex.specs.declared.piece.Piece.{Piece};

    ghost Value = { List Piece };

    ghost view = { λ l. tokens_in l.form };
}

// The token with a number among these.
fn listed_at(tokens: &[Piece], number: usize) -> Piece
    requires { number < length tokens.now }
    ensures { slice_get tokens.now number ≡ Some result }
{
    tokens[number]
}

// Where a token is, if there is one.
fn reach_of(token: Option<Piece>) -> Option<Reach>
    ensures { result ≡ option_map reach_of token }
{
    let Piece { start, len, .. } = token?;
    Some(Reach { start, len })
}

impl<'a> TokenList<'a> {
    /// These tokens.
    pub fn listed(tokens: &'a [Piece]) -> TokenList<'a>
        ensures { result ≡ tokens.now }
    {
        TokenList {
            form: Form::Listed(tokens),
        }
    }

    /// Those of the pieces that are tokens, if the first piece begins at a place. The only error is
    /// want of memory.
    pub fn among(
        alloc: Global,
        begin: u32,
        pieces: &'a PieceList,
    ) -> Result<TokenList<'a>, OutOfMemory>
        requires same { vec_len pieces.now.ends ≡ vec_len pieces.now.kinds }
        requires few { vec_len pieces.now.kinds < 2 ^ 32 }
        ensures { IfOk result (λ l. l ≡ filter is_token (listed_pieces begin pieces.now.ends.items pieces.now.kinds.items)) }
    {
        let tokens = NumberedTokens::of(alloc, begin, pieces)?;
        Ok(TokenList {
            form: Form::Numbered(tokens),
        })
    }

    /// Gives back the room for more: tokens among pieces have room for as many as there are pieces.
    pub fn give_back_room(&mut self)
        ensures { self.new ≡ self.old }
    {
        if let Form::Numbered(tokens) = &mut self.form {
            tokens.give_back_room();
        }
    }

    pub fn len(&self) -> usize
        ensures { result ≡ length self.now }
    {
        match &self.form {
            Form::Listed(tokens) => tokens.len(),
            Form::Numbered(tokens) => tokens.len(),
        }
    }

    /// The token with a number, which is less than how many there are.
    pub fn at(&self, number: usize) -> Piece
        requires { number < length self.now }
        ensures { slice_get self.now number ≡ Some result }
    {
        match &self.form {
            Form::Listed(tokens) => listed_at(tokens, number),
            Form::Numbered(tokens) => tokens.at(number),
        }
    }

    /// The token with a number, if there is one.
    pub fn get(&self, number: usize) -> Option<Piece>
        ensures { result ≡ slice_get self.now number }
    {
        match &self.form {
            Form::Listed(tokens) => tokens.get(number).copied(),
            Form::Numbered(tokens) => tokens.get(number),
        }
    }

    /// Where the token with a number is, if there is one. Its class isn't looked at.
    pub fn reach(&self, number: usize) -> Option<Reach>
        ensures { result ≡ option_map reach_of (slice_get self.now number) }
    {
        match &self.form {
            Form::Listed(tokens) => reach_of(tokens.get(number).copied()),
            Form::Numbered(tokens) => reach_of(tokens.get(number)),
        }
    }

    /// Lists the tokens from one number up to another, in the place of what a list had. An error
    /// leaves some of them there.
    pub fn list(
        &self,
        alloc: Global,
        start: usize,
        stop: usize,
        listed: &mut Vec<Piece>,
    ) -> Result<(), OutOfMemory>
        requires order { start ≤ stop }
        requires inside { stop ≤ length self.now }
        ensures { OnOk result (listed.new.items ≡ tokens_between self.now start stop) }
    {
        match &self.form {
            Form::Listed(tokens) => {
                listed.clear();
                listed.extend_from_slice(&tokens[start..stop])?;
                Ok(())
            }
            Form::Numbered(tokens) => tokens.list(alloc, start, stop, listed),
        }
    }
}
