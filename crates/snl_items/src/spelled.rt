//! Whether tokens of two texts are spelled alike: classes and bytes.

ghost use Rattle.snl_lex.specs.PieceList.{spelled, spelling};
ghost use Rattle.snl_lex.specs.Pieces.{LiesIn};
ghost use Rattle.snl_lex.specs.declared.piece.Class.{Class};
ghost use Rattle.std.specs.Prelude.{◌≡◌, ◌↔◌, All, IsTrue, List, ℕ};

use snl_facts::are_same_bytes;
use snl_lex::{Class, Piece, token_text};
use std::marker::Model;

/// A token as it is spelled: its class and its bytes.
#[derive(Drop)]
pub struct Spelling<'a> {
    kind: Class,
    bytes: &'a [u8],
}

impl<'a> Model for Spelling<'a> {
    ghost Value = { Class × List ℕ };

    ghost view = { λ s. (s.kind, s.bytes.now) };
}

impl<'a> Spelling<'a> {
    fn of(text: &'a [u8], token: Piece) -> Spelling<'a>
        requires { LiesIn text.now token }
        ensures { result ≡ spelling text.now token }
    {
        Spelling {
            kind: token.kind,
            bytes: token_text(text, token),
        }
    }

    fn is_like(&self, other: &Spelling) -> bool
        ensures { IsTrue result ↔ (self.now ≡ other.now) }
    {
        self.kind == other.kind && are_same_bytes(self.bytes, other.bytes)
    }
}

/// Whether the tokens of one text are as many as those of another, and spelled as these: class by
/// class and byte by byte.
pub fn are_spelled_alike(old_text: &[u8], old: &[Piece], text: &[u8], tokens: &[Piece]) -> bool
    requires old { All (LiesIn old_text.now) old.now }
    requires new { All (LiesIn text.now) tokens.now }
    ensures { IsTrue result ↔ (spelled old_text.now old.now ≡ spelled text.now tokens.now) }
{
    if old.len() != tokens.len() {
        return false;
    }
    for number in 0..old.len() {
        let was = Spelling::of(old_text, old[number]);
        if !was.is_like(&Spelling::of(text, tokens[number])) {
            return false;
        }
    }
    true
}
