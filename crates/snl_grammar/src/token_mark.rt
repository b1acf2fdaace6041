//! What a token is to the cut into items: a piece of a text comes in, its mark goes out.
//! It knows nothing of the tokens around it.

ghost use Rattle.snl_grammar.specs.Marks.{mark_of, mark_of_kind};
ghost use Rattle.std.specs.Prelude.{◌≡◌, ◌+◌, ◌≤◌, drop, length, take};

use crate::marks::Mark;
use snl_lex::{Kind, Piece, kind_of};

// What a token of this kind is to the cut into items.
fn mark_of_kind(kind: Kind) -> Mark
    ensures { result ≡ mark_of_kind kind }
{
    match kind {
        Kind::Program => Mark::Program,
        Kind::Ss => Mark::Ss,
        Kind::State | Kind::Entry | Kind::Exit => Mark::Body,
        Kind::Name => Mark::Name,
        Kind::Text => Mark::Text,
        Kind::CCode => Mark::CCode,
        Kind::OpenBrace => Mark::OpenBrace,
        Kind::CloseBrace => Mark::CloseBrace,
        Kind::OpenParen => Mark::OpenParen,
        Kind::CloseParen => Mark::CloseParen,
        Kind::Semicolon => Mark::Semicolon,
        _ => Mark::Other,
    }
}

/// What a token is to the cut into items. White space, comments and markers are no tokens; they
/// give `Other`.
pub fn mark(text: &[u8], piece: Piece) -> Mark
    requires { piece.start + piece.len ≤ length text.now }
    ensures { result ≡ mark_of piece.kind (take piece.len (drop piece.start text.now)) }
{
    mark_of_kind(kind_of(text, piece))
}
