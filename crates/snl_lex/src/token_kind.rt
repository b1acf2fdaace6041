//! What a token is to the grammar: a piece of a text comes in, its kind goes out.
//! It knows nothing of the tokens around it.

ghost use Rattle.snl_lex.specs.Kinds.{kind_of};
ghost use Rattle.std.specs.Prelude.{◌≡◌, ◌+◌, ◌≤◌, drop, length, take};

use crate::kind::Kind;
use crate::piece::{Class, Piece};
use crate::punctuator::punctuator_kind;
use crate::token_text;
use crate::word::word_kind;

/// What a token is to the grammar. White space, comments and markers are no tokens; they give
/// `Bad`.
#[tactic(auto, unfolding(crate::specs::Kinds::kind_of))]
pub fn kind_of(text: &[u8], piece: Piece) -> Kind
    requires { piece.start + piece.len ≤ length text.now }
    ensures { result ≡ kind_of piece.kind (take piece.len (drop piece.start text.now)) }
{
    match piece.kind {
        Class::Name => Kind::Name,
        Class::Word => word_kind(token_text(text, piece)),
        Class::Punct => punctuator_kind(token_text(text, piece)),
        Class::Int => Kind::Integer,
        Class::Float => Kind::Floating,
        Class::Text => Kind::Text,
        Class::CharLit => Kind::Character,
        Class::CCode => Kind::CCode,
        Class::White | Class::Comment | Class::Marker | Class::Bad => Kind::Bad,
    }
}
