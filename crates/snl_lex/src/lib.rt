//! The lexical layer: bytes come in, pieces go out, and what each is to the grammar. It knows
//! nothing of the grammar itself.
#![tactic(auto)]

ghost use Rattle.std.specs.Prelude.{◌≡◌, ◌+◌, ◌≤◌, drop, length, take};

mod alphabet;
mod cut;
mod edit;
mod kind;
mod laws;
mod line_list;
mod line_shift;
mod lines;
mod listed_tokens;
mod marker_list;
mod numbers;
mod piece;
mod piece_list;
mod punctuator;
mod scan;
mod shift;
mod token_kind;
mod word;

pub use cut::{Bytes, Relexed, lex, relex, relex_by, relex_narrow};
pub use edit::TextEdit;
pub use kind::Kind;
pub use laws::{
    first_piece_reaches, kept_as_spelled, pieces_as_listed, text_in_pieces, tokens_have_kinds,
};
pub use line_list::LineList;
pub use line_shift::{LineShift, lines_move};
pub use lines::{Line, line_of};
pub use listed_tokens::tokens_among;
pub use marker_list::Marker;
pub use numbers::int_value;
pub use piece::{Class, Piece};
pub use piece_list::{PieceChange, PieceList};
pub use shift::Shift;
pub use token_kind::kind_of;

/// The bytes of a piece.
pub fn token_text(text: &[u8], piece: Piece) -> &[u8]
    requires { piece.start + piece.len ≤ length text.now }
    ensures { result.now ≡ take piece.len (drop piece.start text.now) }
{
    &text[piece.start..piece.start + piece.len]
}
