//! The law of notes on tokens at fault. The function here does nothing of its own: its contract is
//! the law.

ghost use Rattle.std.specs.Prelude.{◌≡◌, ℕ, ◌<◌, ◌≤◌, List, option_map};
ghost use Rattle.snl_lex.specs.Pieces.{piece_end};
ghost use Rattle.snl_lex.specs.declared.piece.Piece.{Piece};
ghost use Rattle.snl_notes.specs.Notes.{note_of};
ghost use Rattle.snl_questions.specs.FaultNotes.{IsFault, fault_noted, told_by};

use snl_cut::ends_in_order;
use snl_grammar::Tokens;
use snl_lex::{pieces_as_listed, text_in_pieces};

/// Each byte of a token at fault has the note on it: that of the token with its number among those
/// of its item. So wherever E02 stands something is said, but for the limit on tokens before it.
pub fn faults_have_notes()
    ensures { (text : List ℕ) (own : List Piece) (at : ℕ) (token : Piece) (offset : ℕ) →
        IsFault text own at token → token.start ≤ offset → offset < piece_end token →
        fault_noted text offset ≡ option_map (told_by token) (note_of text own at) }
{
    text_in_pieces();
    pieces_as_listed();
    ends_in_order::<Tokens>();
}
