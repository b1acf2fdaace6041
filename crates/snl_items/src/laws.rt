//! Laws of tokens, and of what an edit makes fresh. A function here does nothing of its own: its
//! contract is the law.

ghost use Rattle.snl_cut.specs.Cut.{IsEdit};
ghost use Rattle.snl_items.specs.Changes.{IsShiftOf, IsTokenChange, LeavesAround, made_in};
ghost use Rattle.snl_items.specs.Fresh.{fresh_pieces_of};
ghost use Rattle.snl_items.specs.Items.{marks_of};
ghost use Rattle.snl_items.specs.OwnTokens.{AreCounted};
ghost use Rattle.snl_items.specs.declared.tokens.TokenChange.{TokenChange};
ghost use Rattle.snl_lex.specs.Edit.{Edit, IsChange, made_pieces};
ghost use Rattle.snl_lex.specs.PieceList.{piece_kinds};
ghost use Rattle.snl_lex.specs.Pieces.{is_token, tokens_of};
ghost use Rattle.snl_lex.specs.declared.piece_list.PieceChange.{PieceChange};
ghost use Rattle.snl_lex.specs.declared.shift.Shift.{Shift};
ghost use Rattle.std.specs.Prelude.{◌≡◌, ℕ, ◌^◌, ◌<◌, ◌≤◌, List, filter, length};

use snl_cut::{ends_in_order, made_are_fresh, meets_where_sought, one_cut};
use snl_lex::{Bytes, pieces_as_listed, text_in_pieces};

// A text has no more tokens than bytes.
pub fn few_tokens()
    ensures { (text : List ℕ) → length (marks_of text) ≤ length text }
{
    ends_in_order::<Bytes>();
    one_cut::<Bytes>();
    text_in_pieces();
}

/// A text has no more pieces than bytes.
pub fn few_pieces()
    ensures { (text : List ℕ) → length (piece_kinds text) ≤ length text }
{
    ends_in_order::<Bytes>();
    one_cut::<Bytes>();
    text_in_pieces();
}

/// Just the fresh pieces are made.
pub fn pieces_are_fresh()
    ensures { (e : Edit) (change : PieceChange) → IsChange e change → length (made_pieces change) ≡ fresh_pieces_of e }
{
    made_are_fresh::<Bytes>();
    one_cut::<Bytes>();
    text_in_pieces();
}

// The pieces that an edit keeps have the tokens that it doesn't replace.
pub fn tokens_counted()
    ensures { (e : Edit) (pieces : PieceChange) → IsChange e pieces → (tokens : TokenChange) → IsTokenChange e tokens
        → AreCounted e.old pieces.kept_front pieces.kept_back tokens.edit }
{
    meets_where_sought::<Bytes>();
    one_cut::<Bytes>();
    ends_in_order::<Bytes>();
    text_in_pieces();
    pieces_as_listed();
}

// The tokens among the pieces that an edit makes are those that it makes.
pub fn made_are_tokens()
    ensures { (e : Edit) (pieces : PieceChange) → IsChange e pieces → (tokens : TokenChange) → IsTokenChange e tokens
        → filter is_token (made_pieces pieces) ≡ made_in e tokens.edit }
{
    tokens_counted();
}

/// The tokens that an edit doesn't replace stay where they are or are shifted.
pub fn tokens_around_stay()
    ensures { (e : Edit) (pieces : PieceChange)
        → IsEdit e.old e.text e.start e.old_stop e.new_stop → length e.old < 2 ^ 32 → length e.text < 2 ^ 32
        → IsChange e pieces → (tokens : TokenChange) → IsTokenChange e tokens
        → (s : Shift) → IsShiftOf e s → LeavesAround s (tokens_of e.old) (tokens_of e.text) (made_in e tokens.edit) tokens.edit }
{
    tokens_counted();
    one_cut::<Bytes>();
    ends_in_order::<Bytes>();
    text_in_pieces();
    pieces_as_listed();
}
