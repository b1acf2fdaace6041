//! Where the cuts before and after an edit meet.

ghost use Rattle.snl_cut.specs.Cut.{IsEdit, IsMeet, IsRecut, ends_below, ends_of, fresh_ends, meet_of};
ghost use Rattle.snl_token_laws.specs.Recuts.{back_of};
ghost use Rattle.snl_lex.specs.PieceList.{piece_ends};
ghost use Rattle.snl_lex.specs.Pieces.{piece_length};
ghost use Rattle.std.specs.Prelude.{ℕ, List};

use snl_cut::{Front, ends_in_order, one_cut};
use snl_lex::{Bytes, text_in_pieces};

/// Whatever an edit of a list replaces, the cut of the new list meets that of the old one: at the
/// first end, from the edit on, that both have, and at the latest where the lists end. So a recut
/// asks no more of two lists than that one is an edit of the other.
pub fn edits_meet<F: Front>()
    ensures { (old units : List F.Unit) (start old_stop new_stop : ℕ)
        → IsEdit old units start old_stop new_stop
        → IsMeet F.first_of old units old_stop new_stop
        (meet_of F.first_of old units old_stop new_stop) }
{
    one_cut::<F>();
    ends_in_order::<F>();
}

/// For each edit there is a recut. It keeps the old members that end before the edit and those from
/// the meeting point on, and makes the fresh ones.
pub fn edits_have_recuts<F: Front>()
    ensures { (old units : List F.Unit) (start old_stop new_stop : ℕ)
        → IsEdit old units start old_stop new_stop
        → IsRecut F.first_of old (ends_of F.first_of old) units start old_stop new_stop
        (ends_below start (ends_of F.first_of old))
        (fresh_ends F.first_of old units start old_stop new_stop)
        (back_of F.first_of old units old_stop new_stop) }
{
    one_cut::<F>();
    ends_in_order::<F>();
    edits_meet::<F>();
}

/// The same of the pieces of two texts: a recut of the pieces asks no more than that one text is an
/// edit of the other.
pub fn pieces_meet()
    ensures meet { (old text : List ℕ) (start old_stop new_stop : ℕ)
        → IsEdit old text start old_stop new_stop
        → IsMeet piece_length old text old_stop new_stop
        (meet_of piece_length old text old_stop new_stop) }
    ensures recut { (old text : List ℕ) (start old_stop new_stop : ℕ)
        → IsEdit old text start old_stop new_stop
        → IsRecut piece_length old (piece_ends old) text start old_stop new_stop
        (ends_below start (piece_ends old))
        (fresh_ends piece_length old text start old_stop new_stop)
        (back_of piece_length old text old_stop new_stop) }
{
    text_in_pieces();
    one_cut::<Bytes>();
    edits_meet::<Bytes>();
    edits_have_recuts::<Bytes>();
}
