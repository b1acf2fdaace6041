//! The laws of edits. A function here does nothing: its contract is the law.

ghost use Rattle.std.specs.Prelude.{◌≡◌, ℕ, ◌≤◌, List, length, map};
ghost use Rattle.std.specs.List.{AllByRecursion};
ghost use Rattle.snl_kept.specs.Program.{item_tokens};
ghost use Rattle.snl_alike.specs.Edits.{Edit, Rise, moved_stop, with_edits};
ghost use Rattle.snl_alike.specs.Same.{AreAlike};
ghost use Rattle.snl_alike.specs.Undone.{HasOldBytes, moved_token, undone, undone_at};

use snl_lex::{pieces_as_listed, text_in_pieces};

/// Edits that are undone leave the text as it was.
pub fn edits_are_undone()
    ensures { (text : List ℕ) (es : List Edit) → Rise 0 (length text) es
        → with_edits (with_edits text es) (undone text es) ≡ text }
{}

/// What undoes an edit has the old bytes, from where its new ones begin up to where they end.
pub fn undone_edits_move()
    ensures { (text : List ℕ) (es : List Edit) → Rise 0 (length text) es
        → AllByRecursion HasOldBytes es → undone text es ≡ map (undone_at text es) es }
{}

/// A later place does not become an earlier one.
pub fn places_keep_their_order()
    ensures { (text : List ℕ) (es : List Edit) (one other : ℕ) → Rise 0 (length text) es
        → one ≤ other → moved_stop es one ≤ moved_stop es other }
{}

/// Where two texts are alike, the tokens of each item are those of the same item, at their places.
pub fn tokens_move()
    ensures { (text : List ℕ) (es : List Edit) (new : List ℕ) → AreAlike text es new
        → item_tokens new ≡ map (map (moved_token es)) (item_tokens text) }
{
    pieces_as_listed();
    text_in_pieces();
}
