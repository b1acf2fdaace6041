//! The laws of the rows that an edit leaves as they are. A function here does nothing: its contract
//! is the law.

ghost use Rattle.std.specs.Prelude.{◌≡◌, ◌≤◌, ℕ, List, length, take};
ghost use Rattle.std.specs.List.{AllByRecursion};
ghost use Rattle.snl_moved.specs.Quiet.{IsQuietAfter, HasSameLine, sets_before};
ghost use Rattle.snl_check.specs.Tables.{tables_of};
ghost use Rattle.snl_item_check.specs.Items.{ProgramItem, outlines_of};

use snl_scope::{same_spelling_same_summary, sets_open_in_turn};

/// Where two texts begin with the same items, and all after these are quiet, the rows of channels
/// are the same.
pub fn channels_stay()
    ensures { (old text : List ℕ) (xs ys : List ProgramItem) (n : ℕ)
        → IsQuietAfter old text xs ys n
        → (tables_of text ys).channels ≡ (tables_of old xs).channels }
{
    same_spelling_same_summary();
    sets_open_in_turn();
}

/// Where besides these items begin on the lines that they began on, the rows of the state sets that
/// begin among them are the same, but for the last of these sets: items after them may be in it.
pub fn sets_stay()
    ensures { (old text : List ℕ) (xs ys : List ProgramItem) (n : ℕ)
        → n ≤ length xs → IsQuietAfter old text xs ys n
        → AllByRecursion (HasSameLine old text) (take n xs)
        → take (sets_before (outlines_of old xs) n) (tables_of text ys).sets
        ≡ take (sets_before (outlines_of old xs) n) (tables_of old xs).sets }
{
    same_spelling_same_summary();
    sets_open_in_turn();
}
