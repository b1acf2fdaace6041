//! Laws of tables whose rows an edit moves, whatever becomes of lines: `line` says it of the line
//! of an offset. A function here does nothing: its contract is the law.
//!
//! Where an edit is inside one item, the item keeps the event flags that it declares, and where
//! there are some, its name. What else it declares it may declare by other names, and a state may
//! have another name, where the rows are told by what the items said to each other as by what they
//! say.

ghost use Rattle.std.specs.Prelude.{◌≡◌, ◌<◌, ℕ, false, true, List, None, Some, map, slice_get};
ghost use Rattle.snl_lex.specs.declared.lines.Line.{Line};
ghost use Rattle.snl_lex.specs.declared.shift.Shift.{Shift};
ghost use Rattle.snl_scope.specs.Order.{is_named_state};
ghost use Rattle.snl_scope.specs.Places.{enclosing_set};
ghost use Rattle.snl_check.specs.States.{marks_of, state_body, wake_of};
ghost use Rattle.snl_tables.specs.Moved.{moved_tables};
ghost use Rattle.snl_tables.specs.Shifted.{with_body, with_marks, with_wake};
ghost use Rattle.snl_moved.specs.Moved.{KeepsItems, ReplacesOne};
ghost use Rattle.snl_moved.specs.Shifted.{shifted_item};
ghost use Rattle.snl_moved.specs.ShiftedAround.{IsSoundAsItWas, SaysAlikeAt, set_number, state_number};
ghost use Rattle.snl_moved.specs.Spans.{AreRead};
ghost use Rattle.snl_check.specs.Tables.{tables_of};
ghost use Rattle.snl_item_check.specs.Items.{ProgramItem, outlines_of};

use snl_scope::{names_are_tokens, same_spelling_same_summary};

/// Where an edit keeps the bytes of all tokens, and the line of each item moves as that of its
/// second token, the tables of the new text are those of the old one, moved.
pub fn tables_move()
    ensures { (old text : List ℕ) (s : Shift) (line : ℕ → Line → Line) (xs : List ProgramItem)
        → 0 < s.start → AreRead old xs → KeepsItems old text s line xs
        → tables_of text (map (shifted_item s) xs) ≡ moved_tables s line (tables_of old xs) }
{
    names_are_tokens();
    same_spelling_same_summary();
}

/// Where an edit changes no more than the inside of a state, and it has no clauses, leads where it
/// led and says in its conditions what it said, the rows are moved, but for the body of its own.
pub fn tables_move_inside_a_state()
    ensures { (old text : List ℕ) (s : Shift) (line : ℕ → Line → Line) (xs ys : List ProgramItem)
        (j set : ℕ) (y : ProgramItem) → 0 < s.start → AreRead old xs
        → ReplacesOne old text s line xs ys j
        → enclosing_set (outlines_of old xs) j ≡ Some set
        → is_named_state (outlines_of old xs) j ≡ true → slice_get ys j ≡ Some y
        → SaysAlikeAt old text xs ys j
        → tables_of text ys ≡ with_body (moved_tables s line (tables_of old xs))
        (set_number (outlines_of old xs) set) (state_number (outlines_of old xs) set j)
        (state_body text (outlines_of old xs) j y) }
{
    names_are_tokens();
    same_spelling_same_summary();
}

/// Where an edit changes no more than the inside of a state in a set, and it has no clauses, the
/// rows are moved, but for its body, what wakes it, and the marks of the states of its set.
pub fn tables_move_around_a_state()
    ensures { (old text : List ℕ) (s : Shift) (line : ℕ → Line → Line) (xs ys : List ProgramItem)
        (j set : ℕ) (y : ProgramItem) → 0 < s.start → AreRead old xs
        → ReplacesOne old text s line xs ys j
        → enclosing_set (outlines_of old xs) j ≡ Some set
        → is_named_state (outlines_of old xs) j ≡ true → slice_get ys j ≡ Some y
        → tables_of text ys ≡ with_marks
        (with_wake (with_body (moved_tables s line (tables_of old xs))
        (set_number (outlines_of old xs) set) (state_number (outlines_of old xs) set j)
        (state_body text (outlines_of old xs) j y))
        (set_number (outlines_of old xs) set) (state_number (outlines_of old xs) set j)
        (wake_of text ys (outlines_of old xs) j))
        (set_number (outlines_of old xs) set) (marks_of text ys (outlines_of old xs) set) }
{
    names_are_tokens();
    same_spelling_same_summary();
}

/// Where an edit changes no more than the inside of an item in a set that is no state with a name,
/// and it is plain and has no clauses, the rows are moved, but for the marks of the states of its
/// set.
pub fn tables_move_in_a_set()
    ensures { (old text : List ℕ) (s : Shift) (line : ℕ → Line → Line) (xs ys : List ProgramItem)
        (j set : ℕ) → 0 < s.start → AreRead old xs → ReplacesOne old text s line xs ys j
        → enclosing_set (outlines_of old xs) j ≡ Some set
        → is_named_state (outlines_of old xs) j ≡ false
        → tables_of text ys ≡ with_marks (moved_tables s line (tables_of old xs))
        (set_number (outlines_of old xs) set) (marks_of text ys (outlines_of old xs) set) }
{
    names_are_tokens();
    same_spelling_same_summary();
}

/// Where an edit changes no more than the inside of an item that is in no set, and it is plain and
/// has no clauses, the rows are moved.
pub fn tables_move_outside_the_sets()
    ensures { (old text : List ℕ) (s : Shift) (line : ℕ → Line → Line) (xs ys : List ProgramItem)
        (j : ℕ) → 0 < s.start → AreRead old xs → ReplacesOne old text s line xs ys j
        → enclosing_set (outlines_of old xs) j ≡ None
        → tables_of text ys ≡ moved_tables s line (tables_of old xs) }
{
    names_are_tokens();
    same_spelling_same_summary();
}

/// Where an edit changes no more than the inside of an item that is no state with a name, and the
/// item is plain, has no clauses and is sound or faulty as it was, the rows are moved.
pub fn tables_move_around_an_item()
    ensures { (old text : List ℕ) (s : Shift) (line : ℕ → Line → Line) (xs ys : List ProgramItem)
        (j : ℕ) → 0 < s.start → AreRead old xs → ReplacesOne old text s line xs ys j
        → is_named_state (outlines_of old xs) j ≡ false → IsSoundAsItWas xs ys j
        → tables_of text ys ≡ moved_tables s line (tables_of old xs) }
{
    names_are_tokens();
    same_spelling_same_summary();
}
