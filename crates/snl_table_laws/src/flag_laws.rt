//! The laws of event flags and their numbers. A function here does nothing: its contract is the
//! law.

ghost use Rattle.snl_item_check.specs.Items.{ProgramItem, outlines_of};
ghost use Rattle.snl_check.specs.Tables.{tables_of};
ghost use Rattle.snl_listing.specs.Listing.{flag_line, listing_of};
ghost use Rattle.snl_scope.specs.Flags.{flag_number};
ghost use Rattle.snl_summary.specs.declared.summary.Outline.{Outline};
ghost use Rattle.snl_table_laws.specs.Flags.{HasLine, IsRowOf, row_numbered};
ghost use Rattle.snl_tables.specs.declared.rows.FlagRow.{FlagRow};
ghost use Rattle.snl_tables.specs.declared.rows.Tables.{Tables};
ghost use Rattle.std.specs.Prelude.{◌≡◌, ◌≤◌, ℕ, List, Some, length};

/// The flag with the number n has row n, counted from 1; each row is one of a flag; and no two
/// flags have one number.
pub fn flags_have_rows()
    ensures row { (text : List ℕ) (xs : List ProgramItem) (number n : ℕ)
        → flag_number (outlines_of text xs) number ≡ Some n → IsRowOf text xs number n }
    ensures flag { (text : List ℕ) (xs : List ProgramItem) (n : ℕ) → 1 ≤ n
        → n ≤ length (tables_of text xs).flags
        → (number : ℕ) × (flag_number (outlines_of text xs) number ≡ Some n) }
    ensures apart { (ss : List Outline) (one other n : ℕ) → flag_number ss one ≡ Some n
        → flag_number ss other ≡ Some n → one ≡ other }
{}

/// The listing of tables has the row of the flag n in a line that says n.
pub fn flags_listed_by_number()
    ensures { (text : List ℕ) (tables : Tables) (n : ℕ) (row : FlagRow)
        → row_numbered tables.flags n ≡ Some row
        → HasLine (listing_of text tables) (flag_line text n row) }
{}
