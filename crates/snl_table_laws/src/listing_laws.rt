//! The laws of the listing: a line of ASCII for each row. A function here does nothing: its
//! contract is the law.

ghost use Rattle.snl_item_check.specs.Items.{ProgramItem};
ghost use Rattle.snl_check.specs.Tables.{tables_of};
ghost use Rattle.snl_listing.specs.Listing.{channel_line, flag_line, goto_line, listing_of, option_line, program_line, set_line, state_line, wake_line, when_line};
ghost use Rattle.snl_table_laws.specs.Lines.{AreLines, HasByteLetter, HasBytePv, HasBytes, IsByte, IsLine, rows_of};
ghost use Rattle.snl_tables.specs.declared.rows.ChannelRow.{ChannelRow};
ghost use Rattle.snl_tables.specs.declared.rows.Destination.{Destination};
ghost use Rattle.snl_tables.specs.declared.rows.FlagRow.{FlagRow};
ghost use Rattle.snl_tables.specs.declared.rows.NamedState.{NamedState};
ghost use Rattle.snl_tables.specs.declared.rows.OptionRow.{OptionRow};
ghost use Rattle.snl_tables.specs.declared.rows.SetRow.{SetRow};
ghost use Rattle.snl_tables.specs.declared.rows.Span.{Span};
ghost use Rattle.snl_tables.specs.declared.rows.StateRow.{StateRow};
ghost use Rattle.snl_tables.specs.declared.rows.Tables.{Tables};
ghost use Rattle.std.specs.Prelude.{◌≡◌, ◌==◌, ◌<◌, ℕ, All, List, Option, codes, count_by};

/// Whatever bytes names and strings have, each row is one line: bytes that print in ASCII, and an
/// LF at its end alone. So are the options of the program, and those of a state, which are
/// indented.
pub fn rows_are_lines()
    ensures program { (text : List ℕ) → All IsByte text → (program : Option Span)
        → IsLine (program_line text program) }
    ensures option { (row : OptionRow) → HasByteLetter row → IsLine (option_line (codes "") row) }
    ensures state_option { (row : OptionRow) → HasByteLetter row
        → IsLine (option_line (codes "  ") row) }
    ensures flag { (text : List ℕ) → All IsByte text → (n : ℕ) (row : FlagRow)
        → IsLine (flag_line text n row) }
    ensures channel { (text : List ℕ) → All IsByte text → (n : ℕ) (row : ChannelRow) → HasBytePv row
        → IsLine (channel_line text n row) }
    ensures set { (text : List ℕ) → All IsByte text → (row : SetRow) → IsLine (set_line text row) }
    ensures state { (text : List ℕ) → All IsByte text → (row : StateRow)
        → IsLine (state_line text row) }
    ensures transition { (text : List ℕ) → All IsByte text → (k : ℕ) (destination : Destination)
        → IsLine (when_line text k destination) }
    ensures goto { (text : List ℕ) → All IsByte text → (target : NamedState)
        → IsLine (goto_line text target) }
    ensures wake_up_set { (flags channels : List ℕ) → IsLine (wake_line flags channels) }
{}

/// The listing of any tables of a text has as many lines as the tables have rows, and no other
/// bytes.
pub fn listing_in_lines()
    ensures { (text : List ℕ) (tables : Tables) → All IsByte text → HasBytes tables
        → AreLines (rows_of tables) (listing_of text tables) }
{}

/// Lines are ASCII, and have one LF each.
pub fn lines_are_ascii()
    ensures ascii { (count : ℕ) (bytes : List ℕ) → AreLines count bytes → All (λ b. b < 128) bytes }
    ensures line_ends { (count : ℕ) (bytes : List ℕ) → AreLines count bytes
        → count_by (λ b. b == 10) bytes ≡ count }
{}

/// So the listing of a text is ASCII, and a line for each row of its tables: the letters of options
/// and the names of channels in these are bytes of the text.
pub fn listing_of_text_in_lines()
    ensures bytes { (text : List ℕ) (xs : List ProgramItem) → All IsByte text
        → HasBytes (tables_of text xs) }
    ensures lines { (text : List ℕ) (xs : List ProgramItem) → All IsByte text
        → AreLines (rows_of (tables_of text xs)) (listing_of text (tables_of text xs)) }
{
    listing_in_lines();
}
