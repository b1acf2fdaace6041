//! What wakes a state up after an edit inside it: its tokens, the uses in its conditions and the
//! rows of channels come in, the event flags, channels and variables that they mean go out. It asks
//! no clause.

ghost use Rattle.std.specs.Prelude.{◌≡◌, ◌<◌, ℕ, IfOk, List};
ghost use Rattle.snl_lex.specs.declared.lines.Line.{Line};
ghost use Rattle.snl_lex.specs.declared.shift.Shift.{Shift};
ghost use Rattle.snl_walk.specs.Tokens.{IsSource};
ghost use Rattle.snl_check.specs.Conditions.{uses_in};
ghost use Rattle.snl_item_check.specs.Items.{ProgramItem, outlines_of, tokens_in};
ghost use Rattle.snl_moved.specs.Moved.{ReplacesOne};
ghost use Rattle.snl_moved.specs.Spans.{AreRead};
ghost use Rattle.snl_check.specs.States.{wake_of};
ghost use Rattle.snl_check.specs.Tables.{tables_of};

use snl_check::wakes_by_rows;
use snl_cut::OutOfMemory;
use snl_lex::Piece;
use snl_scope::{Links, names_are_tokens, same_spelling_same_summary};
use snl_tables::{Tables, WakeUp};
use snl_walk::WakeUse;
use std::alloc::Global;

/// What wakes a state up, of which an edit changed the inside, whatever became of lines: `own` are
/// its tokens after the edit, and `uses` those of names in its conditions. The tables are those
/// before the edit: it changed no channel.
pub fn wake_inside(
    alloc: Global,
    text: &[u8],
    own: &[Piece],
    links: &Links,
    item: usize,
    uses: &[WakeUse],
    tables: &Tables,
) -> Result<Vec<WakeUp>, OutOfMemory>
    requires { IsSource text.now own.now }
    ensures { (old : List ℕ) (s : Shift) (line : ℕ → Line → Line) (xs ys : List ProgramItem)
        → 0 < s.start → AreRead old xs → ReplacesOne old text.now s line xs ys item
        → tables.now ≡ tables_of old xs → links.now.outlines ≡ outlines_of old xs
        → own.now ≡ tokens_in ys item → uses.now ≡ uses_in text.now ys item
        → IfOk result (λ wake. wake.items ≡ wake_of text.now ys (outlines_of old xs) item) }
{
    names_are_tokens();
    same_spelling_same_summary();
    wakes_by_rows(alloc, text, own, links, item, uses, tables)
}
