//! The law of an edit that shifts all that a text says. A function here does nothing: its contract
//! is the law.

ghost use Rattle.snl_lex.specs.declared.line_shift.LineShift.{LineShift};
ghost use Rattle.snl_lex.specs.Edit.{Edit};
ghost use Rattle.snl_kept.specs.Shifted.{IsShifted, ShiftsAll};

use snl_grammar::{outcome_told, same_spelling_same_tree};
use snl_item_check::faults_stand_in_tokens;
use snl_lex::{lines_move, text_in_pieces};
use snl_moved::tables_move;
use snl_scope::same_spelling_same_summary;
use snl_views::views_told_apart;

/// Where an edit shifts all that a text says, the new text says the same, shifted.
pub fn edit_shifts_all()
    ensures { (edit : Edit) (t : LineShift) → ShiftsAll edit t → IsShifted edit t }
{
    text_in_pieces();
    outcome_told();
    same_spelling_same_tree();
    same_spelling_same_summary();
    faults_stand_in_tokens();
    views_told_apart();
    lines_move();
    tables_move();
}
