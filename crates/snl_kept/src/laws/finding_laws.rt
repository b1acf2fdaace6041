//! What is found after an edit inside one item. A function here does nothing: its contract is the
//! law.

ghost use Rattle.std.specs.Prelude.{◌≡◌, ◌++◌, ℕ, List, true, length, map};
ghost use Rattle.snl_lex.specs.declared.shift.Shift.{Shift};
ghost use Rattle.snl_scope.specs.Linked.{faults_of};
ghost use Rattle.snl_summary.specs.Summaries.{kind_of};
ghost use Rattle.snl_item_check.specs.Items.{ProgramItem};
ghost use Rattle.snl_moved.specs.ShiftedAround.{is_plain};
ghost use Rattle.snl_kept.specs.Checks.{links_in};
ghost use Rattle.snl_kept.specs.declared.found.findings.Finding.{Finding};
ghost use Rattle.snl_kept.specs.Diagnostics.{diagnostics_of, shown, shown_if};
ghost use Rattle.snl_kept.specs.ReplacedItem.{ReplacesInside, SparesInside, own_shown};
ghost use Rattle.snl_kept.specs.Order.{in_order};
ghost use Rattle.snl_kept.specs.OwnFindings.{WalksAround, found_around};
ghost use Rattle.snl_kept.specs.Program.{items_of};
ghost use Rattle.snl_kept.specs.Shifted.{finding_of};
ghost use Rattle.snl_kept.specs.Tables.{tables_in, walked_in};
ghost use Rattle.snl_kept.specs.Warnings.{shows_warnings, warns_in};

use snl_grammar::same_spelling_same_tree;
use snl_item_check::faults_stand_in_tokens;
use snl_scope::same_spelling_same_summary;

/// After an edit inside one plain item the findings of the other items are shifted, but for what
/// the walks find in one state set, and warnings are shown if they were.
pub fn findings_around_an_item()
    ensures found { (old text : List ℕ) (s : Shift) (head : ℕ) (front back : List ProgramItem) (x y : ProgramItem) (gone come : List Finding)
        → ReplacesInside old text s head front x y back → SparesInside head (length front) (faults_of (links_in old)) → is_plain (kind_of x.tree) ≡ true → is_plain (kind_of y.tree) ≡ true
        → faults_of (links_in text) ≡ faults_of (links_in old) → WalksAround s gone come (walked_in (tables_in old)) (walked_in (tables_in text))
        → found_around s (own_shown old (items_of old) (length front) x ++ shown_if (warns_in old) gone) (own_shown text (items_of text) (length front) y ++ shown_if (warns_in text) come) (in_order (shown old)) ≡ in_order (shown text) }
    ensures warnings { (old text : List ℕ) (s : Shift) (head : ℕ) (front back : List ProgramItem) (x y : ProgramItem) → ReplacesInside old text s head front x y back → is_plain (kind_of x.tree) ≡ true → is_plain (kind_of y.tree) ≡ true → shows_warnings text (items_of text) ≡ shows_warnings old (items_of old) }
{
    same_spelling_same_tree();
    same_spelling_same_summary();
    faults_stand_in_tokens();
}

/// The diagnostics of a text are what is shown of what is found in it, in order.
pub fn diagnostics_are_found()
    ensures { (text : List ℕ) → map finding_of (diagnostics_of text) ≡ in_order (shown text) }
{}
