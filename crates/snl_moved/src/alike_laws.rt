//! Laws of tables by what items say to each other. A function here does nothing: its contract is
//! the law.

ghost use Rattle.std.specs.Prelude.{◌≡◌, ℕ, false, List, Some, slice_get};
ghost use Rattle.snl_summary.specs.declared.summary.Outline.{Outline};
ghost use Rattle.snl_scope.specs.Renamed.{ClausesAlike, MeanAlike};
ghost use Rattle.snl_scope.specs.Spoken.{meets};
ghost use Rattle.snl_check.specs.Tables.{tables_by};
ghost use Rattle.snl_item_check.specs.Items.{ProgramItem, summary_of_item};

/// Where all means to the items of a text what it meant, but for some names that no item uses and
/// some of states that none leads to, the rows are told by what the items said to each other as by
/// what they say.
pub fn tables_told_alike()
    ensures { (text : List ℕ) (ys : List ProgramItem) (ss ts : List Outline)
        (used led_to : List (List ℕ)) → MeanAlike ss ts used led_to → ClausesAlike ss ts
        → ((i : ℕ) (y : ProgramItem) → slice_get ys i ≡ Some y
        → meets used led_to (summary_of_item text y) ≡ false)
        → tables_by text ys ts ≡ tables_by text ys ss }
{}
