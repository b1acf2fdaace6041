//! The laws of an edit inside one item, by the rows that it changes. A function here does nothing:
//! its contract is the law.

ghost use Rattle.std.specs.Prelude.{◌≡◌, ℕ, None, Some, false, is_none, is_some, true};
ghost use Rattle.snl_lex.specs.declared.line_shift.LineShift.{LineShift};
ghost use Rattle.snl_scope.specs.Linked.{faults_of};
ghost use Rattle.snl_scope.specs.Order.{state_name};
ghost use Rattle.snl_scope.specs.Places.{enclosing_set};
ghost use Rattle.snl_moved.specs.ShiftedAround.{SaysAlike};
ghost use Rattle.snl_lex.specs.Edit.{Edit};
ghost use Rattle.snl_kept.specs.declared.entries.Entry.{Entry};
ghost use Rattle.snl_kept.specs.declared.plan.Changes.{Changes};
ghost use Rattle.snl_kept.specs.declared.ways.one_item.touched_rows.TouchedRows.TheVariants as touched;
ghost use Rattle.snl_kept.specs.Checks.{links_in, outlines_in};
ghost use Rattle.snl_kept.specs.ItemPlan.{IsAfterInside, own_item};
ghost use Rattle.snl_kept.specs.OwnRows.{change_told};
ghost use Rattle.snl_kept.specs.Program.{items_of};
ghost use Rattle.snl_kept.specs.ReplacedItem.{IsInside, SparesInside, own_head};

use crate::laws::finding_laws::{diagnostics_are_found, findings_around_an_item};
use crate::laws::item_laws::one_item_replaced;
use snl_lex::text_in_pieces;
use snl_moved::{
    tables_move_around_a_state, tables_move_around_an_item, tables_move_in_a_set,
    tables_move_inside_a_state, tables_move_outside_the_sets,
};

/// After an edit inside a state with a name that says to the other items and in its conditions what
/// it said, the text says what it said, shifted, but for what is found at that state and for the
/// body of its row.
pub fn edit_inside_a_state()
    ensures { (edit : Edit) (c : Changes) (t : LineShift) (x e : Entry) (set : ℕ)
        → IsInside edit c t x e
        → SparesInside (own_head edit.old c) c.items.kept_front (faults_of (links_in edit.old))
        → faults_of (links_in edit.text) ≡ faults_of (links_in edit.old)
        → is_some (state_name x.summary.outline) ≡ true
        → enclosing_set (outlines_in edit.old) c.items.kept_front ≡ Some set
        → SaysAlike edit.old edit.text (own_item edit.old c.items.kept_front) (own_item edit.text c.items.kept_front)
        → IsAfterInside edit.old edit.text t c.items.kept_front (change_told edit.text (items_of edit.text) (outlines_in edit.old) c.items.kept_front (own_item edit.text c.items.kept_front) (touched.Body set)) }
{
    one_item_replaced();
    findings_around_an_item();
    diagnostics_are_found();
    tables_move_inside_a_state();
    text_in_pieces();
}

/// After an edit inside a state with a name that says to the other items what it said, the text
/// says what it said, shifted, but for what is found at that state, for its row, and for what is
/// known of the states of its set.
pub fn edit_around_a_state()
    ensures { (edit : Edit) (c : Changes) (t : LineShift) (x e : Entry) (set : ℕ)
        → IsInside edit c t x e
        → SparesInside (own_head edit.old c) c.items.kept_front (faults_of (links_in edit.old))
        → faults_of (links_in edit.text) ≡ faults_of (links_in edit.old)
        → is_some (state_name x.summary.outline) ≡ true
        → enclosing_set (outlines_in edit.old) c.items.kept_front ≡ Some set
        → IsAfterInside edit.old edit.text t c.items.kept_front (change_told edit.text (items_of edit.text) (outlines_in edit.old) c.items.kept_front (own_item edit.text c.items.kept_front) (touched.State set)) }
{
    one_item_replaced();
    findings_around_an_item();
    diagnostics_are_found();
    tables_move_around_a_state();
    text_in_pieces();
}

/// After an edit inside an item of a state set that is no state with a name and says to the others
/// what it said, the text says what it said, shifted, but for what is found at that item, and for
/// what is known of the states of the set.
pub fn edit_in_a_set()
    ensures { (edit : Edit) (c : Changes) (t : LineShift) (x e : Entry) (set : ℕ)
        → IsInside edit c t x e
        → SparesInside (own_head edit.old c) c.items.kept_front (faults_of (links_in edit.old))
        → faults_of (links_in edit.text) ≡ faults_of (links_in edit.old)
        → is_some (state_name x.summary.outline) ≡ false
        → enclosing_set (outlines_in edit.old) c.items.kept_front ≡ Some set
        → IsAfterInside edit.old edit.text t c.items.kept_front (change_told edit.text (items_of edit.text) (outlines_in edit.old) c.items.kept_front (own_item edit.text c.items.kept_front) (touched.Marks set)) }
{
    one_item_replaced();
    findings_around_an_item();
    diagnostics_are_found();
    tables_move_in_a_set();
    text_in_pieces();
}

/// After an edit inside an item that is no state with a name, says to the others what it said and
/// is sound or faulty as it was, the text says what it said, shifted, but for what is found at that
/// item.
pub fn edit_around_an_item()
    ensures { (edit : Edit) (c : Changes) (t : LineShift) (x e : Entry)
        → IsInside edit c t x e
        → SparesInside (own_head edit.old c) c.items.kept_front (faults_of (links_in edit.old))
        → faults_of (links_in edit.text) ≡ faults_of (links_in edit.old)
        → is_some (state_name x.summary.outline) ≡ false
        → is_none (own_item edit.text c.items.kept_front).tree ≡ is_none (own_item edit.old c.items.kept_front).tree
        → IsAfterInside edit.old edit.text t c.items.kept_front (change_told edit.text (items_of edit.text) (outlines_in edit.old) c.items.kept_front (own_item edit.text c.items.kept_front) touched.Nothing) }
{
    one_item_replaced();
    findings_around_an_item();
    diagnostics_are_found();
    tables_move_around_an_item();
    text_in_pieces();
}

/// The same of an item in no state set, sound or faulty.
pub fn edit_outside_the_sets()
    ensures { (edit : Edit) (c : Changes) (t : LineShift) (x e : Entry)
        → IsInside edit c t x e
        → SparesInside (own_head edit.old c) c.items.kept_front (faults_of (links_in edit.old))
        → faults_of (links_in edit.text) ≡ faults_of (links_in edit.old)
        → enclosing_set (outlines_in edit.old) c.items.kept_front ≡ None
        → IsAfterInside edit.old edit.text t c.items.kept_front (change_told edit.text (items_of edit.text) (outlines_in edit.old) c.items.kept_front (own_item edit.text c.items.kept_front) touched.Nothing) }
{
    one_item_replaced();
    findings_around_an_item();
    diagnostics_are_found();
    tables_move_outside_the_sets();
    text_in_pieces();
}
