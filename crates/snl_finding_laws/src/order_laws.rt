//! The law of texts whose items are in order. A function here does nothing of its own: its contract
//! is the law.

ghost use Rattle.snl_codes.specs.declared.code.Code.TheVariants.{E03, E05};
ghost use Rattle.snl_item_check.specs.Items.{linked_of};
ghost use Rattle.snl_kept.specs.Diagnostics.{diagnostics_of};
ghost use Rattle.snl_kept.specs.Program.{items_of};
ghost use Rattle.snl_table_laws.specs.Order.{AreSetsFree, IsInOrder};
ghost use Rattle.std.specs.Prelude.{◌≡◌, ◌⊎◌, ℕ, All, List};

use snl_item_check::faults_have_item_codes;
use snl_table_laws::{items_with_places_are_ordered, ordered_items_have_places};

/// A text has no E03 where its items at program level are in the order of the language, and no
/// state set has an item that may not be in one. Where it has neither E03 nor E05, both are so.
pub fn ordered_texts_have_no_misplaced_item()
    ensures none { (text : List ℕ) → IsInOrder (linked_of text (items_of text))
        → AreSetsFree (linked_of text (items_of text))
        → All (λ d. d.code ≡ E03 → ⊥) (diagnostics_of text) }
    ensures ordered { (text : List ℕ)
        → All (λ d. (d.code ≡ E03) ⊎ (d.code ≡ E05) → ⊥) (diagnostics_of text)
        → IsInOrder (linked_of text (items_of text)) }
    ensures sets { (text : List ℕ)
        → All (λ d. (d.code ≡ E03) ⊎ (d.code ≡ E05) → ⊥) (diagnostics_of text)
        → AreSetsFree (linked_of text (items_of text)) }
{
    faults_have_item_codes();
    ordered_items_have_places();
    items_with_places_are_ordered();
}
