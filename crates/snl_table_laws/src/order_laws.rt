//! The laws of the order of items. A function here does nothing of its own: its contract is the
//! law.

ghost use Rattle.snl_codes.specs.declared.code.Code.TheVariants.{E03, E05};
ghost use Rattle.snl_scope.specs.Linked.{faults_of};
ghost use Rattle.snl_scope.specs.LinkedItems.{LinkedItems};
ghost use Rattle.snl_table_laws.specs.Order.{AreSetsFree, IsAtProgramLevel, IsInOrder};
ghost use Rattle.std.specs.Prelude.{◌≡◌, ◌⊎◌, All};

/// Where the items at program level are in the order of the language, links find no E03 at any of
/// them. Where besides no state set has an item that may not be in one, they find no E03 at all.
pub fn ordered_items_have_places()
    ensures outside { (l : LinkedItems) → IsInOrder l
        → All (λ f. f.code ≡ E03 → IsAtProgramLevel l f.item → ⊥) (faults_of l) }
    ensures all { (l : LinkedItems) → IsInOrder l → AreSetsFree l
        → All (λ f. f.code ≡ E03 → ⊥) (faults_of l) }
{}

/// The items at program level are in the order of the language where links find neither E03 nor E05
/// at any of them, and no state set has an item that may not be in one where they find neither
/// anywhere. (A header after the first has E05 and no E03, wherever it is.)
pub fn items_with_places_are_ordered()
    ensures outside { (l : LinkedItems)
        → All (λ f. (f.code ≡ E03) ⊎ (f.code ≡ E05) → IsAtProgramLevel l f.item → ⊥) (faults_of l)
        → IsInOrder l }
    ensures sets { (l : LinkedItems)
        → All (λ f. (f.code ≡ E03) ⊎ (f.code ≡ E05) → ⊥) (faults_of l) → AreSetsFree l }
{}
