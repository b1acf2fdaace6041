//! The law of the items that an edit keeps. A function here does nothing: its contract is the law.

ghost use Rattle.snl_finding_laws.specs.KeptItems.{number_before};
ghost use Rattle.snl_items.specs.Changes.{IsItemChange};
ghost use Rattle.snl_items.specs.Fresh.{fresh_items_of, token_edit_of};
ghost use Rattle.snl_items.specs.declared.item_list.ItemChange.{ItemChange};
ghost use Rattle.snl_lex.specs.Edit.{Edit};
ghost use Rattle.snl_items.specs.Items.{item_ends, spelled_items};
ghost use Rattle.snl_kept.specs.Stirred.{is_fresh};
ghost use Rattle.std.specs.Prelude.{◌≡◌, ◌<◌, ℕ, false, length, slice_get};

/// After an edit that keeps some items at the front and some at the back, an item that isn't fresh
/// is spelled as the old item that has the number that it is said to have had.
pub fn kept_items_spelled_alike()
    ensures { (e : Edit) (change : ItemChange) → IsItemChange e (token_edit_of e) change
        → (i : ℕ) → i < length (item_ends e.text) → is_fresh (item_ends e.text) (fresh_items_of e) i ≡ false
        → slice_get (spelled_items e.text) i ≡ slice_get (spelled_items e.old) (number_before e i) }
{}
