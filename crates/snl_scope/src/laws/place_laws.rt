//! The law of the state sets that items are in. A function here does nothing: its contract is the
//! law.

ghost use Rattle.snl_summary.specs.declared.summary.Outline.{Outline};
ghost use Rattle.snl_scope.specs.Places.{begins_set, ends_set, open_before, enclosing_set};
ghost use Rattle.std.specs.Prelude.{◌≡◌, ◌<◌, ℕ, suc, List, Some, None, if◌then◌else◌, slice_get};

/// An item that begins a state set opens it, one that ends a state set leaves none open, and any
/// other leaves open what was. An item is in the state set that is open before it, unless it begins
/// one. The item that begins a state set is before those in it.
pub fn sets_open_in_turn()
    ensures opened { (ss : List Outline) (i : ℕ) (s : Outline) → slice_get ss i ≡ Some s
        → open_before ss (suc i) ≡ (if begins_set s.role then Some i
        else (if ends_set s.role then None else open_before ss i)) }
    ensures placed { (ss : List Outline) (i : ℕ) (s : Outline) → slice_get ss i ≡ Some s
        → enclosing_set ss i ≡ (if begins_set s.role then None else open_before ss i) }
    ensures within { (ss : List Outline) (i k : ℕ) → enclosing_set ss i ≡ Some k → k < i }
{}
