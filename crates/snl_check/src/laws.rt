//! The law of walks. A function here does nothing: its contract is the law.

ghost use Rattle.std.specs.Prelude.{◌≡◌, ◌<◌, ◌↔◌, ℕ, true, List, length};
ghost use Rattle.snl_check.specs.Reach.{AreStates, IsReached, is_reached};

/// A walk leads to a state from the initial one exactly where one with as many steps as there are
/// states, or fewer, does.
pub fn walks_of_few_steps()
    ensures { (targets : List (List ℕ)) → AreStates targets → (s : ℕ) → s < length targets
        → (is_reached targets s ≡ true) ↔ IsReached targets s }
{}
