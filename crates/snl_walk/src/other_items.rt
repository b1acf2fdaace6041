//! What is known outside an item of the names in it.

ghost use Rattle.std.specs.Prelude.{◌≡◌, ℕ, Bool, List, Option};
ghost use Rattle.snl_walk.specs.declared.other_items.Outer.{Outer};

/// What a name passes for by its declaration outside the item: for an event flag, and for a
/// variable that has a channel.
#[derive(Clone, Copy, Debug, PartialEq, Eq)]
pub struct Outer {
    pub flag: bool,
    pub channel: bool,
}

/// Answers what the other items say of a name.
pub trait OtherItems {
    ghost outer_of: { Self → List ℕ → Option Outer };

    ghost misses: { Self → List ℕ → Bool };

    /// What a name passes for by its declaration in the nearest scope around the item that declares
    /// it.
    fn outer(&self, name: &[u8]) -> Option<Outer>
        ensures { result ≡ outer_of self.now name.now };

    /// Whether the item is in a state set that has no state of this name.
    fn misses_state(&self, name: &[u8]) -> bool
        ensures { result ≡ misses self.now name.now };
}
