//! What a check of an item gives.

ghost use Rattle.std.specs.Prelude.{◌≡◌, []};

use snl_codes::Code;
use snl_walk::{TargetUse, WakeUse};
use sqlite_items::Items;
use std::alloc::Global;

/// A finding at a token of an item: the token is its number in the item.
#[derive(Clone, Copy, Debug, PartialEq, Eq)]
pub struct ItemFault {
    pub token: usize,
    /// The number of the byte in its token at which it is: that of a letter of an option, else 0.
    pub byte: usize,
    pub code: Code,
}

/// What a check of an item gives.
pub struct Checked {
    pub faults: Items<ItemFault>,
    /// The uses of names in its conditions, in the order of the text.
    pub wake_uses: Items<WakeUse>,
    /// The names of the states that it leads to, in the order of the text.
    pub target_uses: Items<TargetUse>,
}

impl Checked {
    /// What the check gives of an item in which nothing is found, and nothing used.
    pub fn clean(alloc: Global) -> Checked
        ensures { result ≡ record { faults = []; wake_uses = []; target_uses = [] } }
    {
        Checked {
            faults: Items::new(alloc),
            wake_uses: Items::new(alloc),
            target_uses: Items::new(alloc),
        }
    }
}

// By hand, so that whoever holds a check need not know what is in it to let it go.
impl Drop for Checked {
    fn drop(self) {
        let Checked {
            faults: _,
            wake_uses: _,
            target_uses: _,
        } = self;
    }
}
