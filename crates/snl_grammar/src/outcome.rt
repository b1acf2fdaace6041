//! What the parser makes of an item.

ghost use Rattle.std.specs.Prelude.{◌≡◌};
ghost use Rattle.std.specs.Option.{option_copied};

use crate::tree::item::Item;

/// An item as the parser left it: its tree, or the number of the token at which it is faulty.
#[derive(Drop)]
pub enum Parsed {
    Sound(Item),
    /// The first faulty token has this number, from 0.
    BadToken(usize),
    /// No item consists of these tokens. The number is that of the token that is blamed, from 0.
    NoItem(usize),
}

impl Parsed {
    ghost use Rattle.snl_grammar.specs.Outcome.{sound_tree};

    /// The tree of a sound item.
    pub fn tree(&self) -> Option<&Item>
        ensures { option_copied result ≡ sound_tree self.now }
    {
        match self {
            Parsed::Sound(tree) => Some(tree),
            Parsed::BadToken(_) | Parsed::NoItem(_) => None,
        }
    }
}
