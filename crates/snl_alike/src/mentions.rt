//! What tokens of two texts mean. In: the mentions of both. Out: the place of the first that
//! differs, if one does.

ghost use Rattle.std.specs.Prelude.{◌≡◌, IsTrue};

use crate::moving::{Plain, are_same};
use snl_questions::{Mention, TokenPlace};

impl Plain for Mention {
    fn is_same(&self, other: &Mention) -> bool {
        *self == *other
    }
}

/// Whether two texts have the same mentions.
pub fn same_mentions(old: &[Mention], new: &[Mention]) -> bool
    ensures { IsTrue result → new.now ≡ old.now }
{
    are_same(old, new)
}

// The earlier one of two places.
fn earlier(old: TokenPlace, new: TokenPlace) -> TokenPlace {
    if new.item < old.item || (new.item == old.item && new.token < old.token) {
        new
    } else {
        old
    }
}

/// The place of the first mention that differs, if one does.
pub fn first_changed(old: &[Mention], new: &[Mention]) -> Option<TokenPlace> {
    for number in 0..old.len().min(new.len()) {
        if old[number] != new[number] {
            return Some(earlier(old[number].at, new[number].at));
        }
    }
    match old.get(new.len()) {
        Some(mention) => Some(mention.at),
        None => Some(new.get(old.len())?.at),
    }
}
