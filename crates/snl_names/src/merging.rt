//! Two lists of keys are merged.

ghost use Rattle.std.specs.Prelude.{◌≡◌, ◌||◌, ℕ, OnOk};
ghost use Rattle.snl_names.specs.Keys.{AreKeys, has_number};

use crate::keys::{Key, place_from};
use crate::spellings::Spellings;
use snl_cut::OutOfMemory;

/// Puts the keys of two lists into one list, in place of what was there. Those of the first list
/// are copied in runs, between the places of the others. Names are compared only to find these.
pub(crate) fn merge(
    sorted: &[Key],
    recent: &[Key],
    names: &Spellings,
    all: &mut Vec<Key>,
) -> Result<(), OutOfMemory>
    requires sorted { AreKeys names.now sorted.now }
    requires recent { AreKeys names.now recent.now }
    ensures keys { OnOk result (AreKeys names.now all.new.items) }
    ensures numbers { OnOk
        result
        ((n : ℕ) → has_number n all.new.items
        ≡ (has_number n sorted.now || has_number n recent.now)) }
{
    all.clear();
    all.reserve(sorted.len() + recent.len())?;
    let mut from = 0;
    for key in recent {
        let to = place_from(sorted, names, from, key.print, names.get(key.number));
        all.extend_from_slice(&sorted[from..to])?;
        all.push(*key)?;
        from = to;
    }
    all.extend_from_slice(&sorted[from..])?;
    Ok(())
}
