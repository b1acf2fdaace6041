//! The values that an order will have after an edit: the order as it is and what the edit makes
//! come in, a list of all goes out. It knows nothing of what the values are.
#![tactic(auto)]

ghost use Rattle.std.specs.Prelude.{◌≡◌, ◌-◌, ◌≤◌, ◌++◌, IfOk, OnOk, drop, length, map, take};

use snl_cut::OutOfMemory;
use snl_lists::Ordered;
use std::alloc::Global;

/// Adds the values from one number up to another.
pub fn add_kept<'a, T>(
    kept: &'a Ordered<T>,
    from: usize,
    to: usize,
    values: &mut Vec<&'a T>,
) -> Result<(), OutOfMemory>
    requires order { from ≤ to }
    requires inside { to ≤ length kept.now.values }
    ensures { OnOk result (map (λ v. v.now) values.new.items ≡ map (λ v. v.now) values.old.items ++ take (to - from) (drop from kept.now.values)) }
{
    for number in from..to {
        if let Some(value) = kept.get(number) {
            values.push(value)?;
        }
    }
    Ok(())
}

/// Adds values that were made.
pub fn add_made<'a, T>(made: &'a [T], values: &mut Vec<&'a T>) -> Result<(), OutOfMemory>
    ensures { OnOk result (map (λ v. v.now) values.new.items ≡ map (λ v. v.now) values.old.items ++ made.now) }
{
    for value in made {
        values.push(value)?;
    }
    Ok(())
}

/// All values after an edit: so many that are kept at the front, those that were made, and those
/// from another number on.
pub fn values_after<'a, T>(
    alloc: Global,
    kept: &'a Ordered<T>,
    front: usize,
    made: &'a [T],
    back: usize,
) -> Result<Vec<&'a T>, OutOfMemory>
    requires order { front ≤ back }
    requires inside { back ≤ length kept.now.values }
    ensures { IfOk result (λ vs. map (λ v. v.now) vs.items ≡ take front kept.now.values ++ (made.now ++ drop back kept.now.values)) }
{
    let room = (kept.len() - back + front).saturating_add(made.len());
    let mut values = Vec::with_capacity(alloc, room)?;
    add_kept(kept, 0, front, &mut values)?;
    add_made(made, &mut values)?;
    add_kept(kept, back, kept.len(), &mut values)?;
    Ok(values)
}
