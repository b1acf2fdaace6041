//! The checks of the items as they are kept: what an edit makes of them comes in, lists with the
//! new ones in their places go out. It knows nothing of the rules, nor of why a check is made.
#![tactic(auto)]

ghost use Rattle.std.specs.Prelude.{◌≡◌, ◌≤◌, ◌++◌, IfOk, IsTrue, OnOk, Some, drop, length, map, take};
ghost use Rattle.snl_kept.specs.NewChecks.{clean_check, made_at, nones, put};

use crate::plan::NewCheck;
use crate::shared::Shared;
use crate::values::values_after;
use snl_cut::OutOfMemory;
use snl_item_check::Checked;
use snl_lists::Ordered;
use std::alloc::Global;

/// The check of an item in which nothing is found, which all such items share.
pub fn clean_check(alloc: Global) -> Result<Shared<Option<Checked>>, OutOfMemory>
    ensures { IfOk result (λ clean. clean ≡ Some clean_check) }
{
    Ok(Shared::new(alloc, Some(Checked::clean(alloc)))?)
}

// Whether nothing is found in an item.
fn is_clean(checked: &Checked) -> bool
    ensures { IsTrue result → checked.now ≡ clean_check }
{
    checked.faults.as_slice().is_empty()
        && checked.wake_uses.as_slice().is_empty()
        && checked.target_uses.as_slice().is_empty()
}

// A check to be kept.
fn kept_check(
    alloc: Global,
    checked: Checked,
    clean: &Shared<Option<Checked>>,
) -> Result<Shared<Option<Checked>>, OutOfMemory>
    requires { clean.now ≡ Some clean_check }
    ensures { IfOk result (λ kept. kept ≡ Some checked) }
{
    if is_clean(&checked) {
        return Ok(clean.share()?);
    }
    Ok(Shared::new(alloc, Some(checked))?)
}

/// Adds the check of an item, if one was made.
pub fn add_made(
    alloc: Global,
    item: usize,
    check: Option<Checked>,
    clean: &Shared<Option<Checked>>,
    made: &mut Vec<NewCheck>,
) -> Result<(), OutOfMemory>
    requires { clean.now ≡ Some clean_check }
    ensures { OnOk result (made.new.items ≡ made.old.items ++ made_at item check) }
{
    if let Some(checked) = check {
        let check = kept_check(alloc, checked, clean)?;
        made.push(NewCheck { item, check })?;
    }
    Ok(())
}

/// A place for each item that ends at one of these tokens, with no check yet.
pub fn vacant_for(alloc: Global, ends: &[u32]) -> Result<Vec<Shared<Option<Checked>>>, OutOfMemory>
    ensures { IfOk result (λ v. v.items ≡ nones ends.now) }
{
    let none = Shared::new(alloc, None)?;
    let mut vacant = Vec::with_capacity(alloc, ends.len())?;
    for _end in ends {
        vacant.push(none.share()?)?;
    }
    Ok(vacant)
}

// Looks at the checks that were made in place of the others.
fn look_at<'a>(made: &'a [NewCheck], checks: &mut Vec<&'a Shared<Option<Checked>>>)
    ensures { map (λ c. c.now) checks.new.items ≡ put (map (λ c. c.now) checks.old.items) made.now }
{
    for one in made {
        if one.item < checks.len() {
            checks[one.item] = &one.check;
        }
    }
}

/// The checks of all items after an edit: so many that are kept at the front, places with none,
/// those that are kept from another number on, and those that were made in their places.
pub fn checks_in<'a>(
    alloc: Global,
    kept: &'a Ordered<Shared<Option<Checked>>>,
    front: usize,
    vacant: &'a [Shared<Option<Checked>>],
    back: usize,
    made: &'a [NewCheck],
) -> Result<Vec<&'a Shared<Option<Checked>>>, OutOfMemory>
    requires order { front ≤ back }
    requires inside { back ≤ length kept.now.values }
    ensures { IfOk result (λ cs. map (λ c. c.now) cs.items ≡ put (take front kept.now.values ++ (vacant.now ++ drop back kept.now.values)) made.now) }
{
    let mut checks = values_after(alloc, kept, front, vacant, back)?;
    look_at(made, &mut checks);
    Ok(checks)
}

/// Puts checks that were made in their places.
pub fn put(checks: &mut Ordered<Shared<Option<Checked>>>, made: Vec<NewCheck>)
    ensures { checks.new.values ≡ put checks.old.values made.items }
{
    for one in made {
        let NewCheck { item, check } = one;
        if item < checks.len() {
            checks.set(item, check);
        }
    }
}
