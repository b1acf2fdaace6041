//! The order of findings: they come in as they were found, and go out by offset and code; which of
//! them are the same. It knows nothing of how they were found.
#![tactic(auto)]

ghost use Rattle.std.specs.Prelude.{◌≡◌, OnOk, map};
ghost use Rattle.std.specs.List.Sorted.{IsNonDecreasing};
ghost use Rattle.snl_kept.specs.Order.{in_order, order_by_code, order_of};
ghost use Rattle.snl_kept.specs.OwnFindings.{is_same};

use crate::found::findings::Finding;
use snl_cut::OutOfMemory;
use std::cmp::Ordering;

// Which of two findings at one offset comes first.
fn order_by_code(a: &Finding, b: &Finding) -> Ordering
    ensures { result ≡ order_by_code a.now b.now }
{
    a.code
        .name()
        .cmp(b.code.name())
        .then(a.subject.cmp(&b.subject))
}

// Which of two findings comes first.
fn order_of(a: &Finding, b: &Finding) -> Ordering
    ensures { result ≡ order_of a.now b.now }
{
    a.offset.cmp(&b.offset).then_with(|| order_by_code(a, b))
}

/// Whether two findings have one offset, one code and one subject.
pub fn is_same(a: &Finding, b: &Finding) -> bool
    ensures { result ≡ is_same a.now b.now }
{
    a.offset == b.offset && order_of(a, b).is_eq()
}

/// Puts findings in order.
pub fn sort(found: &mut Vec<Finding>) -> Result<(), OutOfMemory>
    ensures order { OnOk result (found.new.items ≡ in_order found.old.items) }
    ensures rising { OnOk result (IsNonDecreasing (map (λ x. x.offset) found.new.items)) }
{
    match found.sort_by(|a, b| order_of(a, b)) {
        Ok(()) => Ok(()),
        Err(_) => Err(OutOfMemory),
    }
}
