//! All findings of links: those of order and of names, which go by the kinds of items too, and
//! those at clauses.

ghost use Rattle.std.specs.Prelude.{◌≡◌, [], ◌++◌, IfOk, OnOk, filter, length};
ghost use Rattle.snl_scope.specs.Clauses.{clause_faults};
ghost use Rattle.snl_scope.specs.LinkedItems.{LinkedItems};
ghost use Rattle.snl_scope.specs.Linked.{faults_of};
ghost use Rattle.snl_scope.specs.Names.{entries, repetitions, told_by};

use crate::facts::LinkFault;
use crate::items::order::{add_order_faults, is_faulty};
use crate::names::scopes::Scopes;
use snl_cut::OutOfMemory;
use snl_summary::ItemKind;
use std::alloc::Global;

// Whether the item of a finding isn't faulty.
fn is_told(kinds: &[ItemKind], fault: LinkFault) -> bool
    ensures { result ≡ told_by kinds.now fault }
{
    match kinds.get(fault.item) {
        Some(kind) => !is_faulty(*kind),
        None => true,
    }
}

// Adds the findings whose items aren't faulty.
fn add_told(
    kinds: &[ItemKind],
    repeated: &[LinkFault],
    faults: &mut Vec<LinkFault>,
) -> Result<(), OutOfMemory>
    ensures { OnOk result (faults.new.items ≡ faults.old.items
        ++ filter (told_by kinds.now) repeated.now) }
{
    for fault in repeated {
        if is_told(kinds, *fault) {
            faults.push(*fault)?;
        }
    }
    Ok(())
}

fn add_all(added: &[LinkFault], faults: &mut Vec<LinkFault>) -> Result<(), OutOfMemory>
    ensures { OnOk result (faults.new.items ≡ faults.old.items ++ added.now) }
{
    if faults.extend_from_slice(added).is_err() {
        return Err(OutOfMemory);
    }
    Ok(())
}

/// All findings of the items with these kinds. `repeated` has the names that came again, and
/// `at_clauses` what is found at clauses, which go by the outlines alone.
pub(crate) fn all_faults(
    alloc: Global,
    scopes: &Scopes,
    kinds: &[ItemKind],
    repeated: &[LinkFault],
    at_clauses: &[LinkFault],
) -> Result<Vec<LinkFault>, OutOfMemory>
    requires as_many { length kinds.now ≡ length scopes.now }
    requires names { repeated.now ≡ repetitions [] (entries scopes.now) }
    requires clauses { at_clauses.now ≡ clause_faults scopes.now }
    ensures { IfOk result (λ faults. faults.items
        ≡ faults_of (record { outlines = scopes.now; kinds = kinds.now })) }
{
    let mut faults = Vec::new(alloc);
    add_order_faults(alloc, scopes, kinds, &mut faults)?;
    add_told(kinds, repeated, &mut faults)?;
    add_all(at_clauses, &mut faults)?;
    Ok(faults)
}
