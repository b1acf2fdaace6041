//! To what each declaration is assigned: resolved clauses come in, a table by the numbers of
//! declarations goes out.

ghost use Rattle.std.specs.Prelude.{◌≡◌, ◌&&◌, ◌++◌, ◌∷◌, [], List, map, is_none, IfOk, OnOk};
ghost use Rattle.snl_scope.specs.ByNumber.{at_number};
ghost use Rattle.snl_scope.specs.Clauses.{LinkedClause, assigned_as, is_assign};
ghost use Rattle.snl_scope.specs.Resolved.{Assigns, linked};

use crate::by_number::{at_number, put_at};
use crate::clauses::resolved::Resolved;
use crate::facts::Assigned;
use snl_cut::OutOfMemory;
use snl_summary::{ClauseKind, Coverage};
use std::alloc::Global;

/// What a clause that assigns says of its variable.
fn assigned_as(coverage: Coverage) -> Assigned
    ensures { result ≡ assigned_as coverage }
{
    match coverage {
        Coverage::Whole => Assigned::Whole,
        Coverage::Element(_) | Coverage::Front(_) => Assigned::Elements,
    }
}

pub(crate) fn is_assign(kind: ClauseKind) -> bool
    ensures { result ≡ is_assign kind }
{
    matches!(kind, ClauseKind::Assign)
}

// Whether a clause of a kind is the first that assigns the declaration with a number.
fn is_first(assigned: &[Option<Assigned>], variable: usize, kind: ClauseKind) -> bool
    ensures { result ≡ (is_assign kind && is_none (at_number assigned.now variable)) }
{
    is_assign(kind) && at_number(assigned, variable).is_none()
}

// Notes a clause, where it is the first that assigns its variable.
fn note(assigned: &mut Vec<Option<Assigned>>, clause: Resolved) -> Result<(), OutOfMemory>
    ensures { OnOk result ((cs : List LinkedClause) → Assigns assigned.old.items cs
        → Assigns assigned.new.items (cs ++ linked clause.entry ∷ [])) }
{
    if let Some(variable) = clause.variable {
        if is_first(assigned, variable, clause.clause.kind) {
            put_at(assigned, variable, assigned_as(clause.clause.coverage))?;
        }
    }
    Ok(())
}

/// To what each declaration is assigned that is: the first clause that assigns it decides.
pub(crate) fn assigned_in(
    alloc: Global,
    clauses: &[Resolved],
) -> Result<Vec<Option<Assigned>>, OutOfMemory>
    ensures { IfOk result (λ assigned. Assigns assigned.items (map linked clauses.now)) }
{
    let mut assigned = Vec::new(alloc);
    for clause in clauses {
        note(&mut assigned, *clause)?;
    }
    Ok(assigned)
}
