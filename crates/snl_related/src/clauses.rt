//! The clause that a repeated one repeats.

ghost use Rattle.std.specs.Prelude.{◌≡◌, find, option_copied};
ghost use Rattle.snl_scope.specs.Clauses.{overlaps, same_kind, same_number};
ghost use Rattle.snl_related.specs.Related.{clashes, earlier_clause, is_clause_at};

use snl_questions::TokenPlace;
use snl_scope::{ClauseKind, ClauseLink, Coverage};

// `sync` and `syncq` are of one kind here.
fn same_kind(one: ClauseKind, other: ClauseKind) -> bool
    ensures { result ≡ same_kind one other }
{
    match one {
        ClauseKind::Assign => matches!(other, ClauseKind::Assign),
        ClauseKind::Monitor => matches!(other, ClauseKind::Monitor),
        ClauseKind::Sync | ClauseKind::Syncq => {
            matches!(other, ClauseKind::Sync | ClauseKind::Syncq)
        }
    }
}

fn same_number(one: Option<usize>, other: Option<usize>) -> bool
    ensures { result ≡ same_number one other }
{
    match (one, other) {
        (Some(one), Some(other)) => one == other,
        _ => false,
    }
}

// Whether two clauses cover a common element, or one of them the whole.
fn overlaps(one: Coverage, other: Coverage) -> bool
    ensures { result ≡ overlaps one other }
{
    match (one, other) {
        (Coverage::Whole, _) | (_, Coverage::Whole) => true,
        (Coverage::Element(one), Coverage::Element(other)) => one == other,
        (Coverage::Element(element), Coverage::Front(count))
        | (Coverage::Front(count), Coverage::Element(element)) => element < count as u64,
        (Coverage::Front(one), Coverage::Front(other)) => 0 < one && 0 < other,
    }
}

fn is_clause_at(place: TokenPlace, clause: &ClauseLink) -> bool
    ensures { result ≡ is_clause_at place clause.now }
{
    clause.item == place.item && clause.token == place.token
}

// Whether a sound clause speaks of the same as another one.
fn clashes(clause: &ClauseLink, earlier: &ClauseLink) -> bool
    ensures { result ≡ clashes clause.now earlier.now }
{
    earlier.is_sound
        && same_kind(clause.kind, earlier.kind)
        && same_number(clause.variable, earlier.variable)
        && overlaps(clause.coverage, earlier.coverage)
}

fn clause_at(clauses: &[ClauseLink], place: TokenPlace) -> Option<&ClauseLink>
    ensures { option_copied result ≡ find (is_clause_at place) clauses.now }
{
    clauses.iter().find(|clause| is_clause_at(place, clause))
}

fn first_like<'a>(clauses: &'a [ClauseLink], clause: &ClauseLink) -> Option<&'a ClauseLink>
    ensures { option_copied result ≡ find (clashes clause.now) clauses.now }
{
    clauses.iter().find(|earlier| clashes(clause, earlier))
}

/// The first sound clause that speaks of the same as the one whose variable is named at a place.
pub fn earlier_clause(clauses: &[ClauseLink], place: TokenPlace) -> Option<ClauseLink>
    ensures { result ≡ earlier_clause clauses.now place }
{
    let clause = clause_at(clauses, place)?;
    let earlier = first_like(clauses, clause)?;
    Some(*earlier)
}
