//! What sound clauses claim of variables: a clause comes in, and whether it overlaps an earlier one
//! goes out, and which was the first to speak of a channel.

ghost use Rattle.std.specs.Prelude.{◌≡◌, ◌&&◌, nat_eq, if◌then◌else◌, IfOk, None, OnOk, Some};
ghost use Rattle.std.specs.Map.{lookup};
ghost use Rattle.std.specs.Option.{option_or};
ghost use Rattle.snl_scope.specs.Below.{any_below};
ghost use Rattle.snl_scope.specs.Claims.{Adds, AddsOn, KeepsExtents, claim_in, claim_number, claims, extents_for, extents_on, first_clause, has_claim, lesser, overlaps_claims, place_of, purpose_of, same_claim, same_purpose, with_extent, with_extents};
ghost use Rattle.snl_scope.specs.Hashed.{claim_fed, extent_number, purpose_number, same_claim_fed};
ghost use Rattle.snl_scope.specs.declared.clauses.clause_index.Claim.{Claim};
ghost use Rattle.snl_scope.specs.declared.clauses.clause_index.Extent.{Extent};
ghost use Rattle.snl_scope.specs.declared.clauses.clause_index.Extent.TheVariants as extent;

use crate::by_number::{at_number, put_at};
use snl_cut::OutOfMemory;
use snl_numbers::NumbersByKey;
use snl_summary::{ClauseKind, Coverage};
use std::alloc::Global;
use std::hash::{Hash, Hasher};

/// What a clause is for. `sync` and `syncq` have one purpose.
#[derive(Clone, Copy, PartialEq, Eq, PartialOrd, Ord)]
pub(crate) enum Purpose {
    Assign,
    Monitor,
    Sync,
}

/// How much of a variable is claimed.
#[derive(Clone, Copy, PartialEq, Eq, PartialOrd, Ord)]
pub(crate) enum Extent {
    /// Anything at all, be it no element.
    Any,
    /// The whole variable, or all its elements.
    Whole,
    /// The element with this number.
    Element(u64),
}

/// A claim on the variable with a number.
#[derive(Clone, Copy, PartialEq, Eq, PartialOrd, Ord)]
pub(crate) struct Claim {
    pub purpose: Purpose,
    pub variable: usize,
    pub extent: Extent,
}

fn purpose_number(purpose: Purpose) -> u8
    ensures { result ≡ purpose_number purpose }
{
    match purpose {
        Purpose::Assign => 0,
        Purpose::Monitor => 1,
        Purpose::Sync => 2,
    }
}

fn extent_number(extent: Extent) -> u64
    ensures { result ≡ extent_number extent }
{
    match extent {
        Extent::Any => u64::MAX,
        Extent::Whole => u64::MAX - 1,
        Extent::Element(number) => number,
    }
}

// Each number has a write of its own: in one write of both, an element could be chosen that gives
// all variables one hash.
impl Hash for Claim {
    ghost hash_input = { claim_fed };

    ghost respects_eq = { same_claim_fed };

    fn hash<H: Hasher>(&self, state: &mut H) {
        state.write_u8(purpose_number(self.purpose));
        state.write_usize(self.variable);
        state.write_u64(extent_number(self.extent));
    }
}

pub(crate) fn purpose_of(kind: ClauseKind) -> Purpose
    ensures { result ≡ purpose_of kind }
{
    match kind {
        ClauseKind::Assign => Purpose::Assign,
        ClauseKind::Monitor => Purpose::Monitor,
        ClauseKind::Sync | ClauseKind::Syncq => Purpose::Sync,
    }
}

// The lesser of two numbers, where there are two.
fn lesser(first: Option<usize>, second: Option<usize>) -> Option<usize>
    ensures { result ≡ lesser first second }
{
    match (first, second) {
        (Some(a), Some(b)) => Some(if b < a { b } else { a }),
        (Some(a), None) => Some(a),
        (None, b) => b,
    }
}

/// What is claimed of a variable for a purpose, but for its elements, by the numbers of the first
/// clauses that do.
#[derive(Clone, Copy)]
pub(crate) struct Extents {
    pub any: Option<usize>,
    pub whole: Option<usize>,
}

/// What is claimed of a variable, but for its elements.
#[derive(Clone, Copy)]
pub(crate) struct VariableClaims {
    pub variable: usize,
    pub assign: Extents,
    pub monitor: Extents,
    pub sync: Extents,
}

/// The claims of clauses, each with the number of the first that makes it. Only those on elements
/// are sought in a table.
pub(crate) struct ClauseIndex {
    // for each variable its place among those that are claimed
    pub places: Vec<Option<usize>>,
    pub claimed: Vec<VariableClaims>,
    pub elements: NumbersByKey<Claim>,
}

// By hand, so that whoever holds claims need not know how they are held to let them go.
impl Drop for ClauseIndex {
    fn drop(self) {
        let ClauseIndex {
            places: _,
            claimed: _,
            elements: _,
        } = self;
    }
}

const NO_EXTENTS: Extents = Extents {
    any: None,
    whole: None,
};

fn extents_for(claims: VariableClaims, purpose: Purpose) -> Extents
    ensures { result ≡ extents_for claims purpose }
{
    match purpose {
        Purpose::Assign => claims.assign,
        Purpose::Monitor => claims.monitor,
        Purpose::Sync => claims.sync,
    }
}

fn with_extents(claims: VariableClaims, purpose: Purpose, extents: Extents) -> VariableClaims
    ensures { result ≡ with_extents claims purpose extents }
{
    let mut claims = claims;
    match purpose {
        Purpose::Assign => claims.assign = extents,
        Purpose::Monitor => claims.monitor = extents,
        Purpose::Sync => claims.sync = extents,
    }
    claims
}

// What is claimed with one claim more, which an earlier one of the same stays before.
fn with_extent(extents: Extents, extent: Extent, number: usize) -> Extents
    ensures { result ≡ with_extent extents extent number }
{
    let Extents { any, whole } = extents;
    match extent {
        Extent::Any => Extents {
            any: any.or(Some(number)),
            whole,
        },
        Extent::Whole => Extents {
            any,
            whole: whole.or(Some(number)),
        },
        Extent::Element(_) => extents,
    }
}

// The place of a variable among those that are claimed, if it is one of them.
fn place_of(places: &[Option<usize>], claimed: &[VariableClaims], variable: usize) -> Option<usize>
    ensures { result ≡ place_of places.now claimed.now variable }
{
    let place = at_number(places, variable)?;
    if claimed.get(place)?.variable == variable {
        Some(place)
    } else {
        None
    }
}

// Adds the number of the first clause that makes a claim on an element.
fn add_element(
    elements: &mut NumbersByKey<Claim>,
    claim: Claim,
    number: usize,
) -> Result<(), OutOfMemory>
    ensures { OnOk result ((m : Claim) → lookup (same_claim m) elements.new
        ≡ option_or (lookup (same_claim m) elements.old)
        (if same_claim claim m then Some number else None)) }
{
    elements.add_first(claim, number)?;
    Ok(())
}

impl ClauseIndex {
    /// No claims, with room for those on so many variables, whose numbers are below another one.
    pub(crate) fn with_room(
        alloc: Global,
        claimed: usize,
        below: usize,
    ) -> Result<ClauseIndex, OutOfMemory>
        ensures { IfOk result (λ index. (m : Claim) → claim_in index m ≡ None) }
    {
        Ok(ClauseIndex {
            places: Vec::with_capacity(alloc, below)?,
            claimed: Vec::with_capacity(alloc, claimed)?,
            elements: NumbersByKey::new(alloc),
        })
    }

    // What is claimed of a variable for a purpose, but for its elements.
    fn extents(&self, purpose: Purpose, variable: usize) -> Extents
        ensures { result
            ≡ extents_on self.now.places.items self.now.claimed.items variable purpose }
    {
        match place_of(&self.places, &self.claimed, variable) {
            Some(place) => extents_for(self.claimed[place], purpose),
            None => NO_EXTENTS,
        }
    }

    // The number of the first clause that makes the claim.
    fn number(&self, purpose: Purpose, variable: usize, extent: Extent) -> Option<usize>
        ensures { result ≡ claim_number self.now purpose variable extent }
    {
        match extent {
            Extent::Any => self.extents(purpose, variable).any,
            Extent::Whole => self.extents(purpose, variable).whole,
            Extent::Element(_) => {
                let claim = Claim {
                    purpose,
                    variable,
                    extent,
                };
                self.elements.get(&claim)
            }
        }
    }

    fn has(&self, purpose: Purpose, variable: usize, extent: Extent) -> bool
        ensures { result ≡ has_claim self.now purpose variable extent }
    {
        self.number(purpose, variable, extent).is_some()
    }

    // Whether one of the first elements is claimed.
    fn has_front(&self, purpose: Purpose, variable: usize, length: usize) -> bool
        ensures { result
            ≡ any_below (λ k. has_claim self.now purpose variable (Extent.Element k)) length }
    {
        for element in 0..length {
            if self.has(purpose, variable, Extent::Element(element as u64)) {
                return true;
            }
        }
        false
    }

    /// Whether a clause overlaps one that made its claims.
    pub(crate) fn overlap(&self, purpose: Purpose, variable: usize, coverage: Coverage) -> bool
        ensures { result ≡ overlaps_claims self.now purpose variable coverage }
    {
        match coverage {
            Coverage::Whole => self.has(purpose, variable, Extent::Any),
            Coverage::Element(number) => {
                self.has(purpose, variable, Extent::Whole)
                    || self.has(purpose, variable, Extent::Element(number))
            }
            Coverage::Front(length) => {
                self.has(purpose, variable, Extent::Whole)
                    || self.has_front(purpose, variable, length)
            }
        }
    }

    /// The number of the first clause that speaks of the channel of an element, or of that of the
    /// whole variable.
    pub(crate) fn first_clause(
        &self,
        purpose: Purpose,
        variable: usize,
        element: Option<u64>,
    ) -> Option<usize>
        ensures { result ≡ first_clause self.now purpose variable element }
    {
        match element {
            Some(element) => lesser(
                self.number(purpose, variable, Extent::Whole),
                self.number(purpose, variable, Extent::Element(element)),
            ),
            None => self.number(purpose, variable, Extent::Any),
        }
    }

    // The place of a variable among those that are claimed, which it gets if it has none.
    fn claim(&mut self, variable: usize) -> Result<usize, OutOfMemory>
        ensures same { OnOk result (KeepsExtents self.old self.new) }
        ensures elements { OnOk result (self.new.elements ≡ self.old.elements) }
        ensures place { IfOk result
            (λ place.
            place_of self.new.places.items self.new.claimed.items variable ≡ Some place) }
    {
        if let Some(place) = place_of(&self.places, &self.claimed, variable) {
            return Ok(place);
        }
        let place = self.claimed.len();
        self.claimed.reserve(1)?;
        put_at(&mut self.places, variable, place)?;
        self.claimed.push_reserved(VariableClaims {
            variable,
            assign: NO_EXTENTS,
            monitor: NO_EXTENTS,
            sync: NO_EXTENTS,
        });
        Ok(place)
    }

    // Adds a claim on a variable that is none on an element.
    fn add_on(
        &mut self,
        purpose: Purpose,
        variable: usize,
        extent: Extent,
        number: usize,
    ) -> Result<(), OutOfMemory>
        ensures { OnOk result (AddsOn self.old self.new
            (record { purpose = purpose; variable = variable; extent = extent }) number) }
    {
        let place = self.claim(variable)?;
        let claims = self.claimed[place];
        let extents = with_extent(extents_for(claims, purpose), extent, number);
        self.claimed[place] = with_extents(claims, purpose, extents);
        Ok(())
    }

    // Adds a claim of the clause with a number. One that made it before stays the first.
    fn add(
        &mut self,
        purpose: Purpose,
        variable: usize,
        extent: Extent,
        number: usize,
    ) -> Result<(), OutOfMemory>
        ensures { OnOk result (Adds self.old self.new
            (same_claim (record { purpose = purpose; variable = variable; extent = extent }))
            number) }
    {
        match extent {
            Extent::Any | Extent::Whole => self.add_on(purpose, variable, extent, number),
            Extent::Element(_) => {
                let claim = Claim {
                    purpose,
                    variable,
                    extent,
                };
                add_element(&mut self.elements, claim, number)
            }
        }
    }

    // Claims the first elements.
    fn add_front(
        &mut self,
        purpose: Purpose,
        variable: usize,
        length: usize,
        number: usize,
    ) -> Result<(), OutOfMemory>
        ensures { OnOk result (Adds self.old self.new
            (λ m. any_below (λ k. same_claim (record {
              purpose = purpose;
              variable = variable;
              extent = Extent.Element k;
            }) m) length)
            number) }
    {
        for element in 0..length {
            self.add(purpose, variable, Extent::Element(element as u64), number)?;
        }
        Ok(())
    }

    /// Makes the claims of the clause with a number.
    pub(crate) fn make(
        &mut self,
        purpose: Purpose,
        variable: usize,
        coverage: Coverage,
        number: usize,
    ) -> Result<(), OutOfMemory>
        ensures { OnOk result (Adds self.old self.new
            (λ m. same_purpose purpose m.purpose && nat_eq variable m.variable && claims coverage m.extent) number) }
    {
        self.add(purpose, variable, Extent::Any, number)?;
        match coverage {
            Coverage::Whole => self.add(purpose, variable, Extent::Whole, number),
            Coverage::Element(element) => {
                self.add(purpose, variable, Extent::Element(element), number)
            }
            Coverage::Front(length) => self.add_front(purpose, variable, length, number),
        }
    }
}
