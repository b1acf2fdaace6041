//! Whether an item declares by other names what the one before it declared, or is a state by
//! another name: two outlines come in. To an item that speaks of none of the names all means what
//! it meant.

ghost use Rattle.std.specs.Prelude.{◌≡◌, ◌∷◌, ◌++◌, [], All, ℕ, IfSome, IsTrue, List, false, length, map, true};
ghost use Rattle.snl_scope.specs.Clauses.{is_event_flag};
ghost use Rattle.snl_scope.specs.Linked.{name_of_state};
ghost use Rattle.snl_scope.specs.Order.{is_state_word};
ghost use Rattle.snl_scope.specs.Renamed.{DeclaresAnew, IsPlain, MeanAlike, NamesAnew, Renames, RenamesState, state_names, unnamed};
ghost use Rattle.snl_scope.specs.Spoken.{KeepsViewsBut, bound, spoken_by};
ghost use Rattle.snl_summary.specs.declared.summary.Outline.{Outline};
ghost use Rattle.snl_summary.specs.declared.summary.Role.TheVariants as roles;

use snl_summary::{Declared, Opening, Outline, Role, SymbolKind, are_same};

// Whether an item bounds no state set, is no state, and has no clauses.
fn is_plain(outline: &Outline) -> bool
    ensures { IsTrue result → IsPlain outline.now }
{
    matches!(outline.role, Role::Other)
        && !matches!(outline.opening, Opening::State)
        && outline.clauses.as_slice().is_empty()
}

// Whether two declarations differ by their names alone, and are of no event flag.
fn is_declared_anew(was: &Declared, is: &Declared) -> bool
    ensures same { IsTrue result → unnamed is.now ≡ unnamed was.now }
    ensures no_flag { IsTrue result → is_event_flag was.now.variable.symbol_kind ≡ false }
{
    is.token == was.token
        && is.variable == was.variable
        && !matches!(was.variable.symbol_kind, SymbolKind::EventFlag)
}

// The same of as many declarations, one by one.
fn are_declared_anew(was: &[Declared], is: &[Declared]) -> bool
    ensures same { IsTrue result → map unnamed is.now ≡ map unnamed was.now }
    ensures no_flag { IsTrue result
        → All (λ d. is_event_flag d.variable.symbol_kind ≡ false) was.now }
{
    if is.len() != was.len() {
        return false;
    }
    for number in 0..was.len() {
        if !is_declared_anew(&was[number], &is[number]) {
            return false;
        }
    }
    true
}

// Whether an item declares what the one before it declared, one by one, if by other names. Neither
// bounds a state set, is a state, or has clauses, and none of the names is that of an event flag.
fn declares_anew(was: &Outline, is: &Outline) -> bool
    ensures { IsTrue result → DeclaresAnew was.now is.now }
{
    is_plain(was)
        && is_plain(is)
        && are_declared_anew(was.declares.as_slice(), is.declares.as_slice())
}

// Whether an item begins as a state does, and has no clauses.
fn is_clauseless_state(outline: &Outline) -> bool
    ensures word { IsTrue result → is_state_word outline.now.opening ≡ true }
    ensures no_clause { IsTrue result → outline.now.clauses ≡ [] }
{
    matches!(outline.opening, Opening::State) && outline.clauses.as_slice().is_empty()
}

// Whether an item bounds no state set.
fn bounds_no_set(role: Role) -> bool
    ensures { IsTrue result → bound role ≡ roles.Other }
{
    matches!(role, Role::State | Role::Other)
}

// Whether an item is a state as the one before it was, if by another name. Both declare the same,
// and have no clauses.
fn renames_state(was: &Outline, is: &Outline) -> bool
    ensures { IsTrue result → RenamesState was.now is.now }
{
    is_clauseless_state(was)
        && is_clauseless_state(is)
        && bounds_no_set(was.role)
        && is.role == was.role
        && are_same(is.declares.as_slice(), was.declares.as_slice())
}

/// How an item says by other names what the one before it said.
#[derive(Clone, Copy, Debug, PartialEq, Eq)]
pub enum Renaming {
    /// It declares by other names what that one declared.
    Declared,
    /// It is a state with another name.
    State,
}

/// How an item says by other names what the one before it said, if it does.
pub fn renaming_of(was: &Outline, is: &Outline) -> Option<Renaming>
    ensures { IfSome result (Renames was.now is.now) }
{
    if declares_anew(was, is) {
        Some(Renaming::Declared)
    } else if renames_state(was, is) {
        Some(Renaming::State)
    } else {
        None
    }
}

/// Where an item declares by other names what the one before it declared, all means to an item that
/// uses none of the names what it meant: names of other declarations, states, places and numbers.
/// All states have the names that they had. A function here does nothing: its contract is the law.
pub fn declared_anew()
    ensures means { (before : List Outline) (old new : Outline) (after : List Outline)
        → DeclaresAnew old new
        → MeanAlike (before ++ (old ∷ after)) (before ++ (new ∷ after))
        (spoken_by (old ∷ []) ++ spoken_by (new ∷ [])) [] }
    ensures names { (before : List Outline) (old new : Outline) (after : List Outline)
        → DeclaresAnew old new → (i : ℕ)
        → name_of_state (before ++ (new ∷ after)) i ≡ name_of_state (before ++ (old ∷ after)) i }
{}

/// Where a state goes from one name to another, and no other state of its set has either, all means
/// to an item that leads to neither what it meant, whatever it uses, and it sees what it saw. Each
/// state is the first of its name if it was.
pub fn named_anew()
    ensures means { (before : List Outline) (old new : Outline) (after : List Outline)
        → NamesAnew (before ++ (old ∷ after)) (before ++ (new ∷ after)) (length before) old new
        → MeanAlike (before ++ (old ∷ after)) (before ++ (new ∷ after)) [] (state_names old new) }
    ensures views { (before : List Outline) (old new : Outline) (after : List Outline)
        → NamesAnew (before ++ (old ∷ after)) (before ++ (new ∷ after)) (length before) old new
        → KeepsViewsBut (before ++ (old ∷ after)) (before ++ (new ∷ after)) []
        (state_names old new) }
{}
