//! The names that the items of an edit speak of to the others: the outlines of those that it
//! replaces and of those that it makes come in, and whether another item uses one of their names
//! goes out. An item that uses none sees after the edit what it saw.

ghost use Rattle.std.specs.Prelude.{◌≡◌, ◌++◌, false, IfOk, IfSome, IsTrue, List, ℕ, OnOk, bytes_eq, map, option_to_list};
ghost use Rattle.std.specs.List.{list_any};
ghost use Rattle.snl_scope.specs.Linked.{fact_of, has_target};
ghost use Rattle.snl_scope.specs.Places.{enclosing_set};
ghost use Rattle.snl_scope.specs.Renamed.{AreNames, state_names};
ghost use Rattle.snl_scope.specs.Spoken.{AreEditedNames, KeepsViews, bound, bounds, is_among, spoken, spoken_by, touches};
ghost use Rattle.snl_summary.specs.declared.summary.Outline.{Outline};

use crate::renamed::Renaming;
use snl_cut::OutOfMemory;
use snl_facts::are_same_bytes;
use snl_summary::{Declared, Name, NameRef, Outline, Role, Summary, VariableClause};
use std::alloc::Global;
use std::marker::Model;

/// With more names than these it takes as long to compare them as to look names up.
const MANY: usize = 8;

/// The names that the items of an edit speak of, which contracts see as their list.
#[derive(Drop)]
pub struct EditedNames<'a> {
    names: Vec<&'a [u8]>,
}

impl<'a> Model for EditedNames<'a> {
    ghost use Rattle.std.specs.Prelude.{ℕ, List, map};

    ghost Value = { List (List ℕ) };

    ghost view = { λ a. map (λ n. n.now) a.names.items };
}

// What a role is to the places of other items.
fn bound(role: Role) -> Role
    ensures { result ≡ bound role }
{
    match role {
        Role::State => Role::Other,
        other => other,
    }
}

// Whether items bound the same state sets as others do in their place, one by one.
fn bound_the_same(old: &[&Outline], new: &[&Outline]) -> bool
    ensures { IsTrue result
        → bounds (map (λ s. s.now) old.now) ≡ bounds (map (λ s. s.now) new.now) }
{
    if old.len() != new.len() {
        return false;
    }
    for number in 0..old.len() {
        if bound(old[number].role) != bound(new[number].role) {
            return false;
        }
    }
    true
}

fn add_declared<'a>(declares: &'a [Declared], names: &mut Vec<&'a [u8]>) -> Result<(), OutOfMemory>
    ensures { OnOk result (map (λ n. n.now) names.new.items ≡ map (λ n. n.now) names.old.items
        ++ map (λ d. d.name) declares.now) }
{
    for declared in declares {
        names.push(declared.name.bytes())?;
    }
    Ok(())
}

fn add_clauses<'a>(
    clauses: &'a [VariableClause],
    names: &mut Vec<&'a [u8]>,
) -> Result<(), OutOfMemory>
    ensures { OnOk result (map (λ n. n.now) names.new.items ≡ map (λ n. n.now) names.old.items
        ++ map (λ c. c.variable.name) clauses.now) }
{
    for clause in clauses {
        names.push(clause.variable.name.bytes())?;
    }
    Ok(())
}

// Adds the name of an item, if it has one.
fn add_second<'a>(outline: &'a Outline, names: &mut Vec<&'a [u8]>) -> Result<(), OutOfMemory>
    ensures { OnOk result (map (λ n. n.now) names.new.items ≡ map (λ n. n.now) names.old.items
        ++ option_to_list outline.now.second) }
{
    if let Some(second) = &outline.second {
        names.push(second.bytes())?;
    }
    Ok(())
}

// Adds the names that an item speaks of.
fn add_spoken<'a>(outline: &'a Outline, names: &mut Vec<&'a [u8]>) -> Result<(), OutOfMemory>
    ensures { OnOk result (map (λ n. n.now) names.new.items ≡ map (λ n. n.now) names.old.items
        ++ spoken outline.now) }
{
    add_declared(outline.declares.as_slice(), names)?;
    add_clauses(outline.clauses.as_slice(), names)?;
    add_second(outline, names)
}

fn add_spoken_by<'a>(outlines: &[&'a Outline], names: &mut Vec<&'a [u8]>) -> Result<(), OutOfMemory>
    ensures { OnOk result (map (λ n. n.now) names.new.items ≡ map (λ n. n.now) names.old.items
        ++ spoken_by (map (λ s. s.now) outlines.now)) }
{
    for outline in outlines {
        add_spoken(outline, names)?;
    }
    Ok(())
}

fn has_equal(names: &[&[u8]], name: &[u8]) -> bool
    ensures { result ≡ list_any (λ n. bytes_eq name.now n.now) names.now }
{
    names.iter().any(|one| are_same_bytes(name, one))
}

fn is_among(names: &[&[u8]], name: &[u8]) -> bool
    ensures { result ≡ is_among (map (λ n. n.now) names.now) name.now }
{
    has_equal(names, name)
}

impl<'a> EditedNames<'a> {
    /// The names that the items of an edit speak of, those that it replaces and those that it
    /// makes, if they are few and both bound the same state sets.
    pub fn of(
        alloc: Global,
        old: &[&'a Outline],
        new: &[&'a Outline],
    ) -> Result<Option<EditedNames<'a>>, OutOfMemory>
        ensures { IfOk result (λ edited. IfSome edited
            (AreEditedNames (map (λ s. s.now) old.now) (map (λ s. s.now) new.now))) }
    {
        if !bound_the_same(old, new) {
            return Ok(None);
        }
        let mut names = Vec::new(alloc);
        add_spoken_by(old, &mut names)?;
        add_spoken_by(new, &mut names)?;
        if names.len() > MANY {
            return Ok(None);
        }
        Ok(Some(EditedNames { names }))
    }

    // The names of a state before an edit and after it.
    fn of_state(
        alloc: Global,
        was: &'a Outline,
        is: &'a Outline,
    ) -> Result<EditedNames<'a>, OutOfMemory>
        ensures { IfOk result (λ edited. edited ≡ state_names was.now is.now) }
    {
        let mut names = Vec::new(alloc);
        add_second(was, &mut names)?;
        add_second(is, &mut names)?;
        Ok(EditedNames { names })
    }

    /// The names by which an item says what the one before it said by other names, if they are few.
    pub fn of_renaming(
        alloc: Global,
        was: &'a Outline,
        is: &'a Outline,
        renaming: Renaming,
    ) -> Result<Option<EditedNames<'a>>, OutOfMemory>
        ensures { IfOk result (λ o. IfSome o (AreNames was.now is.now renaming)) }
    {
        match renaming {
            Renaming::Declared => EditedNames::of(alloc, &[was], &[is]),
            Renaming::State => {
                let names = EditedNames::of_state(alloc, was, is)?;
                Ok(Some(names))
            }
        }
    }

    /// Whether a name is among them.
    pub(crate) fn have(&self, name: &[u8]) -> bool
        ensures { result ≡ is_among self.now name.now }
    {
        is_among(&self.names, name)
    }

    fn has_some_of(&self, uses: &[Name]) -> bool
        ensures { result ≡ list_any (is_among self.now) uses.now }
    {
        uses.iter().any(|name| is_among(&self.names, name.bytes()))
    }

    fn has_target_of(&self, targets: &[NameRef]) -> bool
        ensures { result ≡ list_any (λ t. is_among self.now t.name) targets.now }
    {
        targets
            .iter()
            .any(|target| is_among(&self.names, target.name.bytes()))
    }

    /// Whether an item uses one of the names, or has it as a target.
    pub fn touch(&self, summary: &Summary) -> bool
        ensures { result ≡ touches self.now summary.now }
    {
        self.has_some_of(summary.uses.as_slice()) || self.has_target_of(summary.targets.as_slice())
    }
}

/// Where some items take the place of others and both bound the same state sets, each item stays in
/// its state set, and a name that none of them speaks of means what it meant. A function here does
/// nothing: its contract is the law.
pub fn unspoken_names()
    ensures places { (before old new after : List Outline) → bounds old ≡ bounds new
        → (i : ℕ) → enclosing_set (before ++ (old ++ after)) i ≡ enclosing_set (before ++ (new ++ after)) i }
    ensures facts { (before old new after : List Outline) → bounds old ≡ bounds new
        → (name : List ℕ) → is_among (spoken_by old ++ spoken_by new) name ≡ false
        → (i : ℕ) → fact_of (before ++ (old ++ after)) i name ≡ fact_of (before ++ (new ++ after)) i name }
    ensures targets { (before old new after : List Outline) → bounds old ≡ bounds new
        → (name : List ℕ) → is_among (spoken_by old ++ spoken_by new) name ≡ false
        → (i : ℕ) → has_target (before ++ (old ++ after)) i name
        ≡ has_target (before ++ (new ++ after)) i name }
    ensures views { (before old new after : List Outline) (names : List (List ℕ))
        → AreEditedNames old new names
        → KeepsViews (before ++ (old ++ after)) (before ++ (new ++ after)) names }
{}
