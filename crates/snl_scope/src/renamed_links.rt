//! The links after an edit by which an item says by other names what the one before it said: the
//! links before the edit and both items come in. Clauses say what they said, and what is found
//! stays, so neither is made anew.

ghost use Rattle.std.specs.Prelude.{◌≡◌, ◌++◌, ◌∷◌, [], ◌+◌, ◌<◌, IfOk, IfSome, IsTrue, Some, drop, length, option_and_then, slice_get, take};
ghost use Rattle.snl_scope.specs.Flags.{flags_of};
ghost use Rattle.snl_scope.specs.Linked.{faults_of, state_of};
ghost use Rattle.snl_scope.specs.Names.{entries, repetitions};
ghost use Rattle.snl_scope.specs.Renamed.{AreNames, AreOffClauses, ClausesAlike, FindsAlike, IsRenamed, NamesAnew, RenamesState, Renames};

use crate::edited_names::EditedNames;
use crate::facts::LinkFault;
use crate::items::linked_items::kinds_after;
use crate::linking::{LinkedNames, linked_names};
use crate::links::{Links, links_of};
use crate::names::scopes::Scopes;
use crate::renamed::Renaming;
use snl_cut::OutOfMemory;
use snl_summary::{ItemKind, Outline, SameValue, Summary, are_same};
use std::alloc::Global;

impl SameValue for LinkFault {
    fn is_same(&self, other: &LinkFault) -> bool {
        self.item == other.item && self.token == other.token && self.code == other.code
    }
}

// Where the name of an item leads from its place, if it has one.
fn led_to(scopes: &Scopes, item: usize, outline: &Outline) -> Option<usize>
    ensures { result ≡ option_and_then (state_of scopes.now item) outline.now.second }
{
    match &outline.second {
        Some(name) => scopes.state_of(item, name.bytes()),
        None => None,
    }
}

// Whether a state goes by an edit from one name to another: each name leads to it on one side of
// the edit, and to no state of its set on the other.
fn names_anew(before: &Scopes, after: &Scopes, item: usize, was: &Outline, is: &Outline) -> bool
    requires { RenamesState was.now is.now }
    ensures { IsTrue result → NamesAnew before.now after.now item was.now is.now }
{
    led_to(before, item, was) == Some(item)
        && led_to(before, item, is).is_none()
        && led_to(after, item, is) == Some(item)
        && led_to(after, item, was).is_none()
}

// Whether no other state of the set has such a name.
fn are_free(
    renaming: Renaming,
    before: &Links,
    after: &Scopes,
    item: usize,
    was: &Outline,
    is: &Outline,
) -> bool
    requires { Renames was.now is.now renaming }
    ensures { IsTrue result
        → IsRenamed before.now.outlines after.now item was.now is.now renaming }
{
    match renaming {
        Renaming::Declared => true,
        Renaming::State => names_anew(&before.scopes, after, item, was, is),
    }
}

// Whether no clause is on such a name.
fn are_off_clauses(before: &Links, renaming: Renaming, names: &EditedNames) -> bool
    ensures { IsTrue result → AreOffClauses renaming names.now before.now.outlines }
{
    match renaming {
        Renaming::Declared => !before.scopes.outlines.some_is_on(names),
        Renaming::State => true,
    }
}

// Whether the names leave what goes by the first of each: event flags, and names that came again.
fn leave_the_rest(before: &Links, names: &LinkedNames) -> bool
    requires flags { names.now.flags.items ≡ flags_of names.now.scopes }
    requires repeated { names.now.repeated.items ≡ repetitions [] (entries names.now.scopes) }
    ensures flags { IsTrue result → flags_of names.now.scopes ≡ flags_of before.now.outlines }
    ensures repeated { IsTrue result → repetitions [] (entries names.now.scopes)
        ≡ repetitions [] (entries before.now.outlines) }
{
    are_same(names.flags.as_slice(), before.flags.as_slice())
        && are_same(names.repeated.as_slice(), before.repeated.as_slice())
}

// The same list once more.
fn copied<T: Copy + Drop>(alloc: Global, list: &[T]) -> Result<Vec<T>, OutOfMemory>
    ensures { IfOk result (λ v. v.items ≡ list.now) }
{
    let mut copy = Vec::new(alloc);
    copy.extend_from_slice(list)?;
    Ok(copy)
}

// The links with other names, where all else that they hold stays.
fn with_names(
    alloc: Global,
    before: &Links,
    names: LinkedNames,
    kinds: Vec<ItemKind>,
) -> Result<Links, OutOfMemory>
    requires flags { names.flags.items ≡ flags_of names.scopes }
    requires repeated { names.repeated.items ≡ repetitions [] (entries names.scopes) }
    requires same_repeated { repetitions [] (entries names.scopes)
        ≡ repetitions [] (entries before.now.outlines) }
    requires found { FindsAlike before.now.outlines names.scopes }
    requires kinds { kinds.items ≡ before.now.kinds }
    ensures links { IfOk result (λ l. l ≡ record { outlines = names.scopes; kinds = kinds.items }) }
    ensures faults { IfOk result (λ l. faults_of l ≡ faults_of before.now) }
{
    let said = before.said.clone()?;
    let faults = copied(alloc, before.faults())?;
    Ok(links_of(kinds, names, said, faults))
}

// Whether an item is of the kind that it was, and begins with the same word.
fn stays_of_its_kind(before: &Links, item: usize, was: &Outline, made: &Summary) -> bool
    ensures kind { IsTrue result → slice_get before.now.kinds item ≡ Some made.now.kind }
    ensures word { IsTrue result → made.now.outline.opening ≡ was.now.opening }
{
    before.kinds.get(item) == Some(&made.kind) && made.outline.opening == was.opening
}

// What the names of all items mean after the edit.
fn names_after(
    alloc: Global,
    before: &Links,
    item: usize,
    made: &Summary,
) -> Result<LinkedNames, OutOfMemory>
    requires { item < length before.now.outlines }
    ensures scopes { IfOk result (λ n. n.scopes ≡ take item before.now.outlines
        ++ (made.now.outline ∷ drop (item + 1) before.now.outlines)) }
    ensures flags { IfOk result (λ n. n.flags.items ≡ flags_of n.scopes) }
    ensures repeated { IfOk result (λ n. n.repeated.items ≡ repetitions [] (entries n.scopes)) }
{
    let outlines = before
        .scopes
        .outlines
        .after(alloc, item, item + 1, &[made])?;
    linked_names(alloc, outlines)
}

/// The links after an edit by which an item says by other names what the one before it said. `names`
/// are these names. There are none where a clause or another state has one of the names, where the
/// item is of another kind, or where event flags or what is found would be others.
pub fn link_renamed(
    alloc: Global,
    before: &Links,
    item: usize,
    was: &Outline,
    made: &Summary,
    renaming: Renaming,
    names: &EditedNames,
) -> Result<Option<Links>, OutOfMemory>
    requires was { slice_get before.now.outlines item ≡ Some was.now }
    requires kinds { length before.now.kinds ≡ length before.now.outlines }
    requires renames { Renames was.now made.now.outline renaming }
    requires names { AreNames was.now made.now.outline renaming names.now }
    ensures links { IfOk result (λ o. IfSome o (λ l. l ≡ record {
      outlines = take item before.now.outlines
          ++ (made.now.outline ∷ drop (item + 1) before.now.outlines);
      kinds = take item before.now.kinds ++ (made.now.kind ∷ drop (item + 1) before.now.kinds);
    })) }
    ensures faults { IfOk result (λ o. IfSome o (λ l. faults_of l ≡ faults_of before.now)) }
    ensures clauses { IfOk result
        (λ o. IfSome o (λ l. ClausesAlike before.now.outlines l.outlines)) }
    ensures renamed { IfOk result (λ o. IfSome o
        (λ l. IsRenamed before.now.outlines l.outlines item was.now made.now.outline renaming)) }
{
    if !stays_of_its_kind(before, item, was, made) || !are_off_clauses(before, renaming, names) {
        return Ok(None);
    }
    let after = names_after(alloc, before, item, made)?;
    let is = &made.outline;
    if !leave_the_rest(before, &after)
        || !are_free(renaming, before, &after.scopes, item, was, is)
    {
        return Ok(None);
    }
    let kinds = kinds_after(alloc, &before.kinds, item, item + 1, &[made])?;
    let links = with_names(alloc, before, after, kinds)?;
    Ok(Some(links))
}
