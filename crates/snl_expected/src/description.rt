//! What may come, in few words: many kinds by one word, where all of them may come, and the others
//! one by one.

ghost use Rattle.std.specs.Prelude.{◌≡◌, IfOk};
ghost use Rattle.std.specs.List.{list_any};
ghost use Rattle.snl_expected.specs.Groups.{has, is_new, groups_named, is_covered, is_group_named, kinds_named, described, description_of};

use crate::groups::{GROUPS, Group};
use snl_cut::OutOfMemory;
use snl_syntax::Kind;
use std::alloc::Global;

/// What is expected: groups, and kinds that none of these stands for.
#[derive(Drop)]
pub struct Description {
    pub groups: Vec<Group>,
    pub kinds: Vec<Kind>,
}

fn is_covered(groups: &[Group], kind: Kind) -> bool
    ensures { result ≡ is_covered groups.now kind }
{
    groups.iter().any(|group| group.has(kind))
}

fn has_any(group: Group, kinds: &[Kind]) -> bool
    ensures { result ≡ list_any (has group) kinds.now }
{
    kinds.iter().any(|kind| group.has(*kind))
}

// Whether a group has a kind that none before it has.
fn has_more(group: Group, before: &[Group], kinds: &[Kind]) -> bool
    ensures { result ≡ list_any (is_new before.now group) kinds.now }
{
    kinds
        .iter()
        .any(|kind| group.has(*kind) && !is_covered(before, *kind))
}

fn is_group_named(expected: &[Kind], others: &[Kind], before: &[Group], group: Group) -> bool
    ensures { result ≡ is_group_named expected.now others.now before.now group }
{
    !has_any(group, others) && has_more(group, before, expected)
}

fn groups_named(
    alloc: Global,
    expected: &[Kind],
    others: &[Kind],
) -> Result<Vec<Group>, OutOfMemory>
    ensures { IfOk result (λ groups. groups.items ≡ groups_named expected.now others.now) }
{
    let mut groups = Vec::new(alloc);
    for group in GROUPS {
        if is_group_named(expected, others, &groups, *group) {
            groups.push(*group)?;
        }
    }
    Ok(groups)
}

fn kinds_named(alloc: Global, groups: &[Group], expected: &[Kind]) -> Result<Vec<Kind>, OutOfMemory>
    ensures { IfOk result (λ kinds. kinds.items ≡ kinds_named groups.now expected.now) }
{
    let mut kinds = Vec::new(alloc);
    for kind in expected {
        if !is_covered(groups, *kind) {
            kinds.push(*kind)?;
        }
    }
    Ok(kinds)
}

/// What is expected in few words, where tokens of some kinds may come, and of others may not.
pub fn describe(
    alloc: Global,
    expected: &[Kind],
    others: &[Kind],
) -> Result<Description, OutOfMemory>
    ensures { IfOk result (λ d. described d ≡ description_of expected.now others.now) }
{
    let groups = groups_named(alloc, expected, others)?;
    let kinds = kinds_named(alloc, &groups, expected)?;
    Ok(Description { groups, kinds })
}
