//! Sets of states with those that are reached in them.

ghost use Rattle.std.specs.Prelude.{◌<◌, All, IfOk, length};
ghost use Rattle.snl_check.specs.Reach.{AreStates, target_lists};

use snl_check::reach;
use std::alloc::Global;
use std::test::Fail;

// Those of these targets that are states, among so many.
fn states_of(alloc: Global, targets: &[usize], count: usize) -> Result<Vec<usize>, Fail>
    ensures { IfOk result (λ states. All (λ t. t < count) states.items) }
{
    let mut states = Vec::new(alloc);
    for target in targets {
        if *target < count {
            states.push(*target)?;
        }
    }
    Ok(states)
}

fn set_of(alloc: Global, rows: &[&[usize]]) -> Result<Vec<Vec<usize>>, Fail>
    ensures { IfOk result (λ set. AreStates (target_lists set.items)) }
{
    let mut set = Vec::new(alloc);
    for row in rows {
        set.push(states_of(alloc, row, rows.len())?)?;
    }
    Ok(set)
}

// The targets of each state of a set, and whether it is reached.
static SETS: [(&[&[usize]], &[bool]); 6] = [
    (&[], &[]),
    (&[&[]], &[true]),
    (&[&[], &[0, 1]], &[true, false]),
    (&[&[0, 1], &[]], &[true, true]),
    (
        &[&[3, 3], &[2], &[4, 1], &[5, 0], &[0], &[5]],
        &[true, false, false, true, false, true],
    ),
    (
        &[&[4, 2], &[], &[3], &[1, 2], &[4, 0]],
        &[true, true, true, true, true],
    ),
];

fn reached_in(alloc: Global, rows: &[&[usize]]) -> Result<Vec<bool>, Fail> {
    let set = set_of(alloc, rows)?;
    Ok(reach(alloc, &set)?)
}

#[test]
fn states_that_are_reached(rt: HostRuntime) -> Result<(), Fail> {
    for (set, wanted) in &SETS {
        let reached = reached_in(rt.alloc(), set)?;
        assert!(rt; reached.as_slice() == *wanted, "{set:?} has {reached:?}");
    }
    Ok(())
}
