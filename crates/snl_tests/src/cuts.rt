//! The cut and the recut by a small front: what is kept, what is made, and how many members are
//! counted.

ghost use Rattle.snl_tests.specs.Counted.{counted, counted_front, counted_local};
ghost use Rattle.snl_cut.specs.Cut.{IsEdit, ticked};
ghost use Rattle.std.specs.Prelude.{◌≡◌, ◌<◌, drop, length, take, true};

use snl_cut::{Count, Front, cut_all, recut};
use std::alloc::Global;
use std::process::Abort;
use std::test::Fail;

// The first byte of a member says how many more it has.
struct Counted;

impl Front for Counted {
    type Unit = u8;

    ghost first_of = { counted };

    ghost within = { counted_front };

    ghost local = { counted_local };

    fn first(&self, rest: &[u8], work: &mut Count) -> usize {
        work.tick();
        (rest[0] as usize).min(rest.len() - 1) + 1
    }
}

// What a recut answers, and how many members it counted.
#[derive(Drop)]
struct Outcome {
    kept_front: usize,
    made: Vec<usize>,
    kept_back: usize,
    ticks: u64,
}

// The ends of the cut, and how many members were counted, through the front's bound.
fn ends_by<F: Front>(
    alloc: Global,
    front: &F,
    units: &[F::Unit],
) -> Result<(Vec<usize>, u64), Fail> {
    let mut work = Count::new();
    let ends = cut_all(alloc, front, units, &mut work)?;
    Ok((ends, work.ticks()))
}

// The same of a recut.
fn again_by<F: Front>(
    alloc: Global,
    front: &F,
    old: &[F::Unit],
    units: &[F::Unit],
    start: usize,
    old_stop: usize,
    new_stop: usize,
) -> Result<Outcome, Fail>
    requires { IsEdit old.now units.now start old_stop new_stop }
{
    let ends = cut_all(alloc, front, old, &mut Count::new())?;
    let mut work = Count::new();
    let again = recut(
        alloc, front, old, &ends, units, start, old_stop, new_stop, &mut work,
    )?;
    Ok(Outcome {
        kept_front: again.kept_front,
        made: again.made,
        kept_back: again.kept_back,
        ticks: work.ticks(),
    })
}

fn alike(left: &[u8], right: &[u8]) -> bool
    ensures { result ≡ true → left.now ≡ right.now }
{
    left == right
}

// An edit of one list to another, if the first `start` bytes and the last `after` bytes stay.
fn edit(
    alloc: Global,
    old: &[u8],
    new: &[u8],
    start: usize,
    after: usize,
) -> Result<Option<Outcome>, Fail> {
    if start > old.len()
        || start > new.len()
        || after > old.len() - start
        || after > new.len() - start
    {
        return Ok(None);
    }
    let old_stop = old.len() - after;
    let new_stop = new.len() - after;
    let before = alike(&old[..start], &new[..start]);
    let after = alike(&old[old_stop..], &new[new_stop..]);
    if !before || !after {
        return Ok(None);
    }
    Ok(Some(again_by(alloc, &Counted, old, new, start, old_stop, new_stop)?))
}

fn expect_ends(rt: &impl Abort, alloc: Global, units: &[u8], wanted: &[usize]) -> Result<(), Fail> {
    let (ends, ticks) = ends_by(alloc, &Counted, units)?;
    assert!(rt;
        ends.as_slice() == wanted && ticks == wanted.len() as u64,
        "{ends:?}"
    );
    Ok(())
}

#[test]
fn cuts_by_the_count_in_front(rt: HostRuntime) -> Result<(), Fail> {
    expect_ends(&rt, rt.alloc(), &[0, 2, 7, 7, 1, 7, 9, 8], &[1, 4, 6, 8])?;
    expect_ends(&rt, rt.alloc(), &[], &[])
}

// The lists before and after the edit, how many units stay at the front and the back, and what is
// wanted.
struct Case {
    old: &'static [u8],
    new: &'static [u8],
    start: usize,
    after: usize,
    front: usize,
    made: &'static [usize],
    back: usize,
}

static CASES: [Case; 8] = [
    // at the front
    Case {
        old: &[0, 2, 7, 7, 1, 7],
        new: &[1, 0, 2, 7, 7, 1, 7],
        start: 0,
        after: 6,
        front: 0,
        made: &[2],
        back: 2,
    },
    // in the middle: the member that ends just at the edit is made again
    Case {
        old: &[0, 2, 7, 7, 1, 7],
        new: &[0, 2, 7, 7, 0, 1, 7],
        start: 4,
        after: 2,
        front: 1,
        made: &[4, 5],
        back: 1,
    },
    // in the middle of a member
    Case {
        old: &[0, 2, 7, 7, 1, 7],
        new: &[0, 2, 5, 7, 1, 7],
        start: 2,
        after: 3,
        front: 1,
        made: &[4],
        back: 1,
    },
    // at the end
    Case {
        old: &[0, 1, 7],
        new: &[0, 1, 7, 0],
        start: 3,
        after: 0,
        front: 1,
        made: &[3, 4],
        back: 0,
    },
    // of everything, and of nothing
    Case {
        old: &[0, 1, 7],
        new: &[2, 2],
        start: 0,
        after: 0,
        front: 0,
        made: &[2],
        back: 0,
    },
    Case {
        old: &[0, 1, 7, 0],
        new: &[0, 1, 7, 0],
        start: 2,
        after: 2,
        front: 1,
        made: &[3],
        back: 1,
    },
    // one that changes each member after it, to the end
    Case {
        old: &[1, 1, 1, 1, 1, 1],
        new: &[1, 1, 1, 1, 1],
        start: 0,
        after: 5,
        front: 0,
        made: &[2, 4, 5],
        back: 0,
    },
    // from nothing
    Case {
        old: &[],
        new: &[1, 7, 0],
        start: 0,
        after: 0,
        front: 0,
        made: &[2, 3],
        back: 0,
    },
];

fn expect_case(rt: &impl Abort, alloc: Global, case: &Case) -> Result<(), Fail> {
    match edit(alloc, case.old, case.new, case.start, case.after)? {
        Some(outcome) => {
            assert!(rt; outcome.kept_front == case.front && outcome.kept_back == case.back);
            assert!(rt;
                outcome.made.as_slice() == case.made && outcome.ticks == case.made.len() as u64
            );
        }
        None => assert!(rt; false, "no edit"),
    }
    Ok(())
}

#[test]
fn recuts_what_is_fresh(rt: HostRuntime) -> Result<(), Fail> {
    for case in &CASES {
        expect_case(&rt, rt.alloc(), case)?;
    }
    Ok(())
}
