//! The cut of a whole list.

ghost use Rattle.snl_cut.specs.Cut.{Counted, IsCut, after_ticks, ends_of, ticked};
ghost use Rattle.std.specs.Prelude.{◌≡◌, ◌+◌, ◌<◌, ◌≤◌, IfOk, drop, length};

use crate::memory::OutOfMemory;
use crate::trait_front::{Front, Noting};
use crate::work::Count;
use std::alloc::Global;

// Where the member that begins at `at` ends.
pub fn next_end<F: Front>(front: &F, units: &[F::Unit], at: usize, work: &mut Count) -> usize
    requires { at < length units.now }
    ensures end { result ≡ at + F.first_of (drop at units.now) }
    ensures further { at < result }
    ensures inside { result ≤ length units.now }
    ensures ticks { work.new ≡ ticked work.old }
{
    at + front.first(&units[at..], work)
}

// Where the member that begins at `at` ends, and what is noted of it.
pub fn next_noted<F: Noting>(
    front: &F,
    units: &[F::Unit],
    at: usize,
    work: &mut Count,
) -> (usize, F::Note)
    requires { at < length units.now }
    ensures end { result.0 ≡ at + F.first_of (drop at units.now) }
    ensures note { result.1 ≡ F.note_of (drop at units.now) }
    ensures further { at < result.0 }
    ensures inside { result.0 ≤ length units.now }
    ensures ticks { work.new ≡ ticked work.old }
{
    let (length, note) = front.first_noted(&units[at..], work);
    (at + length, note)
}

/// The ends of the members of the cut of `units`, each as a number of units from the front of the
/// list.
pub fn cut_all<F: Front>(
    alloc: Global,
    front: &F,
    units: &[F::Unit],
    work: &mut Count,
) -> Result<Vec<usize>, OutOfMemory>
    ensures cut { IfOk result (λ ends. IsCut F.first_of units.now ends.items) }
    ensures only { IfOk result (λ ends. ends.items ≡ ends_of F.first_of units.now) }
    ensures ticks { IfOk result (λ ends. work.new ≡ after_ticks work.old (length ends.items)) }
    ensures counted { Counted work.old work.new }
{
    let mut ends = Vec::new(alloc);
    let mut at = 0;
    while at < units.len() {
        at = next_end(front, units, at, work);
        ends.push(at)?;
    }
    Ok(ends)
}
