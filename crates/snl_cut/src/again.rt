//! The recut: what is kept and made of a cut after an edit.

ghost use Rattle.snl_cut.specs.Cut.{Counted, IsCut, IsEdit, IsRecut, after_ticks, last_end, notes_along};
ghost use Rattle.std.specs.Prelude.{◌≡◌, IfOk, length, take};

use crate::kept::{NotedRecut, Recut};
use crate::memory::OutOfMemory;
use crate::places::{count_below, end_of, meeting};
use crate::trait_ends::{Ends, Listed};
use crate::trait_front::{Front, Noting, Plain};
use crate::whole::next_noted;
use crate::work::Count;
use std::alloc::Global;

/// The same as `recut`, where the old ends are kept in another way and the front notes more of each
/// made member. It looks at a few of the old ends, by halving.
pub fn recut_noted<F: Noting, E: Ends>(
    alloc: Global,
    front: &F,
    old_units: &[F::Unit],
    old_ends: &E,
    units: &[F::Unit],
    start: usize,
    old_stop: usize,
    new_stop: usize,
    work: &mut Count,
) -> Result<NotedRecut<F::Note>, OutOfMemory>
    requires old_cut { IsCut F.first_of old_units.now (E.listed old_ends.now) }
    requires edit { IsEdit old_units.now units.now start old_stop new_stop }
    ensures recut { IfOk
        result
        (λ r. IsRecut F.first_of old_units.now (E.listed old_ends.now) units.now start old_stop new_stop r.kept_front r.made.items r.kept_back) }
    ensures notes { IfOk
        result
        (λ r. r.notes.items ≡ notes_along F.note_of units.now (last_end 0 (take r.kept_front (E.listed old_ends.now))) r.made.items) }
    ensures ticks { IfOk result (λ r. work.new ≡ after_ticks work.old (length r.made.items)) }
    ensures counted { Counted work.old work.new }
{
    let count = old_ends.count();
    let last = end_of(old_ends, count);
    let kept_front = count_below(old_ends, start);
    let mut at = end_of(old_ends, kept_front);
    let mut near = kept_front;
    let mut made = Vec::new(alloc);
    let mut notes = Vec::new(alloc);
    loop {
        if let Some(kept) = meeting(old_ends, old_stop, new_stop, at, &mut near) {
            return Ok(NotedRecut {
                kept_front,
                made,
                notes,
                kept_back: count - kept,
            });
        }
        let (end, note) = next_noted(front, units, at, work);
        made.push(end)?;
        notes.push(note)?;
        at = end;
    }
}

/// The same as `recut`, where the old ends are kept in another way. It looks at a few of them, by
/// halving.
pub fn recut_by<F: Front, E: Ends>(
    alloc: Global,
    front: &F,
    old_units: &[F::Unit],
    old_ends: &E,
    units: &[F::Unit],
    start: usize,
    old_stop: usize,
    new_stop: usize,
    work: &mut Count,
) -> Result<Recut, OutOfMemory>
    requires old_cut { IsCut F.first_of old_units.now (E.listed old_ends.now) }
    requires edit { IsEdit old_units.now units.now start old_stop new_stop }
    ensures recut { IfOk
        result
        (λ r. IsRecut F.first_of old_units.now (E.listed old_ends.now) units.now start old_stop new_stop r.kept_front r.made.items r.kept_back) }
    ensures ticks { IfOk result (λ r. work.new ≡ after_ticks work.old (length r.made.items)) }
    ensures counted { Counted work.old work.new }
{
    let noted = recut_noted(
        alloc,
        &Plain { front },
        old_units,
        old_ends,
        units,
        start,
        old_stop,
        new_stop,
        work,
    )?;
    Ok(Recut {
        kept_front: noted.kept_front,
        made: noted.made,
        kept_back: noted.kept_back,
    })
}

/// What is kept and made of the cut of `old_units` for that of `units`, in which the old units from
/// `start` up to
/// `old_stop` were replaced by those from `start` up to `new_stop`.
///
/// Only the fresh members are made: those that end at or after `start` and begin before the first
/// boundary, from the edit on, that both cuts have. It looks at the old ends by halving, and copies
/// none of those that are kept.
pub fn recut<F: Front>(
    alloc: Global,
    front: &F,
    old_units: &[F::Unit],
    old_ends: &[usize],
    units: &[F::Unit],
    start: usize,
    old_stop: usize,
    new_stop: usize,
    work: &mut Count,
) -> Result<Recut, OutOfMemory>
    requires old_cut { IsCut F.first_of old_units.now old_ends.now }
    requires edit { IsEdit old_units.now units.now start old_stop new_stop }
    ensures recut { IfOk
        result
        (λ r. IsRecut F.first_of old_units.now old_ends.now units.now start old_stop new_stop r.kept_front r.made.items r.kept_back) }
    ensures ticks { IfOk result (λ r. work.new ≡ after_ticks work.old (length r.made.items)) }
    ensures counted { Counted work.old work.new }
{
    recut_by(
        alloc,
        front,
        old_units,
        &Listed { ends: old_ends },
        units,
        start,
        old_stop,
        new_stop,
        work,
    )
}
