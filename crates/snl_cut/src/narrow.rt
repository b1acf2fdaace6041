//! The recut of a list whose places have four bytes each.

ghost use Rattle.snl_cut.specs.Cut.{Counted, IsCut, IsEdit, IsRecut, after_ticks, last_end, notes_along};
ghost use Rattle.std.specs.Prelude.{◌≡◌, ◌^◌, ◌<◌, IfOk, length, take};

use crate::kept::NarrowRecut;
use crate::memory::OutOfMemory;
use crate::places::{count_below, end_of, meeting};
use crate::trait_ends::Ends;
use crate::trait_front::Noting;
use crate::whole::next_noted;
use crate::work::Count;
use std::alloc::Global;

/// The same as `recut_noted`, with four bytes for each end that is made: there are fewer than 2^32
/// units.
pub fn recut_narrow<F: Noting, E: Ends>(
    alloc: Global,
    front: &F,
    old_units: &[F::Unit],
    old_ends: &E,
    units: &[F::Unit],
    start: usize,
    old_stop: usize,
    new_stop: usize,
    work: &mut Count,
) -> Result<NarrowRecut<F::Note>, OutOfMemory>
    requires old_cut { IsCut F.first_of old_units.now (E.listed old_ends.now) }
    requires edit { IsEdit old_units.now units.now start old_stop new_stop }
    requires short { length units.now < 2 ^ 32 }
    ensures recut { IfOk
        result
        (λ r. IsRecut F.first_of old_units.now (E.listed old_ends.now) units.now start old_stop new_stop r.kept_front r.made.items r.kept_back) }
    ensures notes { IfOk
        result
        (λ r. r.notes.items ≡ notes_along F.note_of units.now (last_end 0 (take r.kept_front (E.listed old_ends.now))) r.made.items) }
    ensures ticks { IfOk result (λ r. work.new ≡ after_ticks work.old (length r.made.items)) }
    ensures counted { Counted work.old work.new }
{
    let count = old_ends.count();
    let last = end_of(old_ends, count);
    let kept_front = count_below(old_ends, start);
    let mut at = end_of(old_ends, kept_front);
    let mut near = kept_front;
    let mut made = Vec::new(alloc);
    let mut notes = Vec::new(alloc);
    loop {
        if let Some(kept) = meeting(old_ends, old_stop, new_stop, at, &mut near) {
            return Ok(NarrowRecut {
                kept_front,
                made,
                notes,
                kept_back: count - kept,
            });
        }
        let (end, note) = next_noted(front, units, at, work);
        made.push(end as u32)?;
        notes.push(note)?;
        at = end;
    }
}
