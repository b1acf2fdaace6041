//! The times of keystrokes: a session and keys come in, times go out. After each edit the session's
//! diagnostics and tables are looked at. Times are of the processor, so that other programs of the
//! machine don't lengthen them.

use crate::stop::Stop;
use snl_session::Session;
use std::alloc::Global;
use std::time::CpuClock;

// How many keys are typed, and undone, of each kind at each place.
const KEYS: usize = 200;

/// The times of keystrokes and of their undoing, in nanoseconds, and how many diagnostics and state
/// sets were there after them, all together.
#[derive(Drop)]
pub struct Times {
    pub typed: Vec<u64>,
    pub undone: Vec<u64>,
    pub seen: usize,
}

/// The time of an edit, in nanoseconds, and how many diagnostics and state sets are there after it.
pub fn time_edit(
    rt: &impl CpuClock,
    session: &mut Session,
    start: usize,
    stop: usize,
    new: &[u8],
) -> Result<(u64, usize), Stop> {
    let begin = rt.thread_cpu_time()?;
    session.edit(start, stop, new)?;
    let found = session.diagnostics().len();
    let sets = session.tables().sets.len();
    let passed = rt.thread_cpu_time()?.saturating_sub(begin).as_nanos();
    Ok((
        u64::try_from(passed).unwrap_or(u64::MAX),
        found.wrapping_add(sets),
    ))
}

// Types the keys one after another, the first at the offset.
fn type_keys(
    rt: &impl CpuClock,
    session: &mut Session,
    at: usize,
    keys: &[u8],
    times: &mut Times,
) -> Result<(), Stop> {
    for (number, key) in keys.iter().enumerate() {
        let place = at.saturating_add(number);
        let (time, seen) = time_edit(rt, session, place, place, &[*key])?;
        times.typed.push(time)?;
        times.seen = times.seen.wrapping_add(seen);
    }
    Ok(())
}

// Takes away so many keys, the last one first.
fn undo_keys(
    rt: &impl CpuClock,
    session: &mut Session,
    at: usize,
    count: usize,
    times: &mut Times,
) -> Result<(), Stop> {
    for number in (0..count).rev() {
        let place = at.saturating_add(number);
        let (time, seen) = time_edit(rt, session, place, place.saturating_add(1), &[])?;
        times.undone.push(time)?;
        times.seen = times.seen.wrapping_add(seen);
    }
    Ok(())
}

/// Types the keys at an offset and undoes them, again and again.
pub fn time_keys(
    rt: &impl CpuClock,
    alloc: Global,
    session: &mut Session,
    at: usize,
    keys: &[u8],
) -> Result<Times, Stop> {
    let mut times = Times {
        typed: Vec::new(alloc),
        undone: Vec::new(alloc),
        seen: 0,
    };
    for _ in 0..KEYS.checked_div(keys.len()).unwrap_or(0) {
        type_keys(rt, session, at, keys, &mut times)?;
        undo_keys(rt, session, at, keys.len(), &mut times)?;
    }
    Ok(times)
}
