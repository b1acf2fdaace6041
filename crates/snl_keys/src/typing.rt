//! Times keystrokes in a text that is open in a session, each with the text's diagnostics and
//! tables: what is typed at the front, in the middle and at the back of the text, and undone. In: a
//! text. Out: what was typed, on standard output; the median and the greatest time of a keystroke,
//! in microseconds, on standard error.

use crate::keys::{Place, TYPINGS, Typing, offset_after};
use crate::stop::Stop;
use crate::timing::{time_edit, time_keys};
use snl_session::Session;
use std::alloc::Global;
use std::time::CpuClock;

// Says the median and the greatest of some times.
fn tell_times(rt: &impl Eprint, what: &str, times: &mut Vec<u64>) -> Result<(), Stop> {
    times.sort_unstable();
    let median = times.get(times.len() / 2).copied().unwrap_or(0);
    let greatest = times.last().copied().unwrap_or(0);
    eprint!(rt;
        ", {what} {}.{} us, at most {}.{} us",
        median / 1000,
        median / 100 % 10,
        greatest / 1000,
        greatest / 100 % 10
    )?;
    Ok(())
}

// Types at one place.
fn measure_place<R: CpuClock + Print + Eprint>(
    rt: &R,
    alloc: Global,
    session: &mut Session,
    typing: &Typing,
    place: Place,
) -> Result<(), Stop> {
    let Some(at) = offset_after(session.text(), typing.after, place) else {
        println!(rt; "{}: not in the text", typing.name)?;
        return Ok(());
    };
    let mut times = time_keys(rt, alloc, session, at, typing.keys)?;
    println!(rt;
        "{}, {}: typed {} undone {} seen {}",
        typing.name,
        place.name(),
        times.typed.len(),
        times.undone.len(),
        times.seen
    )?;
    eprint!(rt; "{}, {}", typing.name, place.name())?;
    tell_times(rt, "a key", &mut times.typed)?;
    tell_times(rt, "its undoing", &mut times.undone)?;
    eprintln!(rt; "")?;
    Ok(())
}

/// Times keystrokes.
pub fn measure<R: CpuClock + Print + Eprint>(
    rt: &R,
    alloc: Global,
    text: &[u8],
) -> Result<(), Stop> {
    let mut session = Session::new(alloc)?;
    let (first, _) = time_edit(rt, &mut session, 0, 0, text)?;
    println!(rt;
        "bytes {} diagnostics {}",
        text.len(),
        session.diagnostics().len()
    )?;
    eprintln!(rt; "the whole text {} us", first / 1000)?;
    for typing in &TYPINGS {
        measure_place(rt, alloc, &mut session, typing, Place::Front)?;
        measure_place(rt, alloc, &mut session, typing, Place::Middle)?;
        measure_place(rt, alloc, &mut session, typing, Place::Back)?;
    }
    println!(rt;
        "bytes {} diagnostics {}",
        session.text().len(),
        session.diagnostics().len()
    )?;
    Ok(())
}
