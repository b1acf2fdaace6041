//! The loop of a server.
//! In: a reader that gives a client's messages, and whoever answers them. Out: the answers, to a
//! writer.
//! Each is written before more is read. No one clause says that, but `ran`, `read` and `write` leave
//! no other way, for all readers and writers: docs/PROVED.md says why.
//! Knows nothing of what a message asks, and of what is answered.

ghost use Rattle.std.specs.Prelude.{◌≡◌, ◌≢◌, ◌^◌, ◌≤◌, ◌||◌, [], Err, false, is_err, IsErrOf, None, Ok};
ghost use Rattle.snl_turns.specs.Turns.{turn_of};
ghost use Rattle.snl_talk.specs.Run.{Answered, Ran, ending_of, is_read_fault, is_write_fault};
ghost use Rattle.snl_talk.specs.Talks.{ended_of};
ghost use Rattle.snl_script.specs.Watched.{calls_of, failed_of, inner_of};

use crate::answers::Answers;
use snl_frame::{messages_stay, unfinished_are_bounded};
use snl_script::{Ahead, Watched, write_out};
use snl_turns::{Ending, Fault, Next, Turn, next_in};
use std::alloc::Global;
use std::io::{Read, Write};

/// The input is read so often at most: 2^40 times.
const MAX_READS: u64 = 1_099_511_627_776;

/// Answers a message. What is said is gathered first, so that memory is wanting for all of it or
/// for nothing.
fn answer<D: Answers, W: Write>(
    alloc: Global,
    docs: &mut D,
    turn: Turn<'_>,
    out: &mut Watched<W>,
) -> Result<(), Fault>
    ensures answered { Answered D.talk result docs.old docs.new (turn_of turn.entry)
        (W.contents (inner_of out.old)) (W.contents (inner_of out.new)) }
    ensures failed { failed_of out.new ≡ (failed_of out.old || is_write_fault result) }
{
    let mut said = Vec::new(alloc);
    docs.answer(turn, &mut said).map_err(|_| Fault::Memory)?;
    write_out(out, &said)?;
    Ok(())
}

fn ending(clean: bool) -> Ending
    ensures { result ≡ ending_of clean }
{
    if clean { Ending::Clean } else { Ending::Abrupt }
}

/// The end of a run whose input ends after these bytes, which are no message.
fn at_end(ahead: &Ahead) -> Result<Ending, Fault>
    ensures ended { ahead.now ≡ [] → result ≡ Ok Ending.Abrupt }
    ensures cut { ahead.now ≢ [] → result ≡ Err Fault.Cut }
{
    if ahead.bytes().is_empty() {
        Ok(Ending::Abrupt)
    } else {
        Err(Fault::Cut)
    }
}

/// Answers messages until `exit` comes or the input ends.
fn converse<D: Answers, R: Read, W: Write>(
    alloc: Global,
    docs: &mut D,
    ahead: &mut Ahead,
    input: &mut Watched<R>,
    out: &mut Watched<W>,
) -> Result<Ending, Fault>
    requires nothing { ahead.old ≡ [] }
    requires going { ended_of D.talk docs.old ≡ None }
    requires unread { calls_of input.old ≡ 0 }
    requires readable { failed_of input.old ≡ false }
    requires writable { failed_of out.old ≡ false }
    ensures ran { Ran D.talk result (R.remaining (inner_of input.old))
        (R.remaining (inner_of input.new)) (W.contents (inner_of out.old))
        (W.contents (inner_of out.new)) docs.old }
    ensures reads { calls_of input.new ≤ 2 ^ 40 }
    ensures read { failed_of input.new ≡ is_read_fault result }
    ensures write { failed_of out.new ≡ is_write_fault result }
    ensures turns { IsErrOf result Fault.TooManyReads → calls_of input.new ≡ 2 ^ 40 }
{
    messages_stay();
    unfinished_are_bounded();
    'messages: loop {
        match next_in(ahead.bytes()) {
            Next::Message { turn, length } => {
                answer(alloc, docs, turn, out)?;
                ahead.skip(length);
                if let Some(clean) = docs.ended() {
                    return Ok(ending(clean));
                }
            }
            Next::Malformed => return Err(Fault::Header),
            Next::Short => {
                if !ahead.read_more_within(input, MAX_READS)? {
                    return at_end(ahead);
                }
            }
        }
    }
}

/// Answers the messages of a client, each before more is read, until `exit` comes or the input
/// ends.
/// `out` is not flushed, so it is to keep no bytes back.
pub fn converse_over<D: Answers, R: Read, W: Write>(
    alloc: Global,
    docs: &mut D,
    input: &mut Watched<R>,
    out: &mut Watched<W>,
) -> Result<Ending, Fault>
    requires going { ended_of D.talk docs.old ≡ None }
    requires unread { calls_of input.old ≡ 0 }
    requires unwritten { calls_of out.old ≡ 0 }

    // What was read and written, by the end of the run.
    ensures ran { Ran D.talk result (R.remaining (inner_of input.old))
        (R.remaining (inner_of input.new)) (W.contents (inner_of out.old))
        (W.contents (inner_of out.new)) docs.old }
    ensures reads { calls_of input.new ≤ 2 ^ 40 }

    // A run ends with a fault of reading just where a read failed, and so of writing.
    ensures read { failed_of input.new ≡ is_read_fault result }
    ensures write { failed_of out.new ≡ is_write_fault result }
    ensures turns { IsErrOf result Fault.TooManyReads → calls_of input.new ≡ 2 ^ 40 }
{
    let mut ahead = Ahead::new(alloc);
    converse(alloc, docs, &mut ahead, input, out)
}
