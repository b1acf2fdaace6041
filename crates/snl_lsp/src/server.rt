//! The server: the talk with a client over documents that sessions check.
//! In: a reader that gives a client's messages. Out: the answers to them, to a writer.

ghost use Rattle.std.specs.Prelude.{◌≡◌, ◌^◌, ◌≤◌, IsErrOf};
ghost use Rattle.snl_docs.specs.Served.{start, talk_by};
ghost use Rattle.snl_script.specs.Watched.{calls_of, failed_of, inner_of};
ghost use Rattle.snl_shown.specs.Shown.{says_of_text};
ghost use Rattle.snl_talk.specs.Run.{Ran, is_read_fault, is_write_fault};

use snl_docs::Docs;
use snl_script::Watched;
use snl_shown::SessionText;
use snl_talk::converse_over;
use snl_turns::{Ending, Fault};
use std::alloc::Global;
use std::io::{Read, Write};
use std::mem::forget;

/// Answers the messages of a client, each before more is read.
/// `out` is not flushed, so it is to keep no bytes back.
#[tactic(auto, unfolding(snl_docs::specs::Served::start, snl_docs::specs::Served::ended_of))]
pub fn serve<R: Read, W: Write>(
    alloc: Global,
    input: &mut Watched<R>,
    out: &mut Watched<W>,
) -> Result<Ending, Fault>
    requires unread { calls_of input.old ≡ 0 }
    requires unwritten { calls_of out.old ≡ 0 }

    // What was read and written, by the end of the run, from the start on.
    ensures ran { Ran (talk_by says_of_text) result (R.remaining (inner_of input.old))
        (R.remaining (inner_of input.new)) (W.contents (inner_of out.old))
        (W.contents (inner_of out.new)) start }
    ensures reads { calls_of input.new ≤ 2 ^ 40 }

    // A run ends with a fault of reading just where a read failed, and so of writing.
    ensures read { failed_of input.new ≡ is_read_fault result }
    ensures write { failed_of out.new ≡ is_write_fault result }
    ensures turns { IsErrOf result Fault.TooManyReads → calls_of input.new ≡ 2 ^ 40 }
{
    let mut docs: Docs<SessionText> = Docs::new(alloc);
    let end = converse_over(alloc, &mut docs, input, out);
    // The program ends here: the system takes back what the documents hold at once, and much faster
    // than piece by piece.
    forget(docs);
    end
}
