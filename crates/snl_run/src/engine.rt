//! The script engine.
//! In: a source and a script. Out: the answers to the script's commands.
//! Each is written before more is read. No one clause says that, but `ran`, `read` and `write` leave
//! no other way, for all readers and writers: docs/PROVED.md says why.
//! Knows nothing of files, terminals and the command line.
#![tactic(auto)]

ghost use Rattle.std.specs.Prelude.{◌≡◌, ◌≢◌, ℕ, ◌+◌, ◌==◌, ◌≤◌, ◌<◌, ◌||◌, ◌⊎◌, [], List, length, drop, false, Err, Ok, IfErr, IfOk, IsErrOf, is_err};
ghost use Rattle.snl_session.specs.Edit.{limit};
ghost use Rattle.snl_script.specs.Front.{request_of};
ghost use Rattle.snl_run.specs.Run.{Answered, NoStart, Ran, is_read_fault, is_write_fault};
ghost use Rattle.snl_run.specs.Transcript.{status_of};
ghost use Rattle.snl_run.specs.Version.{first_version};
ghost use Rattle.snl_script.specs.Watched.{calls_of, failed_of, inner_of};

use crate::answers::{report, tell_edit, tell_work};
use crate::document::Document;
use crate::faults::{RunFault, Status};
use crate::listing::list;
use crate::source::LIMIT;
use snl_script::{Ahead, Command, Front, Watched, WriteFault, front_of, whole_commands_stay};
use snl_session::Session;
use std::alloc::Global;
use std::io::{Read, Write};
use std::mem::forget;

/// Carries out a command, and writes its answer.
fn answer<W: Write>(
    document: &mut Document,
    command: Command<'_>,
    out: &mut Watched<W>,
) -> Result<(), WriteFault>
    ensures answered { Answered result document.old document.new (request_of command.entry)
        (W.contents (inner_of out.old)) (W.contents (inner_of out.new)) }
    ensures failed { failed_of out.new ≡ (failed_of out.old || is_err result) }
{
    match command {
        Command::Check => report(out, document.session()),
        Command::List => list(out, document.session()),
        Command::Work => tell_work(out, document.work()),
        Command::Edit { start, stop, new } => tell_edit(out, document.edit(start, stop, new)),
    }
}

fn status(session: &Session) -> Status
    ensures { result ≡ status_of session.now }
{
    if session.errors() == 0 {
        Status::Clean
    } else {
        Status::Errors
    }
}

/// The end of a run whose script ends after these bytes, which are no command.
fn at_end(document: &Document, ahead: &Ahead, offset: usize) -> Result<Status, RunFault>
    ensures ended { ahead.now ≡ [] → result ≡ Ok (status_of document.now.text) }
    ensures malformed { ahead.now ≢ [] → result ≡ Err (RunFault.Script offset) }
{
    if ahead.bytes().is_empty() {
        Ok(status(document.session()))
    } else {
        Err(RunFault::Script(offset))
    }
}

/// Carries out the commands of a script, and writes their answers.
fn serve<R: Read, W: Write>(
    document: &mut Document,
    ahead: &mut Ahead,
    script: &mut Watched<R>,
    out: &mut Watched<W>,
) -> Result<Status, RunFault>
    requires nothing { ahead.old ≡ [] }
    requires unread { calls_of script.old ≡ 0 }
    requires readable { failed_of script.old ≡ false }
    requires writable { failed_of out.old ≡ false }
    ensures ran { Ran result (R.remaining (inner_of script.old)) (R.remaining (inner_of script.new))
        (W.contents (inner_of out.old)) (W.contents (inner_of out.new)) document.old }
    ensures reads { calls_of script.new ≤ 16777216 }
    ensures read { failed_of script.new ≡ is_read_fault result }
    ensures write { failed_of out.new ≡ is_write_fault result }
    ensures turns { IsErrOf result RunFault.TooManyTurns → calls_of script.new ≡ 16777216 }
    ensures source { result ≢ Err RunFault.Source }
{
    whole_commands_stay();
    let mut offset = 0;
    'commands: loop {
        match front_of(ahead.bytes()) {
            Front::Whole { command, length } => {
                answer(document, command, out)?;
                ahead.skip(length);
                offset += length;
            }
            Front::Malformed => return Err(RunFault::Script(offset)),
            Front::Short => {
                if !ahead.read_more(script)? {
                    return at_end(document, ahead, offset);
                }
            }
        }
    }
}

/// Runs a script over a source, which becomes a session's first text.
pub(crate) fn run_over_source<R: Read, W: Write>(
    alloc: Global,
    source: Vec<u8>,
    script: &mut Watched<R>,
    out: &mut Watched<W>,
) -> Result<Status, RunFault>
    requires unread { calls_of script.old ≡ 0 }
    requires unwritten { calls_of out.old ≡ 0 }

    // What was read and written, by the end of the run, from the version on that the source makes.
    ensures ran { Ran result (R.remaining (inner_of script.old)) (R.remaining (inner_of script.new))
        (W.contents (inner_of out.old)) (W.contents (inner_of out.new)) (first_version source.items) }
    ensures reads { calls_of script.new ≤ 16777216 }

    // A run ends with a fault of reading just where a read failed, and so of writing.
    ensures read { failed_of script.new ≡ is_read_fault result }
    ensures write { failed_of out.new ≡ is_write_fault result }
    ensures turns { IsErrOf result RunFault.TooManyTurns → calls_of script.new ≡ 16777216 }

    // A source that is too large is refused, unless memory was wanting before; then too nothing is
    // read or written.
    ensures large { limit < length source.items → IsErrOf result RunFault.Source ⊎ IsErrOf result RunFault.Memory }
    ensures unheard { limit < length source.items → calls_of script.new ≡ 0 }
    ensures silent { limit < length source.items → calls_of out.new ≡ 0 }
{
    let mut document = Document::begin(alloc, source)?;
    let mut ahead = Ahead::new(alloc);
    let ended = serve(&mut document, &mut ahead, script, out);
    // The program ends here: the system takes back what the document holds at once, and much faster
    // than piece by piece.
    forget(document);
    ended
}

// The bytes of a source once more. Of one that is too large nothing is copied.
fn copied(alloc: Global, source: &[u8]) -> Result<Vec<u8>, RunFault>
    ensures ok { IfOk result (λ copy. copy.items ≡ source.now) }
    ensures err { IfErr result (NoStart source.now) }
{
    if source.len() > LIMIT {
        return Err(RunFault::Source);
    }
    Vec::from_slice(alloc, source).map_err(|_| RunFault::Memory)
}

/// Runs a script over a source, a copy of which is a session's first text.
/// An edit that is refused is answered, and the run goes on.
/// `out` is not flushed, so it is to keep no bytes back.
pub fn run<R: Read, W: Write>(
    alloc: Global,
    initial: &[u8],
    script: &mut Watched<R>,
    out: &mut Watched<W>,
) -> Result<Status, RunFault>
    requires unread { calls_of script.old ≡ 0 }
    requires unwritten { calls_of out.old ≡ 0 }

    // What was read and written, by the end of the run, from the version on that the source makes.
    ensures ran { Ran result (R.remaining (inner_of script.old)) (R.remaining (inner_of script.new))
        (W.contents (inner_of out.old)) (W.contents (inner_of out.new)) (first_version initial.now) }
    ensures reads { calls_of script.new ≤ 16777216 }

    // A run ends with a fault of reading just where a read failed, and so of writing.
    ensures read { failed_of script.new ≡ is_read_fault result }
    ensures write { failed_of out.new ≡ is_write_fault result }
    ensures turns { IsErrOf result RunFault.TooManyTurns → calls_of script.new ≡ 16777216 }

    // A source that is too large is refused, unless memory was wanting before; then too nothing is
    // read or written.
    ensures large { limit < length initial.now → IsErrOf result RunFault.Source ⊎ IsErrOf result RunFault.Memory }
    ensures unheard { limit < length initial.now → calls_of script.new ≡ 0 }
    ensures silent { limit < length initial.now → calls_of out.new ≡ 0 }
{
    let source = copied(alloc, initial)?;
    run_over_source(alloc, source, script, out)
}
