//! A run over the text that a file holds.
//! In: a file, if there is one, a script and where to write.
//! Out: how the run ended, and the status that tells this.
//! Knows nothing of paths, terminals and the command line.
#![tactic(auto)]

ghost use Rattle.std.specs.Prelude.{◌≡◌, ◌≤◌, length, option_map, IfErr, IfOk, IsErrOf};
ghost use Rattle.snl_session.specs.Edit.{limit};
ghost use Rattle.snl_run.specs.OverFile.{IsSource, NoSource, RanOver, code_of};
ghost use Rattle.snl_run.specs.OverFile.{is_unread, is_unwritten};
ghost use Rattle.snl_script.specs.declared.file.SourceFault.{SourceFault};
ghost use Rattle.snl_script.specs.Watched.{calls_of, failed_of, inner_of};

use crate::engine::run_over_source;
use crate::faults::{RunFault, Status};
use crate::source::read_source;
use snl_script::{SourceFault, Watched};
use std::alloc::Global;
use std::io::{Read, Write};
use thiserror::Error;

/// Why a run over the text of a file broke off or could not begin.
#[derive(Clone, Copy, Debug, PartialEq, Eq, Error)]
pub enum Fault {
    #[error(transparent)]
    Source(SourceFault),
    #[error(transparent)]
    Run(RunFault),
}

/// The bytes of a file; none, where there is no file.
fn source_in<F: Read + Drop>(alloc: Global, file: Option<F>) -> Result<Vec<u8>, SourceFault>
    ensures ok { IfOk result (λ source. IsSource (option_map F.remaining file) source.items) }
    ensures fits { IfOk result (λ source. length source.items ≤ limit) }
    ensures err { IfErr result (NoSource (option_map F.remaining file)) }
{
    match file {
        Some(file) => read_source(alloc, &mut Watched::new(file)),
        None => Ok(Vec::new(alloc)),
    }
}

/// Runs a script over all the bytes of a file, or over the empty text where there is no file.
pub fn run_over<F: Read + Drop, R: Read, W: Write>(
    alloc: Global,
    file: Option<F>,
    script: &mut Watched<R>,
    out: &mut Watched<W>,
) -> Result<Status, Fault>
    requires unread { calls_of script.old ≡ 0 }
    requires unwritten { calls_of out.old ≡ 0 }

    // A run of the source that the file gives; or why it gives none, with nothing read or written.
    ensures ran { RanOver result (option_map F.remaining file)
        (R.remaining (inner_of script.old)) (R.remaining (inner_of script.new))
        (W.contents (inner_of out.old)) (W.contents (inner_of out.new)) }
    ensures reads { calls_of script.new ≤ 16777216 }
    ensures read { failed_of script.new ≡ is_unread result }
    ensures write { failed_of out.new ≡ is_unwritten result }
    ensures turns { IsErrOf result (Fault.Run RunFault.TooManyTurns)
        → calls_of script.new ≡ 16777216 }
    ensures unheard { (fault : SourceFault) → IsErrOf result (Fault.Source fault)
        → calls_of script.new ≡ 0 }
    ensures silent { (fault : SourceFault) → IsErrOf result (Fault.Source fault)
        → calls_of out.new ≡ 0 }
{
    let source = source_in(alloc, file).map_err(Fault::Source)?;
    run_over_source(alloc, source, script, out).map_err(Fault::Run)
}

/// The status that tells how it ended.
pub fn status_code<E>(end: &Result<Status, E>) -> u8
    ensures { result ≡ code_of end.now }
{
    match end {
        Ok(Status::Clean) => 0,
        Ok(Status::Errors) => 1,
        Err(_) => 2,
    }
}
