//! How a run of a script ends.
//! In: nothing. Out: the names of its ends.
#![tactic(auto)]

ghost use Rattle.std.specs.Prelude.{◌≡◌};
ghost use Rattle.snl_run.specs.Faults.{fault_of_read};
ghost use Rattle.snl_run.specs.declared.faults.RunFault.TheVariants.{Write};

use snl_script::{ReadFault, WriteFault};
use thiserror::Error;

/// Whether the last text of a script has errors.
#[derive(Clone, Copy, Debug, PartialEq, Eq)]
pub enum Status {
    Clean,
    Errors,
}

/// Why a run broke off.
#[derive(Clone, Copy, Debug, PartialEq, Eq, Error)]
pub enum RunFault {
    /// A read of the script failed.
    #[error("read fault")]
    Read,
    /// A write of the answers failed, or took none of some bytes.
    #[error("write fault")]
    Write,
    /// No well-formed command is at this byte of the script, and it does not end there.
    #[error("script fault at byte {0}")]
    Script(usize),
    /// A growth was refused for the session, the source or the script's bytes.
    #[error("out of memory")]
    Memory,
    /// The script was read 16,777,216 times, and did not end.
    #[error("too many reads")]
    TooManyTurns,
    /// The source is longer than a text may be.
    #[error("source too large")]
    Source,
}

impl From<ReadFault> for RunFault {
    ghost from_gives = { λ fault e. e ≡ fault_of_read fault };

    fn from(fault: ReadFault) -> RunFault {
        match fault {
            ReadFault::Read => RunFault::Read,
            ReadFault::Memory => RunFault::Memory,
            ReadFault::TooManyTurns => RunFault::TooManyTurns,
        }
    }
}

impl From<WriteFault> for RunFault {
    ghost from_gives = { λ _ e. e ≡ Write };

    fn from(_fault: WriteFault) -> RunFault {
        RunFault::Write
    }
}
