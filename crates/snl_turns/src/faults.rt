//! How a talk with a client ends.
//! In: nothing. Out: the names of its ends, and the status that tells them.

ghost use Rattle.std.specs.Prelude.{◌≡◌};
ghost use Rattle.snl_turns.specs.Faults.{code_of, fault_of_read};
ghost use Rattle.snl_turns.specs.declared.faults.Fault.TheVariants.{Write};

use snl_script::{ReadFault, WriteFault};
use thiserror::Error;

/// How a run ended that met no fault.
#[derive(Clone, Copy, Debug, PartialEq, Eq)]
pub enum Ending {
    /// `exit` came after `shutdown`.
    Clean,
    /// `exit` came without `shutdown`, or the input ended before it came.
    Abrupt,
}

/// Why a run broke off.
#[derive(Clone, Copy, Debug, PartialEq, Eq, Error)]
pub enum Fault {
    /// A read of the input failed.
    #[error("read fault")]
    Read,
    /// A write of the answers failed, or took none of some bytes.
    #[error("write fault")]
    Write,
    /// No message can follow: a header is too long, or it gives too long a body.
    #[error("header fault")]
    Header,
    /// The input ended within a message.
    #[error("input ends within a message")]
    Cut,
    /// A growth was refused, for the bytes of a message, what it asks or its answer.
    #[error("out of memory")]
    Memory,
    /// The input was read 2^40 times, and did not end.
    #[error("too many reads")]
    TooManyReads,
}

impl From<ReadFault> for Fault {
    ghost from_gives = { λ fault e. e ≡ fault_of_read fault };

    fn from(fault: ReadFault) -> Fault {
        match fault {
            ReadFault::Read => Fault::Read,
            ReadFault::Memory => Fault::Memory,
            ReadFault::TooManyTurns => Fault::TooManyReads,
        }
    }
}

impl From<WriteFault> for Fault {
    ghost from_gives = { λ _ e. e ≡ Write };

    fn from(_fault: WriteFault) -> Fault {
        Fault::Write
    }
}

/// The status that tells how a run ended.
pub fn status_code(end: &Result<Ending, Fault>) -> u8
    ensures { result ≡ code_of end.now }
{
    match end {
        Ok(Ending::Clean) => 0,
        Ok(Ending::Abrupt) => 1,
        Err(_) => 2,
    }
}
