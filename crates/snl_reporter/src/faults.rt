//! How a run ends.
//! In: nothing. Out: the names of its ends, and the status that tells them.

ghost use Rattle.std.specs.Prelude.{◌≡◌};
ghost use Rattle.snl_reporter.specs.Ends.{code_of, fault_of_read, fault_of_report, worse};

use snl_report::ReportFault;
use snl_script::ReadFault;
use thiserror::Error;

/// Whether a text has errors.
#[derive(Clone, Copy, Debug, PartialEq, Eq)]
pub enum Status {
    Clean,
    Errors,
}

/// Why a run broke off. The message is its line on standard error.
#[derive(Clone, Copy, Debug, PartialEq, Eq, Error)]
pub enum Fault {
    /// The words of the command line are no form, or others after it than `color`.
    #[error("usage: snl_reporter report [color] | json | github | sarif")]
    Usage,
    /// A read of standard input failed.
    #[error("read fault")]
    Read,
    /// A write of the reports failed, or took none of some bytes.
    #[error("write fault")]
    Write,
    /// What should be the heading of this text, counted from 1, is none.
    #[error("heading fault at text {0}")]
    Heading(u64),
    /// The input ends within this text or its heading.
    #[error("input ends within text {0}")]
    Cut(u64),
    /// A growth was refused.
    #[error("out of memory")]
    Memory,
    /// The input was read 16,777,216 times, and did not end.
    #[error("too many reads")]
    TooManyReads,
}

impl From<ReadFault> for Fault {
    ghost from_gives = { λ fault e. e ≡ fault_of_read fault };

    fn from(fault: ReadFault) -> Fault {
        match fault {
            ReadFault::Read => Fault::Read,
            ReadFault::Memory => Fault::Memory,
            ReadFault::TooManyTurns => Fault::TooManyReads,
        }
    }
}

impl From<ReportFault> for Fault {
    ghost from_gives = { λ fault e. e ≡ fault_of_report fault };

    fn from(fault: ReportFault) -> Fault {
        match fault {
            ReportFault::Memory => Fault::Memory,
            ReportFault::Write => Fault::Write,
        }
    }
}

/// The status of two texts.
pub fn worse(first: Status, second: Status) -> Status
    ensures { result ≡ worse first second }
{
    match (first, second) {
        (Status::Clean, Status::Clean) => Status::Clean,
        _ => Status::Errors,
    }
}

/// The status that tells how a run ended.
pub fn status_code(end: &Result<Status, Fault>) -> u8
    ensures { result ≡ code_of end.now }
{
    match end {
        Ok(Status::Clean) => 0,
        Ok(Status::Errors) => 1,
        Err(_) => 2,
    }
}
