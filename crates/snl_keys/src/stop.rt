//! What ends a measurement early. In: the errors of the calls. Out: one error.

use snl_cut::OutOfMemory;
use snl_session::Refused;
use std::alloc::{AllocError, AllocFailed};
use std::io;

/// Why a measurement ended early: want of memory, an edit that was refused, or a stream or clock
/// that failed.
#[derive(Drop)]
pub enum Stop {
    Memory,
    Edit,
    Output(io::Error),
}

impl From<OutOfMemory> for Stop {
    fn from(_refused: OutOfMemory) -> Stop {
        Stop::Memory
    }
}

impl From<AllocError> for Stop {
    fn from(_refused: AllocError) -> Stop {
        Stop::Memory
    }
}

impl<T: Drop> From<AllocFailed<T>> for Stop {
    fn from(_refused: AllocFailed<T>) -> Stop {
        Stop::Memory
    }
}

impl From<Refused> for Stop {
    fn from(refused: Refused) -> Stop {
        match refused {
            Refused::Memory => Stop::Memory,
            Refused::Range | Refused::Size => Stop::Edit,
        }
    }
}

impl From<io::Error> for Stop {
    fn from(error: io::Error) -> Stop {
        Stop::Output(error)
    }
}
