//! What is wrong with a session under edits.

use snl_cut::OutOfMemory;
use snl_session::Refused;
use std::alloc::AllocError;
use thiserror::Error;

/// What a session answers that it must not.
#[derive(Clone, Copy, Debug, PartialEq, Eq, Error)]
pub enum Fault {
    #[error("out of memory")]
    Memory,
    #[error("an edit was refused or made, and had to be made or refused in another way")]
    Refusal,
    #[error("the text is another one")]
    Text,
    #[error("the diagnostics are not those of a new session")]
    Diagnostics,
    #[error("the numbers of errors and warnings are not those of a new session")]
    Numbers,
    #[error("the listing is not that of a new session")]
    Listing,
    #[error("the tables are not those of a new session")]
    Tables,
    #[error("the number of pieces that were cut is not that of the fresh pieces")]
    Lexed,
    #[error("the number of items that were parsed is not that of the fresh items")]
    Parsed,
    #[error("the number of items that were checked is not that of the stirred items")]
    Checked,
}

impl From<OutOfMemory> for Fault {
    fn from(_refused: OutOfMemory) -> Fault {
        Fault::Memory
    }
}

impl From<AllocError> for Fault {
    fn from(_refused: AllocError) -> Fault {
        Fault::Memory
    }
}

impl From<Refused> for Fault {
    fn from(refused: Refused) -> Fault {
        match refused {
            Refused::Memory => Fault::Memory,
            Refused::Range | Refused::Size => Fault::Refusal,
        }
    }
}
