//! Why tokens make no item.

ghost use Rattle.std.specs.Prelude.{◌≡◌};
ghost use Rattle.snl_syntax.specs.declared.fault.ParseFault.TheVariants.{OutOfMemory};

use std::alloc::AllocError;
use thiserror::Error;

/// Why tokens have no tree. Faulty tokens are looked for first, before any memory is asked for.
#[derive(Clone, Copy, Debug, PartialEq, Eq, Error)]
pub enum ParseFault {
    /// A growth was refused.
    #[error("out of memory")]
    OutOfMemory,
    /// No item consists of these tokens. The number is that of the token that is blamed, from 0.
    #[error("no item with token {at}")]
    NoItem { at: usize },
    /// The first faulty token has this number, from 0.
    #[error("token {at} is faulty")]
    BadPiece { at: usize },
}

impl From<AllocError> for ParseFault {
    ghost from_gives = { λ _ f. f ≡ OutOfMemory };

    fn from(_refused: AllocError) -> ParseFault {
        ParseFault::OutOfMemory
    }
}
