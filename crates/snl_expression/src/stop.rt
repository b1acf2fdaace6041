//! Why a reader stopped.

ghost use Rattle.std.specs.Prelude.{◌≡◌};
ghost use Rattle.snl_expression.specs.declared.stop.Stop.TheVariants.{OutOfMemory};

use std::alloc::AllocError;

/// Why a reader stopped: at the token with this number, which it can't take, or for want of memory.
#[derive(Clone, Copy)]
pub enum Stop {
    Here(usize),
    OutOfMemory,
}

impl From<AllocError> for Stop {
    ghost from_gives = { λ _ s. s ≡ OutOfMemory };

    fn from(_refused: AllocError) -> Stop {
        Stop::OutOfMemory
    }
}
