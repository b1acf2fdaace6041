//! How far the talk with a client is.

ghost use Rattle.std.specs.Prelude.{◌≡◌};
ghost use Rattle.snl_docs.specs.Served.{ended_in, is_ready, is_shut};

/// How far the talk with a client is.
#[derive(Clone, Copy, Debug, PartialEq, Eq)]
pub enum Phase {
    /// `initialize` did not come yet.
    New,
    /// Documents are opened, changed and closed.
    Ready,
    /// `shutdown` came.
    Shut,
    /// `exit` came, after `shutdown` or not.
    Gone(bool),
}

impl Phase {
    pub fn is_ready(self) -> bool
        ensures { result ≡ is_ready self }
    {
        matches!(self, Phase::Ready)
    }

    pub fn is_shut(self) -> bool
        ensures { result ≡ is_shut self }
    {
        match self {
            Phase::New | Phase::Ready => false,
            Phase::Shut => true,
            Phase::Gone(clean) => clean,
        }
    }

    /// Whether the talk ended after `shutdown`, if it ended.
    pub fn ended(self) -> Option<bool>
        ensures { result ≡ ended_in self }
    {
        match self {
            Phase::New | Phase::Ready | Phase::Shut => None,
            Phase::Gone(clean) => Some(clean),
        }
    }
}
