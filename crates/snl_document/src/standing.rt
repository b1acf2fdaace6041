//! How the text of a document is served.

ghost use Rattle.std.specs.Prelude.{◌≡◌};
ghost use Rattle.snl_document.specs.Told.{stays};

/// How the text of a document is served.
#[derive(Clone, Copy, Debug, PartialEq, Eq)]
pub enum Standing {
    /// What is found in it is published.
    Checked,
    /// It has more bytes than a session takes. It is followed, so that it is checked once it fits.
    Large,
    /// What the client has isn't known any more.
    Lost,
}

impl Standing {
    /// The text wasn't checked before, and isn't now, for one reason.
    pub fn stays(self, now: Standing) -> bool
        ensures { result ≡ stays self now }
    {
        match self {
            Standing::Checked => false,
            Standing::Large => matches!(now, Standing::Large),
            Standing::Lost => matches!(now, Standing::Lost),
        }
    }
}
