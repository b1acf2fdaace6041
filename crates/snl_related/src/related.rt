//! A place that a finding is related to, and what is said of it.

ghost use Rattle.std.specs.Prelude.{◌≡◌};
ghost use Rattle.snl_related.specs.Related.{words_of};

use snl_tables::Span;

/// What a place is to the finding.
#[derive(Clone, Copy, Debug, PartialEq, Eq)]
pub enum RelatedKind {
    /// The first declaration of a name that is declared twice.
    FirstDeclared,
    /// The first state set of its name, or the first state of its name in its set.
    FirstNamed,
    /// The declaration of the name that the finding is about.
    Declared,
    /// The earlier clause that assigns, monitors or syncs the same.
    Assigned,
    Monitored,
    Synced,
    /// The `}` that ended the state set before.
    SetEnded,
    /// A name that is nearly the unknown one and could stand in its place.
    Near,
}

/// A place that a finding is related to: what it is to the finding, and its bytes in the text.
#[derive(Clone, Copy, Debug, PartialEq, Eq)]
pub struct Related {
    pub kind: RelatedKind,
    pub span: Span,
}

impl Related {
    ghost use Rattle.std.specs.Prelude.{◌≡◌};
    ghost use Rattle.snl_related.specs.Related.{elsewhere};

    /// The same, where it isn't at an offset: a finding isn't related to its own place.
    pub fn elsewhere(self, offset: usize) -> Option<Related>
        ensures { result ≡ elsewhere offset self }
    {
        if self.span.start == offset {
            None
        } else {
            Some(self)
        }
    }
}

/// What is said of the place to a user.
pub fn words_of(kind: RelatedKind) -> &'static [u8]
    ensures { result.now ≡ words_of kind }
{
    match kind {
        RelatedKind::FirstDeclared => b"first declared here",
        RelatedKind::FirstNamed => b"the first one is here",
        RelatedKind::Declared => b"declared here",
        RelatedKind::Assigned => b"assigned here",
        RelatedKind::Monitored => b"monitored here",
        RelatedKind::Synced => b"synced here",
        RelatedKind::SetEnded => b"the state set ended here",
        RelatedKind::Near => b"a near name",
    }
}
