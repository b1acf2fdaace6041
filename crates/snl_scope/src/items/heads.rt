//! What the order of items asks of their outlines.

ghost use Rattle.std.specs.Prelude.{◌≡◌};
ghost use Rattle.snl_scope.specs.NameTables.{is_sought_head};

use snl_summary::{Opening, Role};

/// What an outline says of the order of items.
#[derive(Clone, Copy)]
pub(crate) struct Head {
    pub role: Role,
    pub opening: Opening,
    /// Whether its second token is a name.
    pub is_named: bool,
}

/// What is sought in state sets.
#[derive(Clone, Copy)]
pub(crate) enum Sought {
    /// The `}` that closes it.
    End,
    /// A state with a name, faulty or not.
    State,
}

pub(crate) fn is_sought(sought: Sought, head: Head) -> bool
    ensures { result ≡ is_sought_head sought head }
{
    match sought {
        Sought::End => matches!(head.role, Role::SetEnd),
        Sought::State => matches!(head.opening, Opening::State) && head.is_named,
    }
}
