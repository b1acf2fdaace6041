//! Which items say nothing that the rows of channels are made from. In: what an item says to the
//! others. Out: whether it has no clause, declares no event flag, and declares nothing that the
//! items before it can name.

ghost use Rattle.std.specs.Prelude.{◌≡◌};
ghost use Rattle.std.specs.List.{list_any};
ghost use Rattle.snl_moved.specs.Quiet.{after_quiet, is_flag_declared, is_hidden, is_later_after, is_quiet};

use snl_scope::{Declared, Outline, Role, SymbolKind};

// Whether one of these names is that of an event flag.
fn declares_flag(declares: &[Declared]) -> bool
    ensures { result ≡ list_any is_flag_declared declares.now }
{
    declares.iter().any(|declared| matches!(declared.variable.symbol_kind, SymbolKind::EventFlag))
}

// Whether what an item declares can't be named by the items before it.
fn is_hidden(in_later_set: bool, outline: &Outline) -> bool
    ensures { result ≡ is_hidden in_later_set outline.now }
{
    match outline.role {
        Role::State => true,
        Role::SetBegin => outline.declares.is_empty(),
        Role::SetEnd | Role::Other => in_later_set || outline.declares.is_empty(),
    }
}

// Whether an item says nothing that rows of channels are made from, as far as the items before it
// can name it.
fn is_quiet(in_later_set: bool, outline: &Outline) -> bool
    ensures { result ≡ is_quiet in_later_set outline.now }
{
    outline.clauses.is_empty()
        && !declares_flag(outline.declares.as_slice())
        && is_hidden(in_later_set, outline)
}

// Whether the item after this one is in a state set that begins with this one, or did before.
fn is_later_after(in_later_set: bool, outline: &Outline) -> bool
    ensures { result ≡ is_later_after in_later_set outline.now }
{
    match outline.role {
        Role::SetBegin => true,
        Role::SetEnd => false,
        Role::State | Role::Other => in_later_set,
    }
}

/// What an item leaves for the next one, if it says nothing that rows of channels are made from:
/// whether that is in a state set that begins after the items that keep their channels. The item
/// itself may be in such a state set.
pub fn after_quiet(in_later_set: bool, outline: &Outline) -> Option<bool>
    ensures { result ≡ after_quiet in_later_set outline.now }
{
    if is_quiet(in_later_set, outline) {
        Some(is_later_after(in_later_set, outline))
    } else {
        None
    }
}
