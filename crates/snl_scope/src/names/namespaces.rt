//! Spaces of names.

ghost use Rattle.std.specs.Prelude.{◌≡◌};
ghost use Rattle.std.specs.Hash as fed;
ghost use Rattle.std.proofs.Common.{ap};
ghost use Rattle.snl_scope.specs.Hashed.{key_number, namespace_number, same_key_number};

use std::hash::{Hash, Hasher};

/// A namespace, in which a name is to occur once. A state set is told by the number of its `ss NAME
/// {` item, and a state by that of its own item.
#[derive(Clone, Copy, PartialEq, Eq, PartialOrd, Ord)]
pub enum Namespace {
    /// The scope of the program.
    Program,
    /// The scope of a state set.
    StateSet(usize),
    /// The scope of a state.
    State(usize),
    /// The names of the state sets.
    Sets,
    /// The names of the states of a state set.
    States(usize),
}

/// A name, by its number, in a namespace: a key of tables.
#[derive(Clone, Copy, PartialEq, Eq, PartialOrd, Ord)]
pub struct QualifiedName {
    pub namespace: Namespace,
    pub name: usize,
}

// No item is both a state set and a state, so their scopes have one number.
fn namespace_number(namespace: Namespace) -> u64
    ensures { result ≡ namespace_number namespace }
{
    match namespace {
        Namespace::Program => u64::MAX / 2,
        Namespace::StateSet(item) | Namespace::State(item) => item as u64,
        Namespace::Sets => u64::MAX / 2 + 1,
        Namespace::States(item) => u64::MAX - item as u64,
    }
}

// By one write of a number, where a variant and its fields would take a write each.
impl Hash for QualifiedName {
    ghost hash_input = { λ k. fed.u128 (key_number k) };

    ghost respects_eq = { λ a b h. ap fed.u128 (same_key_number a b h) };

    fn hash<H: Hasher>(&self, state: &mut H) {
        let namespace = namespace_number(self.namespace) as u128;
        state.write_u128(namespace * (1 << 64) + self.name as u128);
    }
}
