//! Whether two items say the same to the others: names, declarations and clauses, one by one.
//! It is asked after an edit, of the items that were made anew and those in whose place they are.

ghost use Rattle.std.specs.Prelude.{◌≡◌, ◌↔◌, IsTrue};

use crate::name::Name;
use crate::summary::{Declared, NameRef, Outline, VariableClause};
use snl_facts::are_same_bytes;

/// Values that can be compared.
pub trait SameValue {
    /// Whether both are the same.
    fn is_same(&self, other: &Self) -> bool
        ensures { IsTrue result ↔ (self.now ≡ other.now) };
}

/// Lists of as many values, which are the same one by one.
pub fn are_same<T: SameValue>(ones: &[T], others: &[T]) -> bool
    ensures { IsTrue result ↔ (ones.now ≡ others.now) }
{
    if ones.len() != others.len() {
        return false;
    }
    for number in 0..ones.len() {
        if !ones[number].is_same(&others[number]) {
            return false;
        }
    }
    true
}

fn is_same_if<T: SameValue>(one: &Option<T>, other: &Option<T>) -> bool
    ensures { IsTrue result ↔ (one.now ≡ other.now) }
{
    match (one, other) {
        (None, None) => true,
        (Some(one), Some(other)) => one.is_same(other),
        _ => false,
    }
}

impl SameValue for usize {
    fn is_same(&self, other: &usize) -> bool {
        *self == *other
    }
}

impl SameValue for Name {
    fn is_same(&self, other: &Name) -> bool {
        are_same_bytes(self.bytes(), other.bytes())
    }
}

impl SameValue for NameRef {
    fn is_same(&self, other: &NameRef) -> bool {
        self.token == other.token && self.name.is_same(&other.name)
    }
}

impl SameValue for Declared {
    fn is_same(&self, other: &Declared) -> bool {
        self.token == other.token
            && self.variable == other.variable
            && self.name.is_same(&other.name)
    }
}

impl SameValue for VariableClause {
    fn is_same(&self, other: &VariableClause) -> bool {
        self.kind == other.kind
            && self.coverage == other.coverage
            && self.variable.is_same(&other.variable)
            && is_same_if(&self.flag, &other.flag)
    }
}

impl SameValue for Outline {
    fn is_same(&self, other: &Outline) -> bool {
        self.role == other.role
            && self.opening == other.opening
            && is_same_if(&self.second, &other.second)
            && are_same(self.declares.as_slice(), other.declares.as_slice())
            && are_same(self.clauses.as_slice(), other.clauses.as_slice())
    }
}

/// Whether two items say the same to the others. Links of the same outlines answer the same, since
/// contracts see them as the list of these.
pub fn same_outline(one: &Outline, other: &Outline) -> bool
    ensures { IsTrue result ↔ (one.now ≡ other.now) }
{
    one.is_same(other)
}
