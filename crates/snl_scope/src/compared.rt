//! What names mean by links before an edit and after it, told by the numbers of names: a name that
//! keeps its number is compared with no look at its bytes.

ghost use Rattle.std.specs.Prelude.{IfSome};
ghost use Rattle.snl_scope.specs.Compared.{AreCompared};

use crate::links::Links;
use crate::names::first_numbers::FirstNumbers;

/// What names mean by some links, told by the numbers of so many names.
#[derive(Clone, Copy)]
pub struct Meanings<'a> {
    pub links: &'a Links,
    pub first: &'a FirstNumbers,
    pub names: usize,
}

/// What names mean before an edit and after it.
#[derive(Clone, Copy)]
pub struct Compared<'a> {
    pub before: Meanings<'a>,
    pub after: Meanings<'a>,
}

impl<'a> Compared<'a> {
    /// What names mean by the old links and by the new ones, or None where the old names don't keep
    /// their numbers.
    pub fn of(before: &'a Links, after: &'a Links) -> Option<Compared<'a>>
        ensures { IfSome result (AreCompared before.now.outlines after.now.outlines) }
    {
        let (old, new) = (&before.scopes, &after.scopes);
        if !new.outlines.numbers_as(&old.outlines) {
            return None;
        }
        Some(Compared {
            before: Meanings {
                links: before,
                first: &old.first,
                names: old.outlines.name_count(),
            },
            after: Meanings {
                links: after,
                first: &new.first,
                names: new.outlines.name_count(),
            },
        })
    }
}
