//! Whether a clause is on one of some names: the outlines of all items and the names come in.

ghost use Rattle.std.specs.Prelude.{◌≡◌, false, option_map};
ghost use Rattle.std.specs.List.{list_any};
ghost use Rattle.std.specs.Option.{option_map_or};
ghost use Rattle.snl_scope.specs.OutlineList.{clause_by, name_at, ref_by};
ghost use Rattle.snl_scope.specs.Renamed.{is_on, some_is_on};
ghost use Rattle.snl_scope.specs.Spoken.{is_among};

use crate::edited_names::EditedNames;
use crate::outlines::flat::{FlatClause, FlatRef};
use crate::outlines::outline_list::OutlineList;
use snl_names::NameBook;

// The name with a number. There is always one.
fn name_at<'a>(book: &'a NameBook, number: usize) -> &'a [u8]
    ensures { result.now ≡ name_at book.now number }
{
    if number < book.count() {
        book.name(number)
    } else {
        &[]
    }
}

// Whether a clause has one of the names as its flag.
fn has_flag_among(names: &EditedNames, book: &NameBook, flag: Option<FlatRef>) -> bool
    ensures { result
        ≡ option_map_or (λ m. is_among names.now m.name) (option_map (ref_by book.now) flag) false }
{
    match flag {
        Some(flag) => names.have(name_at(book, flag.name)),
        None => false,
    }
}

fn is_on(names: &EditedNames, book: &NameBook, clause: &FlatClause) -> bool
    ensures { result ≡ is_on names.now (clause_by book.now clause.now) }
{
    names.have(name_at(book, clause.variable.name)) || has_flag_among(names, book, clause.flag)
}

fn any_is_on(names: &EditedNames, book: &NameBook, clauses: &[FlatClause]) -> bool
    ensures { result ≡ list_any (λ c. is_on names.now (clause_by book.now c)) clauses.now }
{
    clauses.iter().any(|clause| is_on(names, book, clause))
}

impl OutlineList {
    /// Whether some clause is on one of these names, or has one as its flag.
    pub(crate) fn some_is_on(&self, names: &EditedNames) -> bool
        ensures { result ≡ some_is_on names.now self.now.outlines }
    {
        any_is_on(names, &self.names, &self.clauses)
    }
}
