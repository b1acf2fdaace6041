//! Values that become others by replacements in a text, and values that are the same.

ghost use Rattle.std.specs.Prelude.{◌≡◌, IsTrue, map, option_map};
ghost use Rattle.snl_alike.specs.Edits.{Edit};
ghost use Rattle.snl_alike.specs.Moved.{edits_in};

use crate::moves::Moves;

/// What points into a text.
pub trait Moving {
    ghost use Rattle.std.specs.Prelude.{List};

    ghost moved: { List Edit → Self → Self };

    /// Whether it becomes another one.
    fn becomes(&self, moves: &Moves<'_>, new: &Self) -> bool
        ensures { IsTrue result → new.now ≡ moved (edits_in moves.now) self.now };
}

/// Whether each value of a list becomes that of another list.
pub fn all_become<T: Moving>(old: &[T], moves: &Moves<'_>, new: &[T]) -> bool
    ensures { IsTrue result → new.now ≡ map (T.moved (edits_in moves.now)) old.now }
{
    if old.len() != new.len() {
        return false;
    }
    for number in 0..old.len() {
        if !old[number].becomes(moves, &new[number]) {
            return false;
        }
    }
    true
}

/// The same of a value that may not be there.
pub fn becomes_if<T: Moving>(old: &Option<T>, moves: &Moves<'_>, new: &Option<T>) -> bool
    ensures { IsTrue result → new.now ≡ option_map (T.moved (edits_in moves.now)) old.now }
{
    match (old, new) {
        (None, None) => true,
        (Some(old), Some(new)) => old.becomes(moves, new),
        _ => false,
    }
}

/// What has no place of a text in it.
pub trait Plain {
    /// Whether it is the same as another one.
    fn is_same(&self, other: &Self) -> bool
        ensures { IsTrue result → other.now ≡ self.now };
}

/// Whether two lists have the same values.
pub fn are_same<T: Plain>(ones: &[T], others: &[T]) -> bool
    ensures { IsTrue result → others.now ≡ ones.now }
{
    if ones.len() != others.len() {
        return false;
    }
    for number in 0..ones.len() {
        if !ones[number].is_same(&others[number]) {
            return false;
        }
    }
    true
}
