//! What cuts: a front, which tells the length of the first member of a list, and may note more of
//! it.

ghost use Rattle.snl_cut.specs.Cut.{IsFront, IsLocal, ticked};
ghost use Rattle.std.specs.Prelude.{◌≡◌, ◌<◌, List, length, ℕ};

use crate::work::Count;

/// Tells how long the first member of a list of units is, by the member itself and the one unit
/// after it.
///
/// Each call counts as one piece of work.
pub trait Front {
    type Unit;

    ghost first_of: { List Self.Unit → ℕ };

    fn first(&self, rest: &[Self::Unit], work: &mut Count) -> usize
        requires { 0 < length rest.now }
        ensures length { result ≡ first_of rest.now }
        ensures ticks { work.new ≡ ticked work.old };

    ghost within: { IsFront first_of };

    ghost local: { IsLocal first_of };
}

/// A front that notes more of the first member than its length, such as its class, while it looks
/// at it.
pub trait Noting: Front {
    type Note: Copy;

    ghost note_of: { List Self.Unit → Self.Note };

    fn first_noted(&self, rest: &[Self::Unit], work: &mut Count) -> (usize, Self::Note)
        requires { 0 < length rest.now }
        ensures length { result.0 ≡ Self.first_of rest.now }
        ensures note { result.1 ≡ note_of rest.now }
        ensures ticks { work.new ≡ ticked work.old };
}

// A front that notes nothing.
#[derive(Clone, Copy)]
pub struct Plain<'a, F> {
    pub front: &'a F,
}

impl<F: Front> Front for Plain<'_, F> {
    type Unit = F::Unit;

    ghost first_of = { F.first_of };

    fn first(&self, rest: &[F::Unit], work: &mut Count) -> usize {
        self.front.first(rest, work)
    }

    ghost within = { F.within };

    ghost local = { F.local };
}

impl<F: Front> Noting for Plain<'_, F> {
    type Note = ();

    ghost note_of = { λ rest. tt };

    fn first_noted(&self, rest: &[F::Unit], work: &mut Count) -> (usize, ()) {
        (self.front.first(rest, work), ())
    }
}
