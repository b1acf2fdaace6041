//! Replacements in a text.

ghost use Rattle.std.specs.Prelude.{◌≡◌, true};
ghost use Rattle.snl_alike.specs.Edits.{Rise, edits_of};

/// Other bytes in the place of those of a text from `start` up to `stop`.
#[derive(Clone, Copy, Debug)]
pub struct Replacement<'a> {
    pub start: usize,
    pub stop: usize,
    pub new: &'a [u8],
}

/// Whether replacements follow one another, up to a place.
pub fn rise(replacements: &[Replacement<'_>], end: usize) -> bool
    ensures { result ≡ true → Rise 0 end (edits_of replacements.now) }
{
    let mut base = 0;
    for replacement in replacements {
        if replacement.start < base || replacement.stop < replacement.start {
            return false;
        }
        base = replacement.stop;
    }
    base <= end
}
