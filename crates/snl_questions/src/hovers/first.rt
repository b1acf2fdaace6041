//! A few of many: of how many something is said, and that there are more.

ghost use Rattle.std.specs.Prelude.{◌≡◌, ◌++◌, OnOk, length, nat_lt, take};
ghost use Rattle.snl_questions.specs.Hover.{further, more, most};

use std::alloc::AllocError;

/// Of so many something is said at most.
const MOST: usize = 8;

/// The first ones, of which something is said.
#[tactic(auto, using(std::proofs::lemmas::List::take_min))]
pub fn first_of<T>(all: &[T]) -> &[T]
    ensures { result.now ≡ take most all.now }
{
    &all[..MOST.min(all.len())]
}

/// Whether there are more than these.
pub fn are_more<T>(all: &[T]) -> bool
    ensures { result ≡ nat_lt most (length all.now) }
{
    all.len() > MOST
}

/// A line that says that there are more, where there are, after the lines that are there.
pub fn put_more<T>(out: &mut Vec<u8>, all: &[T]) -> Result<(), AllocError>
    ensures { OnOk result (out.new.items ≡ out.old.items ++ further (more all.now)) }
{
    if are_more(all) {
        out.extend_from_slice(b"\n..")?;
    }
    Ok(())
}
