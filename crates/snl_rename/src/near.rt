//! The name that a rename would change. In: what is kept of a text, and an offset. Out: the span of
//! the name near it.

ghost use Rattle.std.specs.Prelude.{◌≡◌, IfOk, position};
ghost use Rattle.snl_kept.specs.Kept.{IsListed};
ghost use Rattle.snl_rename.specs.Near.{name_near, touched_in, touches};

use snl_cut::OutOfMemory;
use snl_kept::Lists;
use snl_questions::{Reference, references};
use snl_tables::Span;
use std::alloc::Global;

// Whether an offset is in a reference, or right after its last byte.
fn touches(offset: usize, reference: &Reference) -> bool
    ensures { result ≡ touches offset reference.now }
{
    let span = reference.span;
    span.start <= offset && offset - span.start <= span.len
}

// The number of the first such reference.
fn number_touched(references: &[Reference], offset: usize) -> Option<usize>
    ensures { result ≡ position (touches offset) references.now }
{
    references
        .iter()
        .position(|reference| touches(offset, reference))
}

fn touched_in(references: &[Reference], offset: usize) -> Option<Span>
    ensures { result ≡ touched_in references.now offset }
{
    let number = number_touched(references, offset)?;
    let reference = references.get(number)?;
    Some(reference.span)
}

/// The span of the name near an offset, if it means something. The only error is want of memory;
/// the time is that of the text's tokens.
pub fn name_near<'a>(
    alloc: Global,
    text: &'a [u8],
    lists: &'a Lists,
    offset: usize,
) -> Result<Option<Span>, OutOfMemory>
    requires { IsListed text.now lists.now }
    ensures { IfOk result (λ span. span ≡ name_near text.now offset) }
{
    let references = references(alloc, text, lists, offset)?;
    Ok(touched_in(&references, offset))
}
