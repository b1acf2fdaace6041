//! The edits of a rename, as they are proposed. In: references and a name. Out: an edit for each.

ghost use Rattle.std.specs.Prelude.{◌≡◌, IfOk, IfSome, map};
ghost use Rattle.snl_alike.specs.Edits.{edit_of, edits_of};
ghost use Rattle.snl_rename.specs.Renaming.{edit_to};

use snl_alike::Replacement;
use snl_cut::OutOfMemory;
use snl_questions::Reference;
use std::alloc::Global;

fn edit_to<'a>(reference: &Reference, name: &'a [u8]) -> Option<Replacement<'a>>
    ensures { IfSome result (λ edit. edit_of edit ≡ edit_to name.now reference.now) }
{
    let start = reference.span.start;
    let stop = start.checked_add(reference.span.len)?;
    Some(Replacement {
        start,
        stop,
        new: name,
    })
}

/// The name in the place of each reference, if all places are numbers.
pub fn proposed<'a>(
    alloc: Global,
    references: &[Reference],
    name: &'a [u8],
) -> Result<Option<Vec<Replacement<'a>>>, OutOfMemory>
    ensures { IfOk result (λ made. IfSome made
        (λ edits. edits_of edits.items ≡ map (edit_to name.now) references.now)) }
{
    let mut edits = Vec::with_capacity(alloc, references.len())?;
    for reference in references {
        let Some(edit) = edit_to(reference, name) else {
            return Ok(None);
        };
        edits.push(edit)?;
    }
    Ok(Some(edits))
}
