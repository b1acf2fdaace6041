//! The changes of one message, made in the text of a document.
//! In: a text with its line ends, or a draft, and changes of it. Out: the splice that one change
//! is, or the draft after them.
//! Knows nothing of documents.

ghost use Rattle.std.specs.Prelude.{◌≡◌, ◌≤◌, IfOk, MatchOption, None, Some, length, map, option_map};
ghost use Rattle.snl_lex.specs.LineList.{line_ends};
ghost use Rattle.snl_hear.specs.Changes.{changed_of};
ghost use Rattle.snl_lex.specs.Edit.{spliced};
ghost use Rattle.snl_document.specs.Splices.{IsSpliceOf};
ghost use Rattle.snl_document.specs.Texts.{changed, changed_by_all, changed_part};

use snl_cut::OutOfMemory;
use snl_hear::Change;
use snl_place::{Draft, Encoding, Splice, offset_by};
use std::alloc::Global;

/// What a change does to a text, in bytes. None where its range ends before it begins.
pub fn splice_of<'a>(
    encoding: Encoding,
    text: &[u8],
    ends: &[usize],
    change: &Change<'a>,
) -> Option<Splice<'a>>
    requires { ends.now ≡ line_ends text.now }
    ensures { MatchOption result (changed_part encoding (changed_of change.now) text.now ≡ None)
        (IsSpliceOf encoding text.now (changed_of change.now)) }
{
    match *change {
        Change::Whole(new) => Some(Splice {
            start: 0,
            stop: text.len(),
            new: new.as_bytes(),
        }),
        Change::Part {
            start,
            stop,
            text: new,
        } => {
            let start = offset_by(encoding, text, ends, start);
            let stop = offset_by(encoding, text, ends, stop);
            if stop < start {
                return None;
            }
            Some(Splice {
                start,
                stop,
                new: new.as_bytes(),
            })
        }
    }
}

/// Makes a change of a part in a draft.
fn change_part(
    mut draft: Draft,
    encoding: Encoding,
    change: &Change<'_>,
) -> Result<Option<Draft>, OutOfMemory>
    ensures { IfOk result (λ d. d ≡ changed_part encoding (changed_of change.now) draft) }
{
    match splice_of(encoding, draft.text(), draft.line_ends(), change) {
        Some(splice) => {
            draft.splice(splice.start, splice.stop, splice.new)?;
            Ok(Some(draft))
        }
        None => Ok(None),
    }
}

/// Makes a change in a draft, or of one, where the text isn't known.
fn change_draft(
    alloc: Global,
    draft: Option<Draft>,
    encoding: Encoding,
    change: &Change<'_>,
) -> Result<Option<Draft>, OutOfMemory>
    ensures { IfOk result (λ d. d ≡ changed encoding draft (changed_of change.now)) }
{
    if let Change::Whole(text) = change {
        return Ok(Some(Draft::of(alloc, text.as_bytes())?));
    }
    match draft {
        Some(draft) => change_part(draft, encoding, change),
        None => Ok(None),
    }
}

/// Makes changes in a draft, one after another.
pub fn change_draft_by_all(
    alloc: Global,
    draft: Option<Draft>,
    encoding: Encoding,
    changes: &[Change<'_>],
) -> Result<Option<Draft>, OutOfMemory>
    ensures { IfOk result (λ d. d
        ≡ changed_by_all encoding draft (map (λ change. changed_of change) changes.now)) }
{
    let mut draft = draft;
    for change in changes {
        draft = change_draft(alloc, draft, encoding, change)?;
    }
    Ok(draft)
}
