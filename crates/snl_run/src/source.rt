//! The source that a file holds.
//! In: a watched reader. Out: all its bytes, if a text may have as many.
//! Knows nothing of paths and of the command line.
#![tactic(auto)]

ghost use Rattle.std.specs.Prelude.{◌≡◌, ℕ, ◌+◌, ◌≤◌, ◌<◌, ◌||◌, length, IfOk, IfSome, IsErrOf};
ghost use Rattle.snl_session.specs.Edit.{limit};
ghost use Rattle.snl_script.specs.File.{GivesAtMost, is_unreadable};
ghost use Rattle.snl_script.specs.Watched.{calls_of, failed_of, inner_of};

use snl_script::{SourceFault, Watched, read_whole};
use std::alloc::Global;
use std::io::Read;

/// A text has so many bytes at most.
pub(crate) const LIMIT: usize = 1_048_576;

/// Reads the source that a file holds. A read that answers an `Err` of any kind makes the file
/// unreadable.
pub fn read_source<R: Read>(alloc: Global, file: &mut Watched<R>) -> Result<Vec<u8>, SourceFault>
    // All the bytes of the file, or none.
    ensures whole { IfOk result (λ source. IfSome (R.remaining (inner_of file.old)) (λ all. source.items ≡ all)) }
    ensures fits { IfOk result (λ source. length source.items ≤ limit) }
    ensures large { IsErrOf result SourceFault.TooLarge → IfSome (R.remaining (inner_of file.old)) (λ all. limit < length all) }
    ensures unreadable { failed_of file.new ≡ (failed_of file.old || is_unreadable result) }

    // However long the file is, its first byte over the limit is the last that is read.
    ensures few { GivesAtMost (R.remaining (inner_of file.old)) (R.remaining (inner_of file.new)) (limit + 1) }
    ensures calls { calls_of file.new ≤ calls_of file.old + (limit + 1) }
{
    read_whole(alloc, LIMIT, file)
}
