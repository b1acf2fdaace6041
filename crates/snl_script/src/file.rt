//! All the bytes that a file holds.
//! In: a watched reader, and how many bytes it may give. Out: all its bytes, if they are no more.
//! Knows nothing of paths and of what the bytes say.
#![tactic(auto)]

ghost use Rattle.std.specs.Prelude.{◌≡◌, ◌≢◌, ℕ, ◌+◌, ◌≤◌, ◌<◌, ◌||◌, length, true, false, IfOk, IfSome, IsErrOf};
ghost use Rattle.std.specs.Io.KnownBytes.{IsAtEnd};
ghost use Rattle.snl_script.specs.Ahead.{Gains};
ghost use Rattle.snl_script.specs.File.{GivesAtMost, is_unreadable};
ghost use Rattle.snl_script.specs.Watched.{calls_of, failed_of, inner_of};

use crate::watched::Watched;
use std::alloc::Global;
use std::io::Read;
use thiserror::Error;

/// One read gives at most so many bytes.
const CHUNK: usize = 4096;

/// Why a file gives no source.
#[derive(Clone, Copy, Debug, PartialEq, Eq, Error)]
pub enum SourceFault {
    /// It can't be opened, or a read failed.
    #[error("source cannot be read")]
    Unreadable,
    /// It holds more bytes than it may.
    #[error("source too large")]
    TooLarge,
    /// A growth was refused.
    #[error("out of memory")]
    Memory,
}

/// Reads once. `false` says that the file ends.
fn read_more<R: Read>(
    bytes: &mut Vec<u8>,
    most: usize,
    file: &mut Watched<R>,
) -> Result<bool, SourceFault>
    requires { length bytes.old.items ≤ most }
    ensures gains { Gains bytes.old.items bytes.new.items (R.remaining (inner_of file.old)) (R.remaining (inner_of file.new)) }
    ensures few { length bytes.new.items ≤ most + 1 }
    ensures more { result ≡ Ok true → length bytes.old.items < length bytes.new.items }
    ensures same { result ≢ Ok true → bytes.new.items ≡ bytes.old.items }
    ensures end { result ≡ Ok false → IsAtEnd (R.remaining (inner_of file.new)) }
    ensures fits { result ≢ Err SourceFault.TooLarge }
    ensures calls { calls_of file.new ≤ calls_of file.old + 1 }
    ensures failed { failed_of file.new ≡ (failed_of file.old || is_unreadable result) }
{
    let room = CHUNK.min((most - bytes.len()).saturating_add(1));
    bytes.reserve(room).map_err(|_| SourceFault::Memory)?;
    let mut chunk = [0u8; CHUNK];
    let n = file
        .read(&mut chunk[..room])
        .map_err(|_| SourceFault::Unreadable)?;
    bytes
        .extend_from_slice(&chunk[..n])
        .map_err(|_| SourceFault::Memory)?;
    Ok(n > 0)
}

/// Reads all that a file holds, if it is at most so many bytes. A read that answers an `Err` of any
/// kind makes the file unreadable.
pub fn read_whole<R: Read>(
    alloc: Global,
    most: usize,
    file: &mut Watched<R>,
) -> Result<Vec<u8>, SourceFault>
    // All the bytes of the file, or none.
    ensures whole { IfOk result (λ source. IfSome (R.remaining (inner_of file.old)) (λ all. source.items ≡ all)) }
    ensures fits { IfOk result (λ source. length source.items ≤ most) }
    ensures large { IsErrOf result SourceFault.TooLarge → IfSome (R.remaining (inner_of file.old)) (λ all. most < length all) }
    ensures unreadable { failed_of file.new ≡ (failed_of file.old || is_unreadable result) }

    // However long the file is, its first byte over `most` is the last that is read.
    ensures few { GivesAtMost (R.remaining (inner_of file.old)) (R.remaining (inner_of file.new)) (most + 1) }
    ensures calls { calls_of file.new ≤ calls_of file.old + (most + 1) }
{
    let mut bytes = Vec::new(alloc);
    'reads: while bytes.len() <= most {
        if !read_more(&mut bytes, most, file)? {
            // The list grew by doubling: room for as much again may be left.
            bytes.shrink_to_fit();
            return Ok(bytes);
        }
    }
    Err(SourceFault::TooLarge)
}
