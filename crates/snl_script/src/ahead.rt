//! The bytes of a script that were read and not carried out yet.
//! In: a watched reader. Out: its bytes, in order, as many as were read.
//! Knows nothing of commands.
#![tactic(auto)]

ghost use Rattle.std.specs.Prelude.{◌≡◌, ◌≢◌, ℕ, ◌+◌, ◌==◌, ◌≤◌, ◌<◌, ◌||◌, [], List, length, drop, Err, Ok, IfOk, OnErr, OnOk, IsErrOf, true, false};
ghost use Rattle.std.specs.Io.KnownBytes.{IsAtEnd};
ghost use Rattle.snl_script.specs.Ahead.{Gains, is_failed_read};
ghost use Rattle.snl_script.specs.Watched.{calls_of, failed_of, inner_of};

use crate::watched::Watched;
use std::alloc::Global;
use std::io::Read;
use std::marker::Model;

/// A script is read so often at most.
const MAX_READS: u64 = 16_777_216;

/// One read gives at most so many bytes.
const CHUNK: usize = 4096;

/// Why no more bytes came.
#[derive(Clone, Copy, Debug, PartialEq, Eq)]
pub enum ReadFault {
    Read,
    Memory,
    TooManyTurns,
}

/// The bytes that were read and not carried out yet.
#[derive(Drop)]
pub struct Ahead {
    bytes: Vec<u8>,
    start: usize,
}

impl Model for Ahead {
    ghost use Rattle.std.specs.Prelude.{ℕ, ◌≤◌, List, drop, length};

    ghost Value = { List ℕ };

    ghost view = { λ a. drop a.start a.bytes.items };

    ghost invariant = { λ a. a.start ≤ length a.bytes.items };
}

impl Ahead {
    pub fn new(alloc: Global) -> Ahead
        ensures { result ≡ [] }
    {
        Ahead {
            bytes: Vec::new(alloc),
            start: 0,
        }
    }

    pub fn bytes(&self) -> &[u8]
        ensures { result.now ≡ self.now }
    {
        &self.bytes[self.start..]
    }

    /// Skips bytes at the front.
    pub fn skip(&mut self, count: usize)
        requires { count ≤ length self.old }
        ensures { self.new ≡ drop count self.old }
    {
        self.start += count;
    }

    /// Moves the bytes to the front of their buffer.
    fn close_up(&mut self)
        ensures { self.new ≡ self.old }
    {
        let left = self.bytes.len() - self.start;
        self.bytes.rotate_left(self.start);
        self.bytes.truncate(left);
        self.start = 0;
    }

    /// Reads once. `false` says that the script ends.
    pub fn read_more<R: Read>(&mut self, script: &mut Watched<R>) -> Result<bool, ReadFault>
        ensures gains { Gains self.old self.new (R.remaining (inner_of script.old)) (R.remaining (inner_of script.new)) }
        ensures few { length self.new ≤ length self.old + 4096 }
        ensures more { result ≡ Ok true → length self.old < length self.new }
        ensures end { result ≡ Ok false → IsAtEnd (R.remaining (inner_of script.new)) }
        ensures same { result ≢ Ok true → self.new ≡ self.old }
        ensures calls { OnOk result (calls_of script.new ≡ calls_of script.old + 1) }
        ensures most { calls_of script.old ≤ 16777216 → calls_of script.new ≤ 16777216 }
        ensures turns { IsErrOf result ReadFault.TooManyTurns → (16777216 ≤ calls_of script.old) × (calls_of script.new ≡ calls_of script.old) }
        ensures failed { failed_of script.new ≡ (failed_of script.old || is_failed_read result) }
    {
        self.read_more_within(script, MAX_READS)
    }

    /// The same, for a reader that may be read `limit` times.
    pub fn read_more_within<R: Read>(
        &mut self,
        script: &mut Watched<R>,
        limit: u64,
    ) -> Result<bool, ReadFault>
        ensures gains { Gains self.old self.new (R.remaining (inner_of script.old)) (R.remaining (inner_of script.new)) }
        ensures few { length self.new ≤ length self.old + 4096 }
        ensures more { result ≡ Ok true → length self.old < length self.new }
        ensures end { result ≡ Ok false → IsAtEnd (R.remaining (inner_of script.new)) }
        ensures same { result ≢ Ok true → self.new ≡ self.old }
        ensures calls { OnOk result (calls_of script.new ≡ calls_of script.old + 1) }
        ensures most { calls_of script.old ≤ limit → calls_of script.new ≤ limit }
        ensures turns { IsErrOf result ReadFault.TooManyTurns
            → (limit ≤ calls_of script.old) × (calls_of script.new ≡ calls_of script.old) }
        ensures failed { failed_of script.new ≡ (failed_of script.old || is_failed_read result) }
    {
        if script.calls() >= limit {
            return Err(ReadFault::TooManyTurns);
        }
        self.close_up();
        let mut chunk = [0u8; CHUNK];
        self.bytes.reserve(CHUNK).map_err(|_| ReadFault::Memory)?;
        let n = script.read(&mut chunk).map_err(|_| ReadFault::Read)?;
        self.bytes
            .extend_from_slice(&chunk[..n])
            .map_err(|_| ReadFault::Memory)?;
        Ok(n > 0)
    }
}
