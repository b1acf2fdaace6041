//! Readers and writers that are watched.
//! In: a reader or a writer. Out: the same, with the number of its calls and whether one failed.
//! No clause says that each call asks what is watched: the test `watches_each_call` shows it.
//! Knows nothing of scripts and answers.
ghost use Rattle.std.specs.Prelude.{◌≡◌, ℕ, ◌+◌, ◌-◌, ◌^◌, ◌||◌, min, length, false, is_err};
ghost use Rattle.std.specs.Io.{ReadsAtMost, WritesAtMost};
ghost use Rattle.std.specs.Io.KnownBytes.{Keeps, ReadConsumes, WriteAppends};

use std::io;
use std::io::{Read, Write};

/// A reader or a writer whose calls are counted, and which knows whether one of them failed.
#[derive(Drop)]
pub struct Watched<T> {
    inner: T,
    calls: u64,
    failed: bool,
    // No call, no failure.
    ghost unused: { calls ≡ 0 → failed ≡ false },
}

impl<T> Watched<T> {
    ghost use Rattle.snl_script.specs.Watched.{calls_of, failed_of, inner_of};

    /// Watches a reader or a writer from now on.
    pub fn new(inner: T) -> Watched<T>
        ensures inner { inner_of result ≡ inner }
        ensures calls { calls_of result ≡ 0 }
        ensures failed { failed_of result ≡ false }
    {
        Watched {
            inner,
            calls: 0,
            failed: false,
        }
    }

    /// What is watched.
    pub fn inner(&self) -> &T
        ensures { result.now ≡ inner_of self.now }
    {
        &self.inner
    }

    /// How many calls of `read` and `write` there were. It stays at the greatest u64.
    pub fn calls(&self) -> u64
        ensures { result ≡ calls_of self.now }
    {
        self.calls
    }

    /// Whether a call answered an `Err`, or a write of some bytes took none of them.
    pub fn failed(&self) -> bool
        ensures { result ≡ failed_of self.now }
    {
        self.failed
    }
}

impl<R: Read> Read for Watched<R> {
    ghost use Rattle.snl_script.specs.Watched.{calls_of, failed_of, inner_of};

    ghost remaining = { λ w. R.remaining (inner_of w) };

    /// Counts the call, and notes whether it failed.
    fn read(&mut self, buf: &mut [u8]) -> io::Result<usize>
        ensures bound { ReadsAtMost result buf.new }
        ensures bytes { ReadConsumes (R.remaining (inner_of self.old)) (R.remaining (inner_of self.new)) result buf.new }
        ensures calls { calls_of self.new ≡ min (calls_of self.old + 1) (2 ^ 64 - 1) }
        ensures failed { failed_of self.new ≡ (failed_of self.old || is_err result) }
    {
        self.calls = self.calls.saturating_add(1);
        let result = self.inner.read(buf);
        if result.is_err() {
            self.failed = true;
        }
        result
    }
}

impl<W: Write> Write for Watched<W> {
    ghost use Rattle.snl_script.specs.Watched.{calls_of, failed_of, inner_of, write_failed};

    ghost contents = { λ w. W.contents (inner_of w) };

    /// Counts the call, and notes whether it failed.
    fn write(&mut self, buf: &[u8]) -> io::Result<usize>
        ensures bound { WritesAtMost result buf.now }
        ensures bytes { WriteAppends (W.contents (inner_of self.old)) (W.contents (inner_of self.new)) result buf.now }
        ensures calls { calls_of self.new ≡ min (calls_of self.old + 1) (2 ^ 64 - 1) }
        ensures failed { failed_of self.new ≡ (failed_of self.old || write_failed result (length buf.now)) }
    {
        self.calls = self.calls.saturating_add(1);
        let result = self.inner.write(buf);
        match &result {
            Ok(n) => {
                if *n == 0 && !buf.is_empty() {
                    self.failed = true;
                }
            }
            Err(_) => self.failed = true,
        }
        result
    }

    /// No call that is counted, and no failure.
    fn flush(&mut self) -> io::Result<()>
        ensures bytes { Keeps (W.contents (inner_of self.old)) (W.contents (inner_of self.new)) }
        ensures calls { calls_of self.new ≡ calls_of self.old }
        ensures failed { failed_of self.new ≡ failed_of self.old }
    {
        self.inner.flush()
    }
}
