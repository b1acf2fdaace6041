//! Readers and writers of tests, which give and take few bytes a call and fail at a call.
//! Out: the same bytes, in other pieces, up to the failure.

ghost use Rattle.std.specs.Prelude.{◌<◌, Some};

use std::cell::Cell;
use std::io;
use std::io::{ErrorKind, Read, Write};

/// Gives at most so many bytes a call, and fails once so many calls were made.
pub struct Pieces<'a> {
    bytes: &'a [u8],
    most: usize,
    calls: u64,
    ghost some: { 0 < most },
}

impl<'a> Pieces<'a> {
    pub fn new(bytes: &'a [u8], most: usize, calls: u64) -> Pieces<'a>
        requires { 0 < most }
    {
        Pieces { bytes, most, calls }
    }
}

impl Drop for Pieces<'_> {
    fn drop(self) {
        let Pieces {
            bytes: _,
            most: _,
            calls: _,
        } = self;
    }
}

impl Read for Pieces<'_> {
    ghost remaining = { λ p. Some p.bytes.now };

    fn read(&mut self, buf: &mut [u8]) -> io::Result<usize> {
        if self.calls == 0 {
            return Err(io::Error::new(ErrorKind::Other, "no more"));
        }
        self.calls -= 1;
        let n = buf.len().min(self.most).min(self.bytes.len());
        let (front, back) = self.bytes.split_at(n);
        buf[..n].copy_from_slice(front);
        self.bytes = back;
        Ok(n)
    }
}

/// How a writer fails.
#[derive(Clone, Copy)]
pub enum Failure {
    Error,
    TakesNothing,
}

/// Takes at most so many bytes a call, and fails once so many calls were made.
#[derive(Drop)]
pub struct Takes {
    taken: Vec<u8>,
    most: usize,
    calls: u64,
    failure: Failure,
}

impl Takes {
    pub fn new(taken: Vec<u8>, most: usize, calls: u64, failure: Failure) -> Takes {
        Takes {
            taken,
            most,
            calls,
            failure,
        }
    }

    pub fn taken(&self) -> &[u8] {
        &self.taken
    }
}

impl Write for Takes {
    ghost contents = { λ t. Some t.taken.items };

    fn write(&mut self, buf: &[u8]) -> io::Result<usize> {
        if self.calls == 0 {
            return match self.failure {
                Failure::Error => Err(io::Error::new(ErrorKind::Other, "no more")),
                Failure::TakesNothing => Ok(0),
            };
        }
        self.calls -= 1;
        let n = buf.len().min(self.most);
        self.taken.extend_from_slice(&buf[..n])?;
        Ok(n)
    }

    fn flush(&mut self) -> io::Result<()> {
        Ok(())
    }
}

/// Gives the same bytes again and again, one a call.
pub struct Endless<'a> {
    bytes: &'a [u8],
    at: usize,
}

impl<'a> Endless<'a> {
    pub fn new(bytes: &'a [u8]) -> Endless<'a> {
        Endless { bytes, at: 0 }
    }
}

impl Drop for Endless<'_> {
    fn drop(self) {
        let Endless { bytes: _, at: _ } = self;
    }
}

impl Read for Endless<'_> {
    fn read(&mut self, buf: &mut [u8]) -> io::Result<usize> {
        if self.at >= self.bytes.len() {
            self.at = 0;
        }
        if let (Some(slot), Some(byte)) = (buf.first_mut(), self.bytes.get(self.at)) {
            *slot = *byte;
            self.at += 1;
            return Ok(1);
        }
        Ok(0)
    }
}

/// Gives a command a call, and sees at each call whether as many bytes were written as should be.
pub struct Asking<'a> {
    commands: &'a [&'a [u8]],
    expected: &'a [usize],
    written: &'a Cell<usize>,
    at: usize,
    answered: bool,
}

impl<'a> Asking<'a> {
    pub fn new(
        commands: &'a [&'a [u8]],
        expected: &'a [usize],
        written: &'a Cell<usize>,
    ) -> Asking<'a> {
        Asking {
            commands,
            expected,
            written,
            at: 0,
            answered: true,
        }
    }

    /// Whether each call found what was expected, and all commands were given.
    pub fn was_answered(&self) -> bool {
        self.answered && self.at == self.expected.len()
    }
}

impl Drop for Asking<'_> {
    fn drop(self) {
        let Asking {
            commands: _,
            expected: _,
            written: _,
            at: _,
            answered: _,
        } = self;
    }
}

impl Read for Asking<'_> {
    fn read(&mut self, buf: &mut [u8]) -> io::Result<usize> {
        if self.expected.get(self.at).copied() != Some(self.written.get()) {
            self.answered = false;
        }
        let command: &[u8] = match self.commands.get(self.at) {
            None => b"",
            Some(command) => command,
        };
        self.at = self.at.saturating_add(1);
        let n = buf.len().min(command.len());
        buf[..n].copy_from_slice(&command[..n]);
        Ok(n)
    }
}

/// Takes all bytes, and counts them.
pub struct Telling<'a> {
    written: &'a Cell<usize>,
}

impl<'a> Telling<'a> {
    pub fn new(written: &'a Cell<usize>) -> Telling<'a> {
        Telling { written }
    }
}

impl Drop for Telling<'_> {
    fn drop(self) {
        let Telling { written: _ } = self;
    }
}

impl Write for Telling<'_> {
    fn write(&mut self, buf: &[u8]) -> io::Result<usize> {
        self.written
            .set(self.written.get().saturating_add(buf.len()));
        Ok(buf.len())
    }

    fn flush(&mut self) -> io::Result<()> {
        Ok(())
    }
}
