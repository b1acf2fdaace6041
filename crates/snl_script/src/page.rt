//! Bytes on their way to a writer.
//! In: bytes in any pieces. Out: few large writes of a watched writer.
//! Takes no memory. Knows nothing of what the bytes say.
#![tactic(auto)]

ghost use Rattle.std.specs.Prelude.{◌≡◌, ℕ, ◌+◌, ◌≤◌, ◌||◌, [], ◌++◌, List, length, take, flat_map, is_err, OnOk};
ghost use Rattle.snl_script.specs.Said.{Said, Written};
ghost use Rattle.snl_script.specs.Watched.{failed_of, inner_of};

use crate::watched::Watched;
use std::io::Write;
use std::marker::Model;

/// How many bytes a page holds.
const PAGE: usize = 1024;

/// The writer failed.
#[derive(Clone, Copy, Debug, PartialEq, Eq)]
pub struct WriteFault;

/// Bytes that were said and are not written yet.
#[derive(Drop)]
pub struct Page {
    bytes: [u8; PAGE],
    length: usize,
}

impl Model for Page {
    ghost use Rattle.std.specs.Prelude.{ℕ, ◌≤◌, List, take};

    ghost Value = { List ℕ };

    ghost view = { λ p. take p.length p.bytes };

    ghost invariant = { λ p. p.length ≤ 1024 };
}

/// Writes all of the bytes, in as many calls as it takes.
pub fn write_out<W: Write>(out: &mut Watched<W>, bytes: &[u8]) -> Result<(), WriteFault>
    ensures written { Written result (W.contents (inner_of out.old)) (W.contents (inner_of out.new)) bytes.now }
    ensures failed { failed_of out.new ≡ (failed_of out.old || is_err result) }
{
    let mut at = 0;
    while at < bytes.len() {
        match out.write(&bytes[at..]) {
            Ok(0) => return Err(WriteFault),
            Ok(n) => at += n,
            Err(_) => return Err(WriteFault),
        }
    }
    Ok(())
}

impl Page {
    pub fn new() -> Page
        ensures { result ≡ [] }
    {
        Page {
            bytes: [0; PAGE],
            length: 0,
        }
    }

    /// Writes what is on the page, which is empty then.
    pub fn finish<W: Write>(&mut self, out: &mut Watched<W>) -> Result<(), WriteFault>
        ensures written { Written result (W.contents (inner_of out.old)) (W.contents (inner_of out.new)) self.old }
        ensures empty { OnOk result (self.new ≡ []) }
        ensures failed { failed_of out.new ≡ (failed_of out.old || is_err result) }
    {
        write_out(out, &self.bytes[..self.length])?;
        self.length = 0;
        Ok(())
    }

    /// Puts bytes that fit after those on the page.
    fn keep(&mut self, bytes: &[u8])
        requires { length self.old + length bytes.now ≤ 1024 }
        ensures { self.new ≡ self.old ++ bytes.now }
    {
        let end = self.length + bytes.len();
        self.bytes[self.length..end].copy_from_slice(bytes);
        self.length = end;
    }

    /// Says bytes: they are after those on the page, of which some may be written first.
    pub fn put<W: Write>(&mut self, out: &mut Watched<W>, bytes: &[u8]) -> Result<(), WriteFault>
        ensures said { Said result (W.contents (inner_of out.old)) (W.contents (inner_of out.new)) self.new (self.old ++ bytes.now) }
        ensures failed { failed_of out.new ≡ (failed_of out.old || is_err result) }
    {
        if bytes.len() <= PAGE - self.length {
            self.keep(bytes);
            return Ok(());
        }
        self.finish(out)?;
        if bytes.len() <= PAGE {
            self.keep(bytes);
            return Ok(());
        }
        write_out(out, bytes)
    }

    /// Says pieces, one after another.
    pub fn put_all<W: Write>(
        &mut self,
        out: &mut Watched<W>,
        pieces: &[&[u8]],
    ) -> Result<(), WriteFault>
        ensures said { Said result (W.contents (inner_of out.old)) (W.contents (inner_of out.new)) self.new
            (self.old ++ flat_map (λ piece. piece.now) pieces.now) }
        ensures failed { failed_of out.new ≡ (failed_of out.old || is_err result) }
    {
        for piece in pieces {
            self.put(out, piece)?;
        }
        Ok(())
    }
}
