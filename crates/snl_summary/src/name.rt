//! Names of their own memory.

ghost use Rattle.std.specs.Prelude.{◌≡◌, ◌≤◌, IfOk, length};
ghost use Rattle.snl_summary.specs.HeldNames.{Fits, held_bytes};

use snl_cut::OutOfMemory;
use std::alloc::Global;
use std::marker::Model;

/// So many bytes of a name are held in place, and take no memory besides.
const SHORT: usize = 23;

/// The bytes of a short name, which are the first of a row, or those of a longer one.
#[derive(Debug, Drop)]
enum Held {
    Short { row: [u8; SHORT], count: u8 },
    Long(Vec<u8>),
}

/// A name, which contracts see as its bytes.
#[derive(Debug)]
pub struct Name {
    held: Held,
}

// By hand, so that whoever holds a name need not know how it is held to let it go.
impl Drop for Name {
    fn drop(self) {
        let Name { held: _ } = self;
    }
}

impl Model for Name {
    ghost use Rattle.std.specs.Prelude.{ℕ, List};
    ghost use Rattle.snl_summary.specs.HeldNames.{Fits, held_bytes};

    ghost Value = { List ℕ };

    ghost view = { λ a. held_bytes a.held };

    ghost invariant = { λ a. Fits a.held };
}

// The bytes of a short name, held in place.
fn short(bytes: &[u8]) -> Held
    requires { length bytes.now ≤ 23 }
    ensures bytes { held_bytes result ≡ bytes.now }
    ensures fits { Fits result }
{
    let mut row = [0u8; SHORT];
    row[..bytes.len()].copy_from_slice(bytes);
    Held::Short {
        row,
        count: bytes.len() as u8,
    }
}

impl Name {
    pub fn new(alloc: Global, bytes: &[u8]) -> Result<Name, OutOfMemory>
        ensures { IfOk result (λ n. n ≡ bytes.now) }
    {
        if bytes.len() <= SHORT {
            return Ok(Name { held: short(bytes) });
        }
        let held = Vec::from_slice(alloc, bytes)?;
        Ok(Name {
            held: Held::Long(held),
        })
    }

    pub fn bytes(&self) -> &[u8]
        ensures { result.now ≡ self.now }
    {
        match &self.held {
            Held::Short { row, count } => &row[..*count as usize],
            Held::Long(bytes) => bytes.as_slice(),
        }
    }
}
