//! Edits that a seed alone defines.
//! In: a text. Out: the next edit of it, at times one that has to be refused.

use crate::numbers::Numbers;
use crate::parts::{PARTS, PROGRAM};
use anyhow::Result;
use std::alloc::Global;

// A text that is longer becomes the first program again.
const MOST: usize = 3000;

/// The bytes from `start` up to `stop` become `new`.
#[derive(Drop)]
pub struct Edit {
    pub start: usize,
    pub stop: usize,
    pub new: Vec<u8>,
}

// What an edit does.
enum Kind {
    Insert,
    Delete,
    Replace,
    Copy,
    Type,
    Miss,
}

fn kind_of(number: usize) -> Kind {
    match number {
        0 | 1 => Kind::Insert,
        2 | 3 => Kind::Delete,
        4 => Kind::Replace,
        5 => Kind::Copy,
        6 => Kind::Miss,
        _ => Kind::Type,
    }
}

fn any_part(numbers: &mut Numbers) -> &'static [u8] {
    PARTS
        .get(numbers.below(PARTS.len()))
        .copied()
        .unwrap_or(b"")
}

// A byte that can be seen, or a space.
fn any_byte(numbers: &mut Numbers) -> u8 {
    u8::try_from(numbers.below(95))
        .unwrap_or(0)
        .wrapping_add(32)
}

/// The next edit of a text.
pub fn next_edit(alloc: Global, numbers: &mut Numbers, text: &[u8]) -> Result<Edit> {
    let size = text.len();
    if size > MOST || numbers.below(200) == 0 {
        let new = Vec::from_slice(alloc, PROGRAM)?;
        return Ok(Edit {
            start: 0,
            stop: size,
            new,
        });
    }
    let start = numbers.below(size.saturating_add(1));
    let near = start.saturating_add(numbers.below(12)).min(size);
    let (stop, new) = match kind_of(numbers.below(12)) {
        Kind::Insert => (start, any_part(numbers)),
        Kind::Delete => (near, b"".as_slice()),
        Kind::Replace => (near, any_part(numbers)),
        Kind::Copy => {
            let from = numbers.below(size);
            let to = from.saturating_add(numbers.below(80)).min(size);
            (start, text.get(from..to).unwrap_or(&[]))
        }
        Kind::Type => return typed(alloc, start, any_byte(numbers)),
        Kind::Miss => (size.saturating_add(1), b"x".as_slice()),
    };
    Ok(Edit {
        start,
        stop,
        new: Vec::from_slice(alloc, new)?,
    })
}

fn typed(alloc: Global, at: usize, byte: u8) -> Result<Edit> {
    Ok(Edit {
        start: at,
        stop: at,
        new: Vec::from_slice(alloc, &[byte])?,
    })
}
