//! A text and an edit of it come in; the new text, or why the edit has to be refused, goes out.

use snl_session::Refused;
use std::alloc::{AllocError, Global};

// The number of bytes that a text has at most.
const LIMIT: usize = 1_048_576;

/// Why an edit has to be refused, that puts so many bytes in the place of those from `start` up to
/// `stop`.
pub fn refusal_of(text: &[u8], start: usize, stop: usize, added: usize) -> Option<Refused> {
    if start > stop || stop > text.len() {
        return Some(Refused::Range);
    }
    let kept = text.len().saturating_sub(stop.saturating_sub(start));
    if kept.saturating_add(added) > LIMIT {
        return Some(Refused::Size);
    }
    None
}

/// A text with other bytes in the place of those from `start` up to `stop`.
pub fn spliced(
    alloc: Global,
    text: &[u8],
    start: usize,
    stop: usize,
    new: &[u8],
) -> Result<Vec<u8>, AllocError> {
    let mut now = Vec::from_slice(alloc, text.get(..start).unwrap_or(&[]))?;
    now.extend_from_slice(new)?;
    now.extend_from_slice(text.get(stop..).unwrap_or(&[]))?;
    Ok(now)
}
