//! What the front end does not read: C code, and lines of the preprocessor but for line markers.
//! In: a text, its pieces, and a word. Out: where a piece of these begins that has the word.

use crate::words::has_word;
use snl_lex::{Class, PieceList};

// What follows the blanks at the front.
fn after_blanks(bytes: &[u8]) -> &[u8] {
    let mut at = 0;
    while at < bytes.len() && (bytes[at] == b' ' || bytes[at] == b'\t') {
        at += 1;
    }
    &bytes[at..]
}

// Whether a `#` line says which line comes next.
fn is_line_marker(line: &[u8]) -> bool {
    let Some(rest) = line.get(1..) else {
        return false;
    };
    let rest = after_blanks(rest);
    let rest = match rest.strip_prefix(b"line") {
        Some(after) => after_blanks(after),
        None => rest,
    };
    match rest.first() {
        Some(first) => first.is_ascii_digit(),
        None => false,
    }
}

// Whether a piece is not read, and has the word.
fn hides(kind: Class, bytes: &[u8], word: &[u8]) -> bool {
    match kind {
        Class::CCode => has_word(bytes, word),
        Class::Marker => !is_line_marker(bytes) && has_word(bytes, word),
        _ => false,
    }
}

/// Where the first piece begins that is not read and has the word, if there is one.
pub fn unread_at(text: &[u8], pieces: &PieceList, word: &[u8]) -> Option<usize> {
    let mut start = 0;
    for (kind, end) in pieces.kinds.iter().zip(&pieces.ends) {
        let stop = *end as usize;
        let bytes = text.get(start..stop).unwrap_or(&[]);
        if hides(*kind, bytes, word) {
            return Some(start);
        }
        start = stop;
    }
    None
}
