//! Words of a text that is not read: letters, digits and `_` in a row. In: bytes and a word. Out:
//! whether it is among theirs.

ghost use Rattle.std.specs.Prelude.{◌≤◌, length};

use snl_facts::are_same_bytes;

/// Whether a byte is part of a word.
pub fn is_word_byte(byte: u8) -> bool {
    byte.is_ascii_alphanumeric() || byte == b'_'
}

// Where the word ends that begins at a place.
fn word_end(bytes: &[u8], from: usize) -> usize
    ensures low { from ≤ result }
    ensures inside { from ≤ length bytes.now → result ≤ length bytes.now }
{
    let mut end = from;
    while end < bytes.len() && is_word_byte(bytes[end]) {
        end += 1;
    }
    end
}

/// Whether one of their words is this one.
pub fn has_word(bytes: &[u8], word: &[u8]) -> bool {
    let mut at = 0;
    while at < bytes.len() {
        let end = word_end(bytes, at);
        if are_same_bytes(&bytes[at..end], word) {
            return true;
        }
        at = end + 1;
    }
    false
}
