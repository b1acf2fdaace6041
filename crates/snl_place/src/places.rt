//! Places in one line, counted byte by byte.
//! In: the bytes of a line from some byte on, and a count of code units. Out: how many units the
//! bytes count, or the offset at which so many are counted.
//! It knows nothing of where lines begin.

ghost use Rattle.snl_place.specs.Places.{ends_line, offset_in, units};
ghost use Rattle.std.specs.Prelude.{◌≡◌, ℕ, ◌+◌, ◌^◌, ◌≤◌, ◌<◌, length, sum_by};
ghost use Rattle.std.specs.Str.{IsCharBoundary};

/// What a place counts in its line: the code units of UTF-8 or of UTF-16. The protocol's default is
/// UTF-16; a client may offer UTF-8.
#[derive(Clone, Copy, Debug, PartialEq, Eq)]
pub enum Encoding {
    Utf8,
    Utf16,
}

/// A place between two characters of a text: the number of its line, and how many code units of
/// that line are before it. Both begin with 0.
#[derive(Clone, Copy, Debug, PartialEq, Eq)]
pub struct Place {
    pub line: usize,
    pub character: usize,
}

// How many code units a byte counts.
fn units(encoding: Encoding, byte: u8) -> usize
    ensures value { result ≡ units encoding byte }
    ensures few { result ≤ 4 }
{
    match encoding {
        Encoding::Utf8 => match byte {
            0..=127 => 1,
            128..=191 => 0,
            192..=223 => 2,
            224..=239 => 3,
            240..=255 => 4,
        },
        Encoding::Utf16 => match byte {
            0..=127 => 1,
            128..=191 => 0,
            192..=239 => 1,
            240..=255 => 2,
        },
    }
}

// A line ends at this byte, which has that one after it.
fn ends_line(byte: u8, next: Option<u8>) -> bool
    ensures { result ≡ ends_line byte next }
{
    match next {
        Some(next) => byte == b'\n' || byte == b'\r' && next == b'\n',
        None => byte == b'\n',
    }
}

// How many code units bytes count.
pub fn units_in(encoding: Encoding, bytes: &[u8]) -> usize
    requires { length bytes.now < 2 ^ 32 }
    ensures { result ≡ sum_by (units encoding) bytes.now }
{
    bytes.iter().map(|byte| units(encoding, *byte)).sum()
}

// The offset of a character of the line that begins with these bytes. One after the line's end is
// at that end, before its CR if it has one. One in a character is at that character's first byte.
pub fn offset_in_line(encoding: Encoding, bytes: &[u8], character: usize) -> usize
    ensures offset { result ≡ offset_in encoding 0 character bytes.now }
    ensures boundary { IsCharBoundary bytes.now result }
{
    let mut left = character;
    for (i, byte) in bytes.iter().enumerate() {
        let width = units(encoding, *byte);
        if width > left || ends_line(*byte, bytes.get(i + 1).copied()) {
            return i;
        }
        left -= width;
    }
    bytes.len()
}
