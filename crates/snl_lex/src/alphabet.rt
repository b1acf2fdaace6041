//! What a byte says of the piece that it begins, and runs of like bytes.
//! In: bytes. Out: the start that a byte is; where a run ends.
//! It knows nothing of classes and of what comes before a byte.

ghost use Rattle.snl_lex.specs.Alphabet.{is_digit, is_digit_in, is_gap, is_in, is_in_line, is_plain, is_stray, is_white, is_word_byte, start_of};
ghost use Rattle.snl_lex.specs.Runs.{run_of};
ghost use Rattle.std.specs.Prelude.{◌≡◌, ◌+◌, ◌≤◌, drop, length, slice_index};

use Start::*;

// What a byte begins.
#[derive(Clone, Copy, PartialEq, Eq)]
pub enum Start {
    Blank,
    Letter,
    Digit,
    Dot,
    Hash,
    Slash,
    Percent,
    Quote,
    Apostrophe,
    Sign,
    Stray,
}

static STARTS: [Start; 256] = [
    Stray, Stray, Stray, Stray, Stray, Stray, Stray, Stray, Stray, Blank, Blank, Blank, Blank,
    Blank, Stray, Stray, Stray, Stray, Stray, Stray, Stray, Stray, Stray, Stray, Stray, Stray,
    Stray, Stray, Stray, Stray, Stray, Stray, Blank, Sign, Quote, Hash, Stray, Percent, Sign,
    Apostrophe, Sign, Sign, Sign, Sign, Sign, Sign, Dot, Slash, Digit, Digit, Digit, Digit, Digit,
    Digit, Digit, Digit, Digit, Digit, Sign, Sign, Sign, Sign, Sign, Sign, Stray, Letter, Letter,
    Letter, Letter, Letter, Letter, Letter, Letter, Letter, Letter, Letter, Letter, Letter, Letter,
    Letter, Letter, Letter, Letter, Letter, Letter, Letter, Letter, Letter, Letter, Letter, Letter,
    Sign, Stray, Sign, Sign, Letter, Stray, Letter, Letter, Letter, Letter, Letter, Letter, Letter,
    Letter, Letter, Letter, Letter, Letter, Letter, Letter, Letter, Letter, Letter, Letter, Letter,
    Letter, Letter, Letter, Letter, Letter, Letter, Letter, Sign, Sign, Sign, Sign, Stray, Stray,
    Stray, Stray, Stray, Stray, Stray, Stray, Stray, Stray, Stray, Stray, Stray, Stray, Stray,
    Stray, Stray, Stray, Stray, Stray, Stray, Stray, Stray, Stray, Stray, Stray, Stray, Stray,
    Stray, Stray, Stray, Stray, Stray, Stray, Stray, Stray, Stray, Stray, Stray, Stray, Stray,
    Stray, Stray, Stray, Stray, Stray, Stray, Stray, Stray, Stray, Stray, Stray, Stray, Stray,
    Stray, Stray, Stray, Stray, Stray, Stray, Stray, Stray, Stray, Stray, Stray, Stray, Stray,
    Stray, Stray, Stray, Stray, Stray, Stray, Stray, Stray, Stray, Stray, Stray, Stray, Stray,
    Stray, Stray, Stray, Stray, Stray, Stray, Stray, Stray, Stray, Stray, Stray, Stray, Stray,
    Stray, Stray, Stray, Stray, Stray, Stray, Stray, Stray, Stray, Stray, Stray, Stray, Stray,
    Stray, Stray, Stray, Stray, Stray, Stray, Stray, Stray, Stray, Stray, Stray, Stray, Stray,
    Stray, Stray, Stray, Stray, Stray, Stray, Stray, Stray, Stray, Stray,
];

pub fn start_of(byte: u8) -> Start
    ensures { result ≡ start_of byte }
{
    STARTS[byte as usize]
}

// What digits count in.
#[derive(Clone, Copy, PartialEq, Eq)]
pub enum NumberBase {
    Octal,
    Decimal,
    Hexadecimal,
}

// A set of bytes that a run has.
#[derive(Clone, Copy, PartialEq, Eq)]
pub enum Set {
    Blanks,
    NameBytes,
    LineBytes,
    Strays,
    Gaps,
    Plains,
    Digits(NumberBase),
}

pub fn is_blank(byte: u8) -> bool
    ensures { result ≡ is_white byte }
{
    matches!(start_of(byte), Blank)
}

pub fn is_word_byte(byte: u8) -> bool
    ensures { result ≡ is_word_byte byte }
{
    matches!(start_of(byte), Letter | Digit)
}

fn is_stray(byte: u8) -> bool
    ensures { result ≡ is_stray byte }
{
    matches!(start_of(byte), Stray)
}

#[tactic(auto, unfolding(crate::specs::Alphabet::is_in_line))]
fn is_in_line(byte: u8) -> bool
    ensures { result ≡ is_in_line byte }
{
    byte != b'\n'
}

#[tactic(auto, unfolding(crate::specs::Alphabet::is_gap))]
pub fn is_gap(byte: u8) -> bool
    ensures { result ≡ is_gap byte }
{
    byte == b' ' || byte == b'\t'
}

#[tactic(auto, unfolding(crate::specs::Alphabet::is_digit))]
pub fn is_digit(byte: u8) -> bool
    ensures { result ≡ is_digit byte }
{
    matches!(byte, b'0'..=b'9')
}

#[tactic(auto, unfolding(crate::specs::Alphabet::is_plain, crate::specs::Alphabet::is_digit))]
pub fn is_plain(byte: u8) -> bool
    ensures { result ≡ is_plain byte }
{
    matches!(byte, b'0'..=b'9' | b'.')
}

#[tactic(auto, unfolding(crate::specs::Alphabet::is_digit, crate::specs::Alphabet::is_octal_digit, crate::specs::Alphabet::is_hexadecimal_digit))]
fn is_digit_in(base: NumberBase, byte: u8) -> bool
    ensures { result ≡ is_digit_in base byte }
{
    match base {
        NumberBase::Octal => matches!(byte, b'0'..=b'7'),
        NumberBase::Decimal => is_digit(byte),
        NumberBase::Hexadecimal => matches!(byte, b'0'..=b'9' | b'a'..=b'f' | b'A'..=b'F'),
    }
}

fn is_in(set: Set, byte: u8) -> bool
    ensures { result ≡ is_in set byte }
{
    match set {
        Set::Blanks => is_blank(byte),
        Set::NameBytes => is_word_byte(byte),
        Set::LineBytes => is_in_line(byte),
        Set::Strays => is_stray(byte),
        Set::Gaps => is_gap(byte),
        Set::Plains => is_plain(byte),
        Set::Digits(base) => is_digit_in(base, byte),
    }
}

/// Where the run of bytes of the set ends that begins at `from`.
pub fn run_end(bytes: &[u8], from: usize, set: Set) -> usize
    requires { from ≤ length bytes.now }
    ensures end { result ≡ from + run_of (is_in set) (drop from bytes.now) }
    ensures inside { result ≤ length bytes.now }
{
    let mut end = from;
    while end < bytes.len() && is_in(set, bytes[end]) {
        end += 1;
    }
    end
}

/// A byte, or 0 where there is none.
pub fn byte_at(bytes: &[u8], at: usize) -> u8
    ensures { result ≡ slice_index bytes.now at }
{
    if at < bytes.len() { bytes[at] } else { 0 }
}

/// The bytes after so many; none, if there are no more.
pub fn after(bytes: &[u8], count: usize) -> &[u8]
    ensures { result.now ≡ drop count bytes.now }
{
    &bytes[count.min(bytes.len())..]
}
