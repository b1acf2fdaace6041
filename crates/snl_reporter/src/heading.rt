//! The heading line of a text.
//! In: the bytes of a line, without its LF. Out: how long the name and the text after it are.
//! Knows nothing of what comes after the line.

ghost use Rattle.std.specs.Prelude.{◌≡◌, ◌+◌, ◌==◌, ◌<◌, ◌≤◌, length, take, drop, position, IfSome};
ghost use Rattle.snl_reporter.specs.Headings.{IsSmall, heading_of, heading_with, lengths_of};
ghost use Rattle.snl_script.specs.Script.{number_of};

/// A name has at most so many bytes.
const MOST_NAME: usize = 4096;

/// A text has at most so many bytes.
const MOST_TEXT: usize = 1_048_576;

/// A number has at most so many digits, which any 64 bits hold.
const MAX_DIGITS: usize = 19;

const WORD: &[u8] = b"text ";

/// What a heading says: how many bytes the name has, and how many the text.
#[derive(Clone, Copy, Debug, PartialEq, Eq)]
pub struct Heading {
    pub name: usize,
    pub text: usize,
}

/// Where the first such byte is.
pub fn place_of(byte: u8, bytes: &[u8]) -> Option<usize>
    ensures place { result ≡ position (λ b. b == byte) bytes.now }
    ensures inside { IfSome result (λ place. place < length bytes.now) }
{
    bytes.iter().position(|b| *b == byte)
}

fn number_in(word: &[u8]) -> Option<usize>
    ensures { result ≡ number_of word.now }
{
    if word.is_empty() || word.len() > MAX_DIGITS {
        return None;
    }
    let mut value: usize = 0;
    for byte in word {
        if !byte.is_ascii_digit() {
            return None;
        }
        value = 10 * value + usize::from(*byte - b'0');
    }
    Some(value)
}

fn heading_with(name: Option<usize>, text: Option<usize>) -> Option<Heading>
    ensures heading { result ≡ heading_with name text }
    ensures few { IfSome result IsSmall }
{
    let (name, text) = (name?, text?);
    if name > MOST_NAME || text > MOST_TEXT {
        return None;
    }
    Some(Heading { name, text })
}

/// `NAME_LENGTH TEXT_LENGTH`.
fn lengths_in(words: &[u8]) -> Option<Heading>
    ensures heading { result ≡ lengths_of words.now }
    ensures few { IfSome result IsSmall }
{
    match place_of(b' ', words) {
        None => None,
        Some(end) => heading_with(number_in(&words[..end]), number_in(&words[end + 1..])),
    }
}

/// `text NAME_LENGTH TEXT_LENGTH`.
pub fn heading_in(line: &[u8]) -> Option<Heading>
    ensures heading { result ≡ heading_of line.now }
    ensures few { IfSome result IsSmall }
{
    let (word, words) = line.split_at(line.len().min(WORD.len()));
    if word == WORD {
        lengths_in(words)
    } else {
        None
    }
}
