//! The lines of a header.
//! In: the bytes of a line, without its LF. Out: the length of the body, where the line gives it.
//! Knows nothing of what comes after a line.

ghost use Rattle.std.specs.Prelude.{◌≡◌, ◌+◌, ◌-◌, ◌==◌, ◌≤◌, ◌<◌, length, take, drop, codes, position};
ghost use Rattle.std.specs.Str.{str_eq_ignore_ascii_case};
ghost use Rattle.snl_frame.specs.Frame.{content_length, length_after, number_of, without_return};

/// A number has at most so many digits, which any 64 bits hold.
const MAX_DIGITS: usize = 19;

/// How the field begins that gives the length, in letters of any case.
const NAME: &[u8] = b"content-length: ";

pub fn place_of(byte: u8, bytes: &[u8]) -> Option<usize>
    ensures { result ≡ position (λ b. b == byte) bytes.now }
{
    bytes.iter().position(|b| *b == byte)
}

/// A line without the CR at its end, if there is one.
pub fn without_return(line: &[u8]) -> &[u8]
    ensures { result.now ≡ without_return line.now }
{
    match line.last() {
        Some(b'\r') => &line[..line.len() - 1],
        _ => line,
    }
}

fn number_in(word: &[u8]) -> Option<usize>
    ensures { result ≡ number_of word.now }
{
    if word.is_empty() || word.len() > MAX_DIGITS {
        return None;
    }
    let mut value: usize = 0;
    for byte in word {
        if !byte.is_ascii_digit() {
            return None;
        }
        value = 10 * value + usize::from(*byte - b'0');
    }
    Some(value)
}

fn is_length_name(name: &[u8]) -> bool
    ensures { result ≡ str_eq_ignore_ascii_case name.now (codes "content-length: ") }
{
    name.eq_ignore_ascii_case(NAME)
}

/// The length that a line gives, if it does.
fn content_length(line: &[u8]) -> Option<usize>
    ensures { result ≡ content_length line.now }
{
    let (name, value) = line.split_at(line.len().min(NAME.len()));
    if is_length_name(name) {
        number_in(value)
    } else {
        None
    }
}

/// The length that is known after a line, by the one that was known before it.
pub fn length_after(before: Option<usize>, line: &[u8]) -> Option<usize>
    ensures { result ≡ length_after before line.now }
{
    match content_length(line) {
        Some(given) => Some(given),
        None => before,
    }
}
