//! The commands of a script, as they are in its bytes.
//! In: the bytes of a script that were read so far. Out: the command at their front, if it is there
//! whole. Knows nothing of readers, sessions and answers.
#![tactic(auto)]

ghost use Rattle.std.specs.Prelude.{◌≡◌, ℕ, ◌+◌, ◌==◌, ◌≤◌, ◌<◌, List, [], ◌∷◌, length, take, drop, Some, None, IfSome, position};
ghost use Rattle.snl_script.specs.Front.{IsFront, IsFrontAfter, words_after};
ghost use Rattle.snl_script.specs.Script.{edit_of, edit_with, heading_of, lone, number_of, words_of};

/// A command's line has at most so many bytes without its LF.
const MAX_LINE: usize = 80;

/// A number has at most so many digits, which any 64 bits hold.
const MAX_DIGITS: usize = 19;

/// An edit puts in at most so many bytes.
const MAX_ADDED: usize = 2_097_152;

const CHECK: &[u8] = b"check";

const LIST: &[u8] = b"list";

const WORK: &[u8] = b"work";

const EDIT: &[u8] = b"edit";

/// What a command's line says.
#[derive(Clone, Copy, Debug, PartialEq, Eq)]
pub enum Heading {
    Check,
    List,
    Work,
    /// `len` bytes and an LF follow the line.
    Edit {
        start: usize,
        stop: usize,
        len: usize,
    },
}

/// A command of a script.
#[derive(Clone, Copy)]
pub enum Command<'a> {
    /// Say the diagnostics.
    Check,
    /// Say the listing.
    List,
    /// Say what the last edit that was made cost.
    Work,
    /// The bytes from `start` up to `stop` become `new`.
    Edit {
        start: usize,
        stop: usize,
        new: &'a [u8],
    },
}

/// What is at the front of the bytes that were read so far.
#[derive(Clone, Copy)]
pub enum Front<'a> {
    /// More bytes must tell: a line has no LF yet, or the bytes of an edit are not all there.
    Short,
    /// No command, whatever follows.
    Malformed,
    /// A command, of so many bytes.
    Whole { command: Command<'a>, length: usize },
}

fn place_of(byte: u8, bytes: &[u8]) -> Option<usize>
    ensures { result ≡ position (λ b. b == byte) bytes.now }
{
    bytes.iter().position(|b| *b == byte)
}

/// The first word of some, and what comes after its space.
fn first_word(words: &[u8]) -> (&[u8], Option<&[u8]>)
    ensures { words_of words.now ≡ result.0.now ∷ words_after result.1 }
{
    match place_of(b' ', words) {
        None => (words, None),
        Some(end) => (&words[..end], Some(&words[end + 1..])),
    }
}

fn number_in(word: &[u8]) -> Option<usize>
    ensures { result ≡ number_of word.now }
{
    if word.is_empty() || word.len() > MAX_DIGITS {
        return None;
    }
    let mut value: usize = 0;
    for byte in word {
        if !byte.is_ascii_digit() {
            return None;
        }
        value = 10 * value + usize::from(*byte - b'0');
    }
    Some(value)
}

/// `START END LEN`.
fn edit_in(words: &[u8]) -> Option<Heading>
    ensures { result ≡ edit_of (words_of words.now) }
{
    let (start, words) = first_word(words);
    let (stop, words) = first_word(words?);
    match first_word(words?) {
        (len, None) => edit_heading(number_in(start), number_in(stop), number_in(len)),
        (_, Some(_)) => None,
    }
}

fn edit_heading(start: Option<usize>, stop: Option<usize>, len: Option<usize>) -> Option<Heading>
    ensures { result ≡ edit_with start stop len }
{
    let (start, stop, len) = (start?, stop?, len?);
    if len > MAX_ADDED {
        return None;
    }
    Some(Heading::Edit { start, stop, len })
}

/// What a line says, which comes without its LF.
fn heading_in(line: &[u8]) -> Option<Heading>
    ensures { result ≡ heading_of (words_of line.now) }
{
    let (word, words) = first_word(line);
    if word == CHECK {
        return lone(Heading::Check, words);
    }
    if word == LIST {
        return lone(Heading::List, words);
    }
    if word == WORK {
        return lone(Heading::Work, words);
    }
    if word == EDIT { edit_in(words?) } else { None }
}

/// A command that has no word after the first.
#[tactic(auto, using(crate::proofs::ScriptLemmas::lone_more))]
fn lone(heading: Heading, words: Option<&[u8]>) -> Option<Heading>
    ensures { result ≡ lone heading (words_after words.entry) }
{
    match words {
        None => Some(heading),
        Some(_) => None,
    }
}

/// The command of a heading, whose line and LF have `line` bytes.
fn front_after(heading: Option<Heading>, line: usize, after: &[u8]) -> Front<'_>
    requires { line ≤ 81 }
    ensures { IsFrontAfter heading line after.now result }
{
    match heading {
        None => Front::Malformed,
        Some(Heading::Check) => Front::Whole {
            command: Command::Check,
            length: line,
        },
        Some(Heading::List) => Front::Whole {
            command: Command::List,
            length: line,
        },
        Some(Heading::Work) => Front::Whole {
            command: Command::Work,
            length: line,
        },
        Some(Heading::Edit { start, stop, len }) => match after.get(len) {
            None => Front::Short,
            Some(b'\n') => Front::Whole {
                command: Command::Edit {
                    start,
                    stop,
                    new: &after[..len],
                },
                length: line + len + 1,
            },
            Some(_) => Front::Malformed,
        },
    }
}

/// What is at the front of these bytes of a script.
pub fn front_of(bytes: &[u8]) -> Front<'_>
    ensures { IsFront bytes.now result }
{
    let first = &bytes[..bytes.len().min(MAX_LINE + 1)];
    match place_of(b'\n', first) {
        Some(end) => front_after(heading_in(&bytes[..end]), end + 1, &bytes[end + 1..]),
        None if bytes.len() > MAX_LINE => Front::Malformed,
        None => Front::Short,
    }
}
