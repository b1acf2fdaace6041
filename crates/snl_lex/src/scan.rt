//! The first piece of what is left of a text, by what it begins with.
//! In: bytes. Out: the class and length of the piece that they begin with.
//! It looks at no byte further than one after the piece.

ghost use Rattle.snl_lex.specs.Alphabet.{is_in};
ghost use Rattle.snl_lex.specs.Kinds.{has, punctuators_of_2, punctuators_of_3};
ghost use Rattle.snl_lex.specs.Pieces.{closed_piece, dot_piece, first_piece, longest_punctuator, punctuator_piece, name_piece, number_piece, percent_piece, run_piece, slash_piece, string_joins, string_piece};
ghost use Rattle.snl_lex.specs.Runs.{close_of, run_by};
ghost use Rattle.std.specs.Prelude.{◌≡◌, ◌+◌, ◌<◌, ◌≤◌, IfSome, [], ◌∷◌, drop, length, take};

use crate::alphabet::{Set, Start, byte_at, is_digit, run_end, start_of};
use crate::numbers::{number_class, number_end};
use crate::piece::Class;
use crate::word::is_word;

// The first byte, and the run of bytes of the set after it.
fn run_piece(rest: &[u8], kind: Class, set: Set) -> (Class, usize)
    requires { 0 < length rest.now }
    ensures { result ≡ run_piece kind (is_in set) rest.now }
{
    (kind, run_end(rest, 1, set))
}

fn name_piece(rest: &[u8]) -> (Class, usize)
    requires { 0 < length rest.now }
    ensures { result ≡ name_piece rest.now }
{
    let end = run_end(rest, 1, Set::NameBytes);
    let kind = if is_word(&rest[..end]) {
        Class::Word
    } else {
        Class::Name
    };
    (kind, end)
}

fn number_piece(rest: &[u8]) -> (Class, usize)
    requires { 0 < length rest.now }
    ensures { result ≡ number_piece rest.now }
{
    let end = number_end(rest);
    (number_class(&rest[..end]), end)
}

// How many bytes there are from `from` on, up to and with the first `a` that `b` follows.
fn close_count(bytes: &[u8], from: usize, a: u8, b: u8) -> Option<usize>
    requires { from ≤ length bytes.now }
    ensures count { result ≡ close_of a b (drop from bytes.now) }
    ensures inside { IfSome result (λ count. from + count ≤ length bytes.now) }
{
    let mut end = from;
    while end + 1 < bytes.len() {
        if bytes[end] == a && bytes[end + 1] == b {
            return Some(end + 2 - from);
        }
        end += 1;
    }
    None
}

fn closed_piece(rest: &[u8], kind: Class, a: u8, b: u8) -> (Class, usize)
    requires { 2 ≤ length rest.now }
    ensures { result ≡ closed_piece kind a b rest.now }
{
    match close_count(rest, 2, a, b) {
        Some(count) => (kind, 2 + count),
        None => (Class::Bad, rest.len()),
    }
}

/// Where a string's bytes end after its quote: before the quote that closes it, an LF that no
/// backslash takes, or at the end.
pub fn string_end(bytes: &[u8], quote: u8) -> usize
    requires { 0 < length bytes.now }
    ensures end { result ≡ 1 + run_by (string_joins quote) [] (drop 1 bytes.now) }
    ensures inside { result ≤ length bytes.now }
{
    let mut taken = false;
    let mut end = 1;
    while end < bytes.len() && (taken || (bytes[end] != quote && bytes[end] != b'\n')) {
        taken = bytes[end] == b'\\' && !taken;
        end += 1;
    }
    end
}

fn string_piece(rest: &[u8], kind: Class, quote: u8) -> (Class, usize)
    requires { 0 < length rest.now }
    ensures { result ≡ string_piece kind quote rest.now }
{
    let end = string_end(rest, quote);
    if byte_at(rest, end) == quote {
        (kind, 1 + end)
    } else {
        (Class::Bad, end)
    }
}

// Asked of the first byte first, since most punctuators begin no longer one.
fn is_punctuator_of_two(a: u8, b: u8) -> bool
    ensures { result ≡ has punctuators_of_2 (a ∷ b ∷ []) }
{
    match a {
        b'+' | b'&' | b'|' | b'<' | b'>' | b'=' => b == a || b == b'=',
        b'-' => b == b'-' || b == b'=' || b == b'>',
        b'!' | b'*' | b'/' | b'%' | b'^' => b == b'=',
        _ => false,
    }
}

fn is_punctuator_of_three(a: u8, b: u8, c: u8) -> bool
    ensures { result ≡ has punctuators_of_3 (a ∷ b ∷ c ∷ []) }
{
    c == b'=' && a == b && (a == b'<' || a == b'>')
}

#[tactic(auto, unfolding(crate::specs::Pieces::longest_punctuator))]
fn punctuator_length(rest: &[u8]) -> usize
    ensures { result ≡ longest_punctuator rest.now }
{
    let a = byte_at(rest, 0);
    let b = byte_at(rest, 1);
    if !is_punctuator_of_two(a, b) {
        1
    } else if is_punctuator_of_three(a, b, byte_at(rest, 2)) {
        3
    } else {
        2
    }
}

fn punctuator_piece(rest: &[u8]) -> (Class, usize)
    requires { 0 < length rest.now }
    ensures { result ≡ punctuator_piece rest.now }
{
    (Class::Punct, punctuator_length(rest))
}

fn slash_piece(rest: &[u8]) -> (Class, usize)
    requires { 0 < length rest.now }
    ensures { result ≡ slash_piece rest.now }
{
    match byte_at(rest, 1) {
        b'/' => run_piece(rest, Class::Comment, Set::LineBytes),
        b'*' => closed_piece(rest, Class::Comment, b'*', b'/'),
        _ => punctuator_piece(rest),
    }
}

fn percent_piece(rest: &[u8]) -> (Class, usize)
    requires { 0 < length rest.now }
    ensures { result ≡ percent_piece rest.now }
{
    match byte_at(rest, 1) {
        b'%' => run_piece(rest, Class::CCode, Set::LineBytes),
        b'{' => closed_piece(rest, Class::CCode, b'}', b'%'),
        _ => punctuator_piece(rest),
    }
}

fn dot_piece(rest: &[u8]) -> (Class, usize)
    requires { 0 < length rest.now }
    ensures { result ≡ dot_piece rest.now }
{
    if is_digit(byte_at(rest, 1)) {
        number_piece(rest)
    } else {
        punctuator_piece(rest)
    }
}

/// The class and length of the first piece.
#[tactic(auto, unfolding(crate::specs::Pieces::first_piece))]
pub fn first_piece(rest: &[u8]) -> (Class, usize)
    requires { 0 < length rest.now }
    ensures { result ≡ first_piece rest.now }
{
    match start_of(rest[0]) {
        Start::Blank => run_piece(rest, Class::White, Set::Blanks),
        Start::Letter => name_piece(rest),
        Start::Digit => number_piece(rest),
        Start::Dot => dot_piece(rest),
        Start::Hash => run_piece(rest, Class::Marker, Set::LineBytes),
        Start::Slash => slash_piece(rest),
        Start::Percent => percent_piece(rest),
        Start::Quote => string_piece(rest, Class::Text, b'"'),
        Start::Apostrophe => string_piece(rest, Class::CharLit, b'\''),
        Start::Sign => punctuator_piece(rest),
        Start::Stray => run_piece(rest, Class::Bad, Set::Strays),
    }
}
