//! The line and file of an offset, by the line markers before it.
//! In: a text, its pieces and an offset. Out: the line's number and its file.
//! It knows nothing of what is on a line.

ghost use Rattle.snl_lex.specs.Lines.{file_by, has_line_between, last_that, line_at, lines_between, marker_file, marker_number, names_file, number_by, number_place, sets_line};
ghost use Rattle.snl_lex.specs.Pieces.{LiesIn, pieces_of};
ghost use Rattle.std.specs.Prelude.{◌≡◌, ◌+◌, ◌<◌, ◌≤◌, IfSome, length};

use crate::alphabet::{NumberBase, Set, after, byte_at, is_blank, is_gap, run_end};
use crate::numbers::value_of;
use crate::piece::{Class, Piece};
use crate::scan::string_end;

/// The line of an offset: its number, and start and length of the bytes in the text that name its
/// file, where a line marker names one.
#[derive(Clone, Copy, Debug, PartialEq, Eq)]
pub struct Line {
    pub number: usize,
    pub file: Option<(usize, usize)>,
}

// Where the number of a marker begins.
#[tactic(auto, unfolding(crate::specs::Lines::number_place))]
fn number_place(marker: &[u8]) -> usize
    requires { 0 < length marker.now }
    ensures place { result ≡ number_place marker.now }
    ensures inside { result ≤ length marker.now }
{
    let place = run_end(marker, 1, Set::Gaps);
    if after(marker, place).starts_with(b"line") && is_gap(byte_at(marker, place + 4)) {
        run_end(marker, place + 4, Set::Gaps)
    } else {
        place
    }
}

// The number that a marker sets.
#[tactic(auto, unfolding(crate::specs::Lines::marker_number))]
pub fn marker_number(marker: &[u8]) -> Option<u64>
    requires { 0 < length marker.now }
    ensures number { result ≡ marker_number marker.now }
    ensures small { IfSome result (λ number. number ≤ 2147483647) }
{
    let begin = number_place(marker);
    let stop = run_end(marker, begin, Set::Digits(NumberBase::Decimal));
    if begin == stop || stop - begin > 10 || (stop < marker.len() && !is_blank(marker[stop])) {
        return None;
    }
    value_of(&marker[begin..stop], NumberBase::Decimal).filter(|number| *number <= 2_147_483_647)
}

// Where in a marker its file is.
#[tactic(auto, unfolding(crate::specs::Lines::marker_file))]
pub fn marker_file(marker: &[u8]) -> Option<(usize, usize)>
    requires { 0 < length marker.now }
    ensures file { result ≡ marker_file marker.now }
    ensures inside { IfSome result (λ place. place.0 + place.1 ≤ length marker.now) }
{
    let stop = run_end(
        marker,
        number_place(marker),
        Set::Digits(NumberBase::Decimal),
    );
    let quote = run_end(marker, stop, Set::Gaps);
    if quote == marker.len() || marker[quote] != b'"' {
        return None;
    }
    let count = string_end(&marker[quote..], b'"') - 1;
    if byte_at(marker, quote + 1 + count) == b'"' {
        Some((quote + 1, count))
    } else {
        None
    }
}

// How many lines end from `from` on and before `to`.
pub fn lines_between(text: &[u8], from: usize, to: usize) -> usize
    ensures count { result ≡ lines_between text.now from to }
    ensures bound { result ≤ length text.now }
{
    let stop = to.min(text.len());
    let mut count = 0;
    if from < stop {
        for byte in &text[from..stop] {
            if *byte == b'\n' {
                count += 1;
            }
        }
    }
    count
}

pub fn has_line_between(text: &[u8], from: usize, to: usize) -> bool
    ensures { result ≡ has_line_between text.now from to }
{
    let stop = to.min(text.len());
    from < stop && text[from..stop].contains(&b'\n')
}

// Whether a piece is a marker that sets the line of the offset.
#[tactic(auto, unfolding(crate::specs::Lines::sets_line))]
fn sets_line(text: &[u8], piece: Piece, offset: usize) -> bool
    requires { LiesIn text.now piece }
    ensures { result ≡ sets_line text.now offset piece }
{
    piece.kind == Class::Marker
        && marker_number(&text[piece.start..piece.start + piece.len]).is_some()
        && has_line_between(text, piece.start + piece.len, offset)
}

// Whether it also names a file.
#[tactic(auto, unfolding(crate::specs::Lines::names_file))]
fn names_file(text: &[u8], piece: Piece, offset: usize) -> bool
    requires { LiesIn text.now piece }
    ensures { result ≡ names_file text.now offset piece }
{
    sets_line(text, piece, offset)
        && marker_file(&text[piece.start..piece.start + piece.len]).is_some()
}

// The last marker that sets the line of the offset.
fn last_setter(text: &[u8], pieces: &[Piece], offset: usize) -> Option<Piece>
    requires { pieces.now ≡ pieces_of text.now }
    ensures last { result ≡ last_that (sets_line text.now offset) pieces.now }
    ensures lies { IfSome result (LiesIn text.now) }
{
    let mut last = None;
    for piece in pieces {
        if sets_line(text, *piece, offset) {
            last = Some(*piece);
        }
    }
    last
}

// The last of them that names a file.
fn last_name(text: &[u8], pieces: &[Piece], offset: usize) -> Option<Piece>
    requires { pieces.now ≡ pieces_of text.now }
    ensures last { result ≡ last_that (names_file text.now offset) pieces.now }
    ensures lies { IfSome result (LiesIn text.now) }
{
    let mut last = None;
    for piece in pieces {
        if names_file(text, *piece, offset) {
            last = Some(*piece);
        }
    }
    last
}

// The line by the last marker that counts.
fn number_by(text: &[u8], last: Option<Piece>, offset: usize) -> usize
    requires { IfSome last (λ p. LiesIn text.now p) }
    ensures { result ≡ number_by text.now offset last }
{
    match last {
        Some(piece) => {
            let stop = piece.start + piece.len;
            let number = marker_number(&text[piece.start..stop]).unwrap_or(0) as usize;
            (number + lines_between(text, stop, offset)).saturating_sub(1)
        }
        None => 1 + lines_between(text, 0, offset),
    }
}

// The file by the last marker that names one.
fn file_by(text: &[u8], named: Option<Piece>) -> Option<(usize, usize)>
    requires { IfSome named (λ p. LiesIn text.now p) }
    ensures { result ≡ file_by text.now named }
{
    match named {
        Some(piece) => match marker_file(&text[piece.start..piece.start + piece.len]) {
            Some((start, len)) => Some((piece.start + start, len)),
            None => None,
        },
        None => None,
    }
}

/// The line of an offset, which may be any number; one after the text counts as its end. It takes
/// no memory, and goes over all the pieces twice.
///
/// Line markers are read as this project's profile has them.
#[tactic(auto, unfolding(crate::specs::Lines::line_at))]
pub fn line_of(text: &[u8], pieces: &[Piece], offset: usize) -> Line
    requires { pieces.now ≡ pieces_of text.now }
    ensures { result ≡ line_at text.now offset }
{
    Line {
        number: number_by(text, last_setter(text, pieces, offset), offset),
        file: file_by(text, last_name(text, pieces, offset)),
    }
}
