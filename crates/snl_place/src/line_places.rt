//! Places, offsets and lines by where the lines of a text end: no other line than the one in
//! question is looked at.
//! In: a text, its line ends, and an offset or a place. Out: the place, the offset, or the line.
//! A line ends with LF, and a CR directly before that belongs to the end. A lone CR ends no line,
//! though the protocol says that it does: nor does it in the lines of diagnostics.

ghost use Rattle.snl_lex.specs.LineList.{ends_before, line_begin, line_ends};
ghost use Rattle.snl_place.specs.Lines.{line_around, line_stop};
ghost use Rattle.snl_place.specs.Places.{offset_in, place_in};
ghost use Rattle.std.specs.List.Sorted.{IsNonDecreasing};
ghost use Rattle.std.specs.Prelude.{◌≡◌, ℕ, List, ◌+◌, ◌^◌, ◌≤◌, ◌<◌, ◌↔◌, IsTrue};
ghost use Rattle.std.specs.Prelude.{length, slice_index, take};
ghost use Rattle.std.specs.Str.{IsCharBoundary};

use crate::places::{Encoding, Place, offset_in_line, units_in};

// So many lines are tried from a guess on before all of them are halved.
const LINES_TRIED: usize = 8;

// How many offsets of a list that rises are before an offset.
pub fn count_before(offsets: &[usize], offset: usize) -> usize
    requires { IsNonDecreasing offsets.now }
    ensures count { result ≡ ends_before offsets.now offset }
    ensures inside { result ≤ length offsets.now }
{
    offsets.partition_point(|end| *end < offset)
}

// Where the line begins before which so many lines end.
fn line_begin(ends: &[usize], count: usize) -> usize
    requires count { count ≤ length ends.now }
    requires fits { (i : ℕ) → i < length ends.now → slice_index ends.now i + 1 < 2 ^ 64 }
    ensures { result ≡ line_begin ends.now count }
{
    if count == 0 { 0 } else { ends[count - 1] + 1 }
}

// Where the line ends before which so many lines end: at its LF, or where the text ends.
fn line_stop(text: &[u8], ends: &[usize], count: usize) -> usize
    ensures { result ≡ line_stop text.now ends.now count }
{
    if count < ends.len() {
        ends[count]
    } else {
        text.len()
    }
}

// The line of this number, counted from 0, ends before an offset.
fn is_ended(ends: &[usize], line: usize, offset: usize) -> bool
    requires { IsNonDecreasing ends.now }
    ensures { IsTrue result ↔ (line < ends_before ends.now offset) }
{
    line < ends.len() && ends[line] < offset
}

// The same as `count_before`. It tries `near` and a few lines from there on first, which spares the
// halving where the answer is one of them.
fn count_near(ends: &[usize], near: usize, offset: usize) -> usize
    requires { IsNonDecreasing ends.now }
    ensures count { result ≡ ends_before ends.now offset }
    ensures inside { result ≤ length ends.now }
{
    if near > 0 && !is_ended(ends, near - 1, offset) {
        return count_before(ends, offset);
    }
    for line in near..near.saturating_add(LINES_TRIED) {
        if !is_ended(ends, line, offset) {
            return line;
        }
    }
    count_before(ends, offset)
}

// What the proofs below need of line ends, and no code: they rise, and are in the text.
fn ends_rise()
    ensures order { (text : List ℕ) → IsNonDecreasing (line_ends text) }
    ensures inside { (text : List ℕ) (i : ℕ) → i < length (line_ends text)
        → slice_index (line_ends text) i < length text }
{}

// The same of lines: each begins before what is in it, and in the text.
fn lines_begin()
    ensures offset { (text : List ℕ) (offset : ℕ)
        → line_begin (line_ends text) (ends_before (line_ends text) offset) ≤ offset }
    ensures inside { (text : List ℕ) (line : ℕ) → line ≤ length (line_ends text)
        → line_begin (line_ends text) line ≤ length text }
{}

// The place of an offset, by its line.
fn place_on_line(
    encoding: Encoding,
    text: &[u8],
    ends: &[usize],
    line: usize,
    offset: usize,
) -> Place
    requires lines { ends.now ≡ line_ends text.now }
    requires small { length text.now < 2 ^ 32 }
    requires inside { offset ≤ length text.now }
    requires on_line { line ≡ ends_before ends.now offset }
    requires is_line { line ≤ length ends.now }
    ensures { result ≡ place_in encoding (take offset text.now) }
{
    ends_rise();
    lines_begin();
    let begin = line_begin(ends, line);
    let character = units_in(encoding, &text[begin..offset]);
    Place { line, character }
}

/// The place of an offset, from that of another one: it counts on from there where the offset is
/// after that one on its line, and looks the line up, from the next one on, where it isn't. So
/// offsets that rise are counted once each, also in a text of one long line.
pub fn place_from(
    encoding: Encoding,
    text: &[u8],
    ends: &[usize],
    earlier: usize,
    earlier_place: Place,
    offset: usize,
) -> Place
    requires lines { ends.now ≡ line_ends text.now }
    requires small { length text.now < 2 ^ 32 }
    requires inside { offset ≤ length text.now }
    requires place { earlier_place ≡ place_in encoding (take earlier text.now) }
    ensures { result ≡ place_in encoding (take offset text.now) }
{
    ends_rise();
    let line = earlier_place.line;
    if offset < earlier || is_ended(ends, line, offset) {
        let line = count_near(ends, line.saturating_add(1), offset);
        return place_on_line(encoding, text, ends, line, offset);
    }
    let more = units_in(encoding, &text[earlier..offset]);
    Place {
        line,
        character: earlier_place.character + more,
    }
}

/// The offset of a place. A place after its line's end is at that end, before the CR of a CRLF; one
/// in a character is at that character's first byte; one after the last line is at the text's end.
pub fn offset_by(encoding: Encoding, text: &[u8], ends: &[usize], place: Place) -> usize
    requires { ends.now ≡ line_ends text.now }
    ensures offset { result ≡ offset_in encoding place.line place.character text.now }
    ensures boundary { IsCharBoundary text.now result }
{
    ends_rise();
    lines_begin();
    if place.line > ends.len() {
        return text.len();
    }
    let begin = line_begin(ends, place.line);
    begin + offset_in_line(encoding, &text[begin..], place.character)
}

/// The line that has the byte at an offset, without its LF. The LF of a line is in that line, and
/// all offsets after the last LF are in the last one.
#[tactic(auto, unfolding(crate::specs::Lines::line_around))]
pub fn line_around<'a>(text: &'a [u8], ends: &[usize], offset: usize) -> &'a [u8]
    requires { ends.now ≡ line_ends text.now }
    ensures { result.now ≡ line_around text.now offset }
{
    ends_rise();
    lines_begin();
    let line = count_before(ends, offset);
    let begin = line_begin(ends, line);
    let stop = line_stop(text, ends, line);
    &text[begin..stop]
}
