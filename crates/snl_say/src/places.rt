//! Places in a text, and ranges between two of them.
//! In: places. Out: their bytes, after those that are there, or before others in a buffer.
//! Knows nothing of texts, and of how places are counted in them.

ghost use Rattle.std.specs.Prelude.{◌≡◌, ◌+◌, ◌≤◌, ◌++◌, OnOk, drop, length};
ghost use Rattle.snl_say.specs.Places.{place_text, range_text};

use crate::before::{bytes_before, number_before};
use snl_place::Place;
use std::alloc::AllocError;

/// A place, as `{"character":CHARACTER,"line":LINE}`, before the bytes from `end` on.
#[tactic(auto, unfolding(crate::specs::Places::place_text))]
fn place_before(buffer: &mut [u8], end: usize, place: Place) -> usize
    requires { (62 ≤ end) × (end ≤ length buffer.old) }
    ensures begin { result ≤ end }
    ensures few { end ≤ result + 62 }
    ensures written { drop result buffer.new ≡ place_text place ++ drop end buffer.old }
{
    let brace = bytes_before(buffer, end, b"}");
    let line = number_before(buffer, brace, place.line);
    let name = bytes_before(buffer, line, b",\"line\":");
    let character = number_before(buffer, name, place.character);
    bytes_before(buffer, character, b"{\"character\":")
}

/// A range, as `{"end":PLACE,"start":PLACE}`, before the bytes from `end` on.
#[tactic(auto, unfolding(crate::specs::Places::range_text))]
pub fn range_before(buffer: &mut [u8], end: usize, start: Place, stop: Place) -> usize
    requires { (141 ≤ end) × (end ≤ length buffer.old) }
    ensures begin { result ≤ end }
    ensures few { end ≤ result + 141 }
    ensures written { drop result buffer.new ≡ range_text start stop ++ drop end buffer.old }
{
    let brace = bytes_before(buffer, end, b"}");
    let first = place_before(buffer, brace, start);
    let name = bytes_before(buffer, first, b",\"start\":");
    let second = place_before(buffer, name, stop);
    bytes_before(buffer, second, b"{\"end\":")
}

/// A range.
pub fn put_range(out: &mut Vec<u8>, start: Place, stop: Place) -> Result<(), AllocError>
    ensures { OnOk result (out.new.items ≡ out.old.items ++ range_text start stop) }
{
    let mut buffer = [0; 144];
    let begin = range_before(&mut buffer, 144, start, stop);
    out.extend_from_slice(&buffer[begin..])
}
