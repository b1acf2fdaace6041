//! Bytes right before others, in a buffer that is filled from its end.
//! In: the buffer, where the bytes after them begin, and a piece or a number. Out: where they begin.
//! Knows nothing of what they say.

ghost use Rattle.std.specs.Prelude.{◌≡◌, ◌+◌, ◌≤◌, ◌++◌, decimal, drop, length};

use itoa::write_digits;

/// A piece.
#[inline(always)]
pub fn bytes_before(buffer: &mut [u8], end: usize, bytes: &[u8]) -> usize
    requires { (length bytes.now ≤ end) × (end ≤ length buffer.old) }
    ensures begin { result + length bytes.now ≡ end }
    ensures written { drop result buffer.new ≡ bytes.now ++ drop end buffer.old }
{
    let begin = end - bytes.len();
    buffer[begin..end].copy_from_slice(bytes);
    begin
}

/// The digits of a number.
#[inline(always)]
pub fn number_before(buffer: &mut [u8], end: usize, number: usize) -> usize
    requires { (20 ≤ end) × (end ≤ length buffer.old) }
    ensures begin { result ≤ end }
    ensures few { end ≤ result + 20 }
    ensures written { drop result buffer.new ≡ decimal number ++ drop end buffer.old }
{
    write_digits(number as u64, buffer, end)
}
