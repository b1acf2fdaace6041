//! A body with its header.
//! In: the body of a message, or where it begins. Out: the message, after the bytes before it.
//! Knows nothing of what a body says.

ghost use Rattle.std.specs.Prelude.{◌≡◌, ◌++◌, ◌∷◌, [], ◌≤◌, OnOk, codes, decimal, drop, flat_map, length, take, vec_len};
ghost use Rattle.std.specs.List.{concat};
ghost use Rattle.snl_frame.specs.Framed.{framed};

use crate::bytes::put_all;
use itoa::Buffer;
use std::alloc::AllocError;

/// Puts the header before the body that all bytes from `start` on are. So the body needs no buffer
/// of its own. An `Err`, of memory, may leave a front of the header after it.
pub fn frame_from(out: &mut Vec<u8>, start: usize) -> Result<(), AllocError>
    requires { start ≤ vec_len out.old }
    ensures { OnOk result (out.new.items
        ≡ take start out.old.items ++ framed (drop start out.old.items)) }
{
    let end = out.len();
    let mut buffer = Buffer::new();
    let length = buffer.format(end - start).as_bytes();
    put_all(out, &[b"Content-Length: ", length, b"\r\n\r\n"])?;
    let header = out.len() - end;
    out[start..].rotate_right(header);
    Ok(())
}
