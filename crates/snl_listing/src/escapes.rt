//! Bytes as a listing shows them: those outside 32 to 126 by their hexadecimal digits.
#![tactic(auto)]

ghost use Rattle.std.specs.Prelude.{◌≡◌, ℕ, ◌/◌, ◌%◌, ◌<◌, ◌∷◌, [], List, length, IfSome};
ghost use Rattle.std.specs.Char.{digit_char};
ghost use Rattle.std.specs.List.{list_all};
ghost use Rattle.snl_listing.specs.Escapes.{escaped, escaped_byte, is_printable};
ghost use Rattle.snl_listing.specs.Sink.{Put};

use crate::sink::Sink;

fn is_printable(byte: u8) -> bool
    ensures { result ≡ is_printable byte }
{
    32 <= byte && byte <= 126
}

fn hex_digit(digit: u8) -> char
    requires { digit < 16 }
    ensures { result ≡ digit_char digit }
{
    if digit < 10 {
        char::from(b'0' + digit)
    } else {
        char::from(b'a' + (digit - 10))
    }
}

// Bytes that are shown as they are.
#[tactic(auto, using(crate::proofs::Escaping::escaped_plain))]
fn as_they_are(bytes: &[u8]) -> Option<&str>
    ensures { IfSome result (λ text. text.now ≡ escaped bytes.now) }
{
    if are_printable(bytes) {
        str::from_utf8(bytes).ok()
    } else {
        None
    }
}

fn are_printable(bytes: &[u8]) -> bool
    ensures { result ≡ list_all is_printable bytes.now }
{
    bytes.iter().all(|byte| is_printable(*byte))
}

fn put_char<S: Sink>(sink: &mut S, shown: char) -> Result<(), S::Error>
    requires { shown < 128 }
    ensures { Put result (S.Took sink.old sink.new) (S.Broke sink.old sink.new) (shown ∷ []) }
{
    sink.put(shown.encode_utf8(&mut [0; 4]))
}

fn put_hex<S: Sink>(sink: &mut S, byte: u8) -> Result<(), S::Error>
    ensures { Put result (S.Took sink.old sink.new) (S.Broke sink.old sink.new)
        (92 ∷ 120 ∷ digit_char (byte / 16) ∷ digit_char (byte % 16) ∷ []) }
{
    sink.put("\\x")?;
    put_char(sink, hex_digit(byte / 16))?;
    put_char(sink, hex_digit(byte % 16))
}

/// Puts a byte as a listing shows it.
pub(crate) fn put_byte<S: Sink>(sink: &mut S, byte: u8) -> Result<(), S::Error>
    ensures { Put result (S.Took sink.old sink.new) (S.Broke sink.old sink.new)
        (escaped_byte byte) }
{
    if is_printable(byte) {
        put_char(sink, char::from(byte))
    } else {
        put_hex(sink, byte)
    }
}

/// Puts bytes as a listing shows them.
pub(crate) fn put_escaped<S: Sink>(sink: &mut S, bytes: &[u8]) -> Result<(), S::Error>
    ensures { Put result (S.Took sink.old sink.new) (S.Broke sink.old sink.new)
        (escaped bytes.now) }
{
    if let Some(text) = as_they_are(bytes) {
        return sink.put(text);
    }
    for byte in bytes {
        put_byte(sink, *byte)?;
    }
    Ok(())
}
