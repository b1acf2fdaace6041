//! How many bytes a finding marks.
//! In: a text, a place in it, and how many bytes the message quotes. Out: these, or else those of
//! the token at the place.
//! Knows nothing of lines.

ghost use Rattle.std.specs.Prelude.{◌≡◌, ◌==◌, ◌&&◌, ◌||◌, ◌<◌, ◌≤◌, Bool, drop, length};
ghost use Rattle.std.specs.Prelude.{slice_index};
ghost use Rattle.snl_lex.specs.Pieces.{piece_class};
ghost use Rattle.snl_report.specs.Extents.{extent, is_open, token_extent};

use snl_cut::{Count, Noting};
use snl_lex::{Bytes, Class};

/// A comment or C code that is not closed: a faulty piece that begins with a slash or a percent
/// sign.
fn is_open(class: Class, first: u8) -> bool
    ensures { result ≡ is_open class first }
{
    matches!(class, Class::Bad) && (first == b'/' || first == b'%')
}

/// How many bytes are marked of the piece at the front of some bytes: of one that is not closed the
/// two that open it, and of one that is no token none.
fn token_extent(bytes: &[u8]) -> usize
    requires { 0 < length bytes.now }
    ensures { result ≡ token_extent bytes.now }
{
    let (length, class) = Bytes.first_noted(bytes, &mut Count::new());
    if !class.is_token() {
        0
    } else if is_open(class, bytes[0]) {
        2
    } else {
        length
    }
}

/// How many bytes are marked from a place on: those that are quoted, or else the token there.
pub fn extent(text: &[u8], place: usize, quoted: usize) -> usize
    requires { place ≤ length text.now }
    ensures { result ≡ extent text.now place quoted }
{
    if quoted > 0 {
        return quoted;
    }
    let bytes = &text[place..];
    if bytes.is_empty() {
        return 0;
    }
    token_extent(bytes)
}
