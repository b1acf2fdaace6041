//! Short lists of bytes, compared byte by byte.
#![tactic(auto)]

ghost use Rattle.std.specs.Prelude.{◌≡◌};
ghost use Rattle.std.specs.Str.{bytes_eq};

/// So many bytes are compared one by one, which takes less than to compare them as `==` does.
const FEW: usize = 32;

/// Whether two lists have the same bytes. Names and words are short, and `==` is made for long
/// lists. It is inlined, so a length that is a constant unrolls the loop.
#[inline(always)]
pub fn are_same_bytes(left: &[u8], right: &[u8]) -> bool
    ensures { result ≡ bytes_eq left.now right.now }
{
    if left.len() != right.len() {
        return false;
    }
    if right.len() > FEW {
        return left == right;
    }
    for at in 0..right.len() {
        if left[at] != right[at] {
            return false;
        }
    }
    true
}
