//! A change of a text, cut to what differs.
//! In: a text, a range of it and the bytes that come in its place. Out: a range and bytes that give
//! the same text, of which neither the first byte nor the last one stays.

ghost use Rattle.snl_lists.specs.Moves.{replaced};
ghost use Rattle.snl_place.specs.Trim.{IsTight};
ghost use Rattle.std.specs.Prelude.{◌≡◌, ◌≢◌, ℕ, ◌-◌, ◌<◌, ◌≤◌, length, take, drop, slice_index};

/// A change: the range of a text from `start` up to `stop`, in bytes, and what comes in its place.
#[derive(Clone, Copy)]
pub struct Splice<'a> {
    pub start: usize,
    pub stop: usize,
    pub new: &'a [u8],
}

// How many bytes two lists have in common at the front. The loop goes by a count, so that its
// invariant can say which bytes were alike.
fn common_front(old: &[u8], new: &[u8]) -> usize
    ensures old { result ≤ length old.now }
    ensures new { result ≤ length new.now }
    ensures same { take result old.now ≡ take result new.now }
    ensures most { result < length old.now → result < length new.now
        → slice_index old.now result ≢ slice_index new.now result }
{
    let most = old.len().min(new.len());
    let mut count = 0;
    'bytes: while count < most {
        if old[count] != new[count] {
            return count;
        }
        count += 1;
    }
    count
}

// How many bytes two lists have in common at the back. It loops as `common_front` does.
fn common_back(old: &[u8], new: &[u8]) -> usize
    ensures old { result ≤ length old.now }
    ensures new { result ≤ length new.now }
    ensures same { drop (length old.now - result) old.now ≡ drop (length new.now - result) new.now }
    ensures most { result < length old.now → result < length new.now
        → slice_index old.now (length old.now - 1 - result)
        ≢ slice_index new.now (length new.now - 1 - result) }
{
    let most = old.len().min(new.len());
    let mut count = 0;
    'bytes: while count < most {
        if old[old.len() - 1 - count] != new[new.len() - 1 - count] {
            return count;
        }
        count += 1;
    }
    count
}

/// The same change, without the bytes at its front and at its back that stay. It may begin or end
/// within a character.
pub fn trimmed<'a>(text: &[u8], start: usize, stop: usize, new: &'a [u8]) -> Splice<'a>
    requires order { start ≤ stop }
    requires inside { stop ≤ length text.now }
    ensures same { replaced text.now result.start result.stop result.new.now
        ≡ replaced text.now start stop new.now }
    ensures order { result.start ≤ result.stop }
    ensures front { start ≤ result.start }
    ensures back { result.stop ≤ stop }
    ensures tight { IsTight text.now result.start result.stop result.new.now }
{
    let old = &text[start..stop];
    let front = common_front(old, new);
    let (old, rest) = (&old[front..], &new[front..]);
    let back = common_back(old, rest);
    Splice {
        start: start + front,
        stop: stop - back,
        new: &rest[..rest.len() - back],
    }
}
