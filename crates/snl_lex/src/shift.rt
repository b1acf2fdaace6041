//! How an edit shifts what is outside the bytes that it replaces.
//! In: an edit of a text. Out: the new offset of what it leaves.

ghost use Rattle.snl_lex.specs.Lines.{lines_between};
ghost use Rattle.snl_lex.specs.Shift.{shifted_offset};
ghost use Rattle.std.specs.Prelude.{◌≡◌, ◌≤◌, length};

use crate::edit::TextEdit;

/// An edit of a text, by its places: the bytes from `start` up to `old_stop` became those up to
/// `new_stop`. So many line ends went with the ones and came with the others.
#[derive(Clone, Copy, Debug, PartialEq, Eq)]
pub struct Shift {
    pub start: usize,
    pub old_stop: usize,
    pub new_stop: usize,
    pub old_lines: usize,
    pub new_lines: usize,
}

// How many line ends there are from one offset up to another.
fn lines_between(text: &[u8], from: usize, to: usize) -> usize
    requires order { from ≤ to }
    requires inside { to ≤ length text.now }
    ensures { result ≡ lines_between text.now from to }
{
    text[from..to].iter().filter(|byte| **byte == b'\n').count()
}

impl Shift {
    /// Of an edit of a text.
    pub fn of(edit: &TextEdit) -> Shift
        ensures start { result.start ≡ edit.now.start }
        ensures old_stop { result.old_stop ≡ edit.now.old_stop }
        ensures new_stop { result.new_stop ≡ edit.now.new_stop }
        ensures old_lines { result.old_lines ≡ lines_between edit.now.old.now edit.now.start edit.now.old_stop }
        ensures new_lines { result.new_lines ≡ lines_between edit.now.text.now edit.now.start edit.now.new_stop }
    {
        Shift {
            start: edit.start,
            old_stop: edit.old_stop,
            new_stop: edit.new_stop,
            old_lines: lines_between(edit.old, edit.start, edit.old_stop),
            new_lines: lines_between(edit.text, edit.start, edit.new_stop),
        }
    }

    /// Where an offset is after the edit.
    pub fn offset(self, offset: usize) -> usize
        ensures { result ≡ shifted_offset self offset }
    {
        if offset < self.start {
            offset
        } else {
            offset
                .saturating_sub(self.old_stop)
                .saturating_add(self.new_stop)
        }
    }
}
