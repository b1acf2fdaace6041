//! An edit of a text.

ghost use Rattle.snl_cut.specs.Cut.{IsEdit};
ghost use Rattle.std.specs.Prelude.{◌^◌, ◌<◌, length};

/// An edit of a text: in the new one, other bytes are from `start` up to `new_stop` than in the old
/// one up to `old_stop`.
#[derive(Clone, Copy)]
pub struct TextEdit<'a> {
    pub old: &'a [u8],
    pub text: &'a [u8],
    pub start: usize,
    pub old_stop: usize,
    pub new_stop: usize,
    ghost edit: { IsEdit old.now text.now start old_stop new_stop },
    ghost short: { (length old.now < 2 ^ 32) × (length text.now < 2 ^ 32) },
}
