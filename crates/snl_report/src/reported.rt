//! A text that is reported on.

ghost use Rattle.std.specs.Prelude.{◌^◌, ◌<◌, length};
ghost use Rattle.snl_lex.specs.LineList.{IsLineList};

use crate::form::Style;
use snl_lex::LineList;

/// A text with its name and its lines, and how its findings are to be written.
#[derive(Clone, Copy)]
pub struct Reported<'a> {
    pub style: Style,
    pub name: &'a [u8],
    pub text: &'a [u8],
    pub lines: &'a LineList,
    ghost short_name: { length name.now < 2 ^ 32 },
    ghost short_text: { length text.now < 2 ^ 32 },
    ghost own_lines: { IsLineList text.now lines.now },
}
