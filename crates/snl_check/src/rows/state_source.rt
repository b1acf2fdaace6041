//! What the rows of states are made from: their items, the lines of their text, what the check of
//! each gave, and the numbers of channels.

ghost use Rattle.std.specs.Prelude.{◌≡◌};

use crate::rows::channel_numbers::ChannelNumbers;
use crate::rows::row_source::RowSource;
use snl_item_check::Checked;
use snl_lex::{Line, LineList};
use snl_walk::{TargetUse, WakeUse};

/// The items of a text, its lines, what the check of each item gave that isn't faulty, and the
/// numbers of channels.
#[derive(Clone, Copy)]
pub(crate) struct StateSource<'a> {
    pub row_source: RowSource<'a>,
    pub lines: &'a LineList,
    pub checked: &'a [Option<&'a Checked>],
    pub numbers: &'a ChannelNumbers,
}

impl<'a> StateSource<'a> {
    ghost use Rattle.snl_check.specs.Collected.{IsStateSource, items_in};
    ghost use Rattle.snl_check.specs.Conditions.{uses_in};
    ghost use Rattle.snl_check.specs.States.{line_of_item};
    ghost use Rattle.snl_item_check.specs.Told.{told_in};

    /// The line of the first token of an item.
    pub(crate) fn line(&self, item: usize) -> Line
        requires { IsStateSource self.now }
        ensures { result ≡ line_of_item self.now.row_source.program.text.now
            (items_in self.now.row_source.program) item }
    {
        let program = &self.row_source.program;
        self.lines
            .line_by(program.text, program.span(item, 0).start)
    }

    /// The uses of names in the conditions of an item.
    pub(crate) fn wake_uses(&self, item: usize) -> &'a [WakeUse]
        requires { IsStateSource self.now }
        ensures { result.now ≡ uses_in self.now.row_source.program.text.now
            (items_in self.now.row_source.program) item }
    {
        if item >= self.checked.len() {
            return &[];
        }
        match self.checked[item] {
            Some(checked) => checked.wake_uses.as_slice(),
            None => &[],
        }
    }

    /// The names of the states that an item leads to.
    pub(crate) fn target_uses(&self, item: usize) -> &'a [TargetUse]
        requires { IsStateSource self.now }
        ensures { result.now ≡ (told_in self.now.row_source.program.text.now
            (items_in self.now.row_source.program) item).target_uses }
    {
        if item >= self.checked.len() {
            return &[];
        }
        match self.checked[item] {
            Some(checked) => checked.target_uses.as_slice(),
            None => &[],
        }
    }
}
