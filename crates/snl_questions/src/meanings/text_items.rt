//! A text with its tokens, cut into items.

ghost use Rattle.std.specs.Prelude.{◌≡◌};
ghost use Rattle.snl_kept.specs.Program.{item_tokens};
ghost use Rattle.snl_questions.specs.Items.{tokens_by_item};

use crate::tokens::item_tokens::ItemTokens;

/// A text, and its tokens item by item.
#[derive(Clone, Copy)]
pub struct TextItems<'a> {
    pub text: &'a [u8],
    pub items: ItemTokens<'a>,
    ghost items_are: { tokens_by_item items ≡ item_tokens text.now },
}
