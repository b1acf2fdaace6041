//! The tokens of a text, cut into items. In: the number of an item. Out: the span of one of its
//! tokens, where the item begins and where it ends.

ghost use Rattle.std.specs.Prelude.{◌≡◌, ◌^◌, ◌<◌, ◌≤◌, All, EachIndex, IfSome, length};
ghost use Rattle.std.specs.Prelude.{option_copied, slice_get, slice_index, take};
ghost use Rattle.snl_cut.specs.Cut.{last_end};
ghost use Rattle.snl_lex.specs.Pieces.{piece_end};

use snl_cut::ends_in_order;
use snl_grammar::Tokens;
use snl_lex::{Piece, text_in_pieces};
use snl_tables::Span;

/// The tokens of a text, and where its items end among them. No token is too far off.
#[derive(Clone, Copy)]
pub struct ItemTokens<'a> {
    pub tokens: &'a [Piece],
    pub ends: &'a [u32],
    ghost order: { EachIndex ends.now
        (λ i. last_end 0 (take i ends.now) ≤ slice_index ends.now i) },
    ghost inside: { EachIndex ends.now (λ i. slice_index ends.now i ≤ length tokens.now) },
    ghost near: { All (λ p. piece_end p < 2 ^ 64) tokens.now },
}

/// Where the part with this number begins, by where each part of a list ends.
pub fn begin_of(ends: &[u32], number: usize) -> usize
    requires { number ≤ length ends.now }
    ensures { result ≡ last_end 0 (take number ends.now) }
{
    if number == 0 {
        0
    } else {
        ends[number - 1] as usize
    }
}

impl<'a> ItemTokens<'a> {
    ghost use Rattle.snl_lex.specs.Pieces.{tokens_of};
    ghost use Rattle.snl_items.specs.Items.{item_ends};
    ghost use Rattle.snl_kept.specs.Program.{item_tokens};
    ghost use Rattle.snl_questions.specs.Items.{span_at, start_of, stop_of, tokens_by_item};

    /// The tokens of a text, cut where its items end. The text itself is not read: that it is in
    /// memory says that no token is too far off.
    pub fn of_text(_text: &[u8], tokens: &'a [Piece], ends: &'a [u32]) -> ItemTokens<'a>
        requires tokens { tokens.now ≡ tokens_of _text.now }
        requires ends { ends.now ≡ item_ends _text.now }
        ensures items { tokens_by_item result ≡ item_tokens _text.now }
        ensures ends { result.ends.now ≡ item_ends _text.now }
    {
        text_in_pieces();
        ends_in_order::<Tokens>();
        ItemTokens { tokens, ends }
    }

    // Which of the tokens are those of the item with a number: from the first number up to the
    // second one.
    fn range_of(&self, item: usize) -> (usize, usize)
        requires { item < length self.now.ends.now }
        ensures start { result.0 ≡ last_end 0 (take item self.now.ends.now) }
        ensures stop { result.1 ≡ slice_index self.now.ends.now item }
        ensures order { result.0 ≤ result.1 }
        ensures inside { result.1 ≤ length self.now.tokens.now }
    {
        (begin_of(self.ends, item), self.ends[item] as usize)
    }

    /// The tokens of the item with a number.
    pub fn tokens_of(&self, item: usize) -> Option<&'a [Piece]>
        ensures tokens { option_copied result ≡ slice_get (tokens_by_item self.now) item }
        ensures near { IfSome result (λ own. All (λ p. piece_end p < 2 ^ 64) own.now) }
    {
        if item >= self.ends.len() {
            return None;
        }
        let (start, stop) = self.range_of(item);
        Some(&self.tokens[start..stop])
    }

    /// The span of a token of an item.
    pub fn span_at(&self, item: usize, token: usize) -> Option<Span>
        ensures { result ≡ span_at (tokens_by_item self.now) item token }
    {
        let tokens = self.tokens_of(item)?;
        let token = tokens.get(token)?;
        Some(Span {
            start: token.start,
            len: token.len,
        })
    }

    /// Where an item begins.
    pub fn start_of(&self, item: usize) -> Option<usize>
        ensures { result ≡ start_of (tokens_by_item self.now) item }
    {
        let tokens = self.tokens_of(item)?;
        let first = tokens.first()?;
        Some(first.start)
    }

    /// Where an item ends: after its last byte.
    pub fn stop_of(&self, item: usize) -> Option<usize>
        ensures { result ≡ stop_of (tokens_by_item self.now) item }
    {
        let tokens = self.tokens_of(item)?;
        let last = tokens.last()?;
        Some(last.start + last.len)
    }
}
