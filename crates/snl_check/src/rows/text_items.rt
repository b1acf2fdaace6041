//! The items of a text: the number of an item comes in, its tokens, its tree and where they are go
//! out. It knows no rules.

ghost use Rattle.std.specs.Prelude.{◌≡◌, option_copied};

use crate::rows::item_source::ItemSource;
use snl_grammar::tree::item::Item;
use snl_items::TokenList;
use snl_scope::ItemKind;
use snl_tables::Span;
use std::alloc::Global;

/// The tokens of a text, the number of the token after each item, and the trees of the items. A
/// faulty item has no tree. What an item is can be asked without a look at its tree, which may be
/// far away in memory.
#[derive(Clone, Copy)]
pub(crate) struct TextItems<'a> {
    pub text: &'a [u8],
    pub tokens: &'a TokenList<'a>,
    pub ends: &'a [usize],
    pub trees: &'a [Option<&'a Item>],
    pub kinds: &'a [ItemKind],
    pub alloc: Global,
}

impl<'a> TextItems<'a> {
    ghost use Rattle.std.specs.Prelude.{◌<◌, ◌≤◌, length, option_and_then, slice_get, slice_index};
    ghost use Rattle.snl_walk.specs.Tokens.{IsSource};
    ghost use Rattle.snl_summary.specs.Summaries.{kind_of};
    ghost use Rattle.snl_check.specs.Collected.{AreTextItems, items_in};
    ghost use Rattle.snl_item_check.specs.Items.{start_of, tokens_in, tree_in};
    ghost use Rattle.snl_check.specs.ItemTokens.{own_tokens};
    ghost use Rattle.snl_items.specs.OwnTokens.{tokens_between};
    ghost use Rattle.snl_check.specs.ItemSpans.{header_name, program_name, span_at};

    // The number of the first token of an item.
    fn start(&self, item: usize) -> usize
        requires program { AreTextItems self.now }
        requires inside { item < length self.now.ends.now }
        ensures start { result ≡ start_of 0 self.now.ends.now item }
        ensures before { result ≤ slice_index self.now.ends.now item }
        ensures within { slice_index self.now.ends.now item ≤ length self.now.tokens.now }
    {
        if item == 0 { 0 } else { self.ends[item - 1] }
    }

    // From which number on, and up to which, the tokens of an item are.
    fn range(&self, item: usize) -> (usize, usize)
        requires { AreTextItems self.now }
        ensures { tokens_between self.now.tokens.now result.0 result.1 ≡ tokens_in (items_in self.now) item }
    {
        if item >= self.ends.len() {
            return (0, 0);
        }
        (self.start(item), self.ends[item])
    }

    /// The tree of an item.
    pub(crate) fn tree(&self, item: usize) -> Option<&'a Item>
        requires { AreTextItems self.now }
        ensures { option_copied result ≡ tree_in (items_in self.now) item }
    {
        if item < self.trees.len() {
            self.trees[item]
        } else {
            None
        }
    }

    /// What an item is. One that isn't there is as a faulty one.
    pub(crate) fn kind(&self, item: usize) -> ItemKind
        requires { AreTextItems self.now }
        ensures { result ≡ kind_of (tree_in (items_in self.now) item) }
    {
        if item < self.kinds.len() {
            self.kinds[item]
        } else {
            ItemKind::Faulty
        }
    }

    /// The tokens of an item, and the memory for what is made of them.
    pub(crate) fn source(&self, item: usize) -> ItemSource<'a>
        requires { AreTextItems self.now }
        ensures source { IsSource result.text.now (own_tokens result) }
        ensures text { result.text.now ≡ self.now.text.now }
        ensures tokens { own_tokens result ≡ tokens_in (items_in self.now) item }
    {
        let (start, stop) = self.range(item);
        ItemSource {
            text: self.text,
            tokens: self.tokens,
            start,
            stop,
            alloc: self.alloc,
        }
    }

    /// Where a token of an item is.
    pub(crate) fn span(&self, item: usize, number: usize) -> Span
        requires { AreTextItems self.now }
        ensures { result ≡ span_at (items_in self.now) item number }
    {
        self.source(item).span(number)
    }

    // Where the name of the program is, if the item is a header.
    fn header(&self, item: usize) -> Option<Span>
        requires { AreTextItems self.now }
        ensures { result ≡ option_and_then header_name (slice_get (items_in self.now) item) }
    {
        match self.tree(item)? {
            Item::Header {
                name,
                parameters: _,
            } => Some(self.span(item, *name)),
            _ => None,
        }
    }

    /// Where the name of the program is: that of the first header that isn't faulty.
    pub(crate) fn name(&self) -> Option<Span>
        requires { AreTextItems self.now }
        ensures { result ≡ program_name (items_in self.now) }
    {
        for item in 0..self.trees.len() {
            let name = self.header(item);
            if name.is_some() {
                return name;
            }
        }
        None
    }
}
