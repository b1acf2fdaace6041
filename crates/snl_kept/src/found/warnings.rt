//! Whether warnings are shown: the items of a program and their links come in, the last setting
//! goes out. It knows nothing of what is found.
#![tactic(auto)]

ghost use Rattle.std.specs.Prelude.{◌≡◌, All, IfOk, map};
ghost use Rattle.std.specs.Option.{option_copied};
ghost use Rattle.snl_lex.specs.Pieces.{LiesIn};
ghost use Rattle.snl_kept.specs.Linked.{outlines_of};
ghost use Rattle.snl_kept.specs.Parts.{IsPart, item_of_part, kind_of_part, tokens_of_part, tree_of_part};
ghost use Rattle.snl_kept.specs.Warnings.{setting_in, shows_warnings};

use crate::found::program::Part;
use snl_cut::OutOfMemory;
use snl_grammar::tree::item::Item;
use snl_item_check::warning_setting;
use snl_items::TokenList;
use snl_lex::Piece;
use snl_scope::{ItemKind, Links, Source};
use std::alloc::Global;

// What an item says of warnings.
fn setting_in(source: &Source, tree: Option<&Item>, links: &Links, item: usize) -> Option<bool>
    requires { All (LiesIn source.now.text.now) source.now.tokens.now }
    ensures { result ≡ setting_in source.now.text.now links.now.outlines item source.now.tokens.now (option_copied tree.entry) }
{
    match tree {
        Some(tree) => warning_setting(source, tree, links, item),
        None => None,
    }
}

// What an item says of warnings. Only the tokens of an option are listed.
fn setting_of_part(
    alloc: Global,
    text: &[u8],
    tokens: &TokenList,
    part: &Part,
    kind: ItemKind,
    links: &Links,
    item: usize,
    own: &mut Vec<Piece>,
) -> Result<Option<bool>, OutOfMemory>
    requires tokens { All (LiesIn text.now) tokens.now }
    requires part { IsPart text.now tokens.now part.now }
    requires kind { kind ≡ kind_of_part part.now }
    ensures { IfOk result (λ o. o ≡ setting_in text.now links.now.outlines item (tokens_of_part tokens.now part.now) (tree_of_part part.now)) }
{
    if !kind.is_option() {
        return Ok(None);
    }
    tokens.list(alloc, part.start as usize, part.stop as usize, own)?;
    let source = Source {
        text,
        tokens: own,
        alloc,
    };
    Ok(setting_in(&source, part.entry.parsed.tree(), links, item))
}

/// Whether warnings are shown, where these are the kinds of the items.
pub fn shows_warnings(
    alloc: Global,
    text: &[u8],
    tokens: &TokenList,
    parts: &[Part],
    kinds: &[ItemKind],
    links: &Links,
) -> Result<bool, OutOfMemory>
    requires tokens { All (LiesIn text.now) tokens.now }
    requires parts { All (IsPart text.now tokens.now) parts.now }
    requires kinds { kinds.now ≡ map kind_of_part parts.now }
    requires links { links.now.outlines ≡ outlines_of text.now (map (item_of_part tokens.now) parts.now) }
    ensures { IfOk result (λ shown. shown ≡ shows_warnings text.now (map (item_of_part tokens.now) parts.now)) }
{
    let mut shown = true;
    let mut own = Vec::new(alloc);
    for (item, part) in parts.iter().enumerate() {
        let kind = kinds[item];
        let setting = setting_of_part(alloc, text, tokens, part, kind, links, item, &mut own)?;
        if let Some(setting) = setting {
            shown = setting;
        }
    }
    Ok(shown)
}
