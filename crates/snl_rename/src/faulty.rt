//! Names in faulty items. In: what is kept of a text, and two names. Out: the first token of a
//! faulty item that is one of both and means nothing.

ghost use Rattle.snl_kept.specs.Kept.{IsListed};

use snl_cut::OutOfMemory;
use snl_facts::are_same_bytes;
use snl_kept::Lists;
use snl_lex::{Class, Piece};
use snl_questions::{ItemTokens, Mention, TokenPlace, all_mentions, all_tokens, span_bytes};
use snl_scope::ItemKind;
use snl_tables::Span;
use std::alloc::Global;

/// The old name of a rename, and the new one.
#[derive(Clone, Copy)]
pub struct Names<'a> {
    pub old: &'a [u8],
    pub new: &'a [u8],
}

fn is_faulty(kind: &ItemKind) -> bool {
    matches!(kind, ItemKind::Faulty)
}

fn is_before(mention: &Mention, place: TokenPlace) -> bool {
    let at = mention.at;
    at.item < place.item || (at.item == place.item && at.token < place.token)
}

// Whether a token means something.
fn is_mentioned(mentions: &[Mention], place: TokenPlace) -> bool {
    let number = mentions.partition_point(|mention| is_before(mention, place));
    match mentions.get(number) {
        Some(mention) => mention.at == place,
        None => false,
    }
}

// A token as a span, if it is one of both names.
fn named_as(text: &[u8], token: &Piece, names: Names<'_>) -> Option<Span> {
    let span = Span {
        start: token.start,
        len: token.len,
    };
    let name = span_bytes(text, span);
    let is_one = are_same_bytes(name, names.old) || are_same_bytes(name, names.new);
    if matches!(token.kind, Class::Name) && is_one {
        Some(span)
    } else {
        None
    }
}

// The first such token of an item.
fn found_in(
    text: &[u8],
    tokens: &[Piece],
    item: usize,
    mentions: &[Mention],
    names: Names<'_>,
) -> Option<Span> {
    for number in 0..tokens.len() {
        if let Some(span) = named_as(text, &tokens[number], names) {
            let place = TokenPlace {
                item,
                token: number,
            };
            if !is_mentioned(mentions, place) {
                return Some(span);
            }
        }
    }
    None
}

// The first such token of these items.
fn found_among(
    text: &[u8],
    items: &ItemTokens<'_>,
    kinds: &[ItemKind],
    mentions: &[Mention],
    names: Names<'_>,
) -> Option<Span> {
    for item in 0..kinds.len() {
        if is_faulty(&kinds[item]) {
            let tokens = items.tokens_of(item)?;
            if let Some(span) = found_in(text, tokens, item, mentions, names) {
                return Some(span);
            }
        }
    }
    None
}

/// The first token of a faulty item that is one of both names and means nothing, if there is one.
pub fn faulty_use(
    alloc: Global,
    text: &[u8],
    lists: &Lists,
    names: Names<'_>,
) -> Result<Option<Span>, OutOfMemory>
    requires { IsListed text.now lists.now }
{
    if !lists.links.kinds().iter().any(is_faulty) {
        return Ok(None);
    }
    let mentions = all_mentions(alloc, text, lists)?;
    let tokens = all_tokens(alloc, &lists.pieces)?;
    let items = ItemTokens::of_text(text, &tokens, &lists.items.ends);
    Ok(found_among(text, &items, lists.links.kinds(), &mentions, names))
}
