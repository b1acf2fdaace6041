//! State sets by their names, and the braces that end them.

ghost use Rattle.std.specs.Prelude.{◌≡◌, ◌≤◌, length};
ghost use Rattle.snl_related.specs.Related.{end_at, ends_at, first_set, is_called, is_end, last_end, set_called};

use snl_questions::{TextItems, TokenPlace, span_bytes};
use snl_scope::{ItemKind, Links};
use snl_tables::Span;

// Whether a span has these bytes.
fn is_called(text: &[u8], name: &[u8], span: Option<Span>) -> bool
    ensures { result ≡ is_called text.now name.now span }
{
    match span {
        Some(span) => span_bytes(text, span) == name,
        None => false,
    }
}

// An item, where it begins a state set of the name.
fn set_called(links: &Links, items: &TextItems, name: &[u8], item: usize) -> Option<usize>
    ensures { result ≡ set_called items.now.text.now links.now.outlines name.now item }
{
    if links.begins_set(item)
        && is_called(
            items.text,
            name,
            items.span_at(TokenPlace { item, token: 1 }),
        )
    {
        Some(item)
    } else {
        None
    }
}

/// The item that begins the first state set of a name.
pub fn first_set(links: &Links, items: &TextItems, name: &[u8]) -> Option<usize>
    ensures { result ≡ first_set items.now.text.now links.now.outlines name.now
        (length links.now.outlines) }
{
    let mut first = None;
    for item in 0..links.item_count() {
        first = first.or(set_called(links, items, name, item));
    }
    first
}

fn is_end(kind: ItemKind) -> bool
    ensures { result ≡ is_end kind }
{
    matches!(kind, ItemKind::SsEnd)
}

/// Whether an item is a `}` of a state set, or one that closes none.
pub fn ends_at(kinds: &[ItemKind], item: usize) -> bool
    ensures { result ≡ ends_at kinds.now item }
{
    match kinds.get(item) {
        Some(kind) => is_end(*kind),
        None => false,
    }
}

fn end_at(kinds: &[ItemKind], item: usize) -> Option<usize>
    ensures { result ≡ end_at kinds.now item }
{
    if ends_at(kinds, item) {
        Some(item)
    } else {
        None
    }
}

/// The last such item before another one.
pub fn last_end(kinds: &[ItemKind], before: usize) -> Option<usize>
    ensures { result ≡ last_end kinds.now before }
{
    let mut last = None;
    for item in 0..before {
        last = end_at(kinds, item).or(last);
    }
    last
}
