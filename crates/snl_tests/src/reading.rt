//! What the tests of the parser share: a text comes in, its tokens, and what is answered for them
//! as one item, go out.

ghost use Rattle.snl_lex.specs.Pieces.{LiesIn};
ghost use Rattle.std.specs.Prelude.{All, IfOk};

use snl_cut::Count;
use snl_lex::{Piece, lex, tokens_among};
use snl_syntax::tree::item::Item;
use snl_syntax::{ParseFault, parse_item};
use std::alloc::Global;
use std::process::Abort;
use std::test::Fail;

/// The tokens of a text.
pub fn tokens_of(alloc: Global, text: &[u8]) -> Result<Vec<Piece>, Fail>
    ensures { IfOk result (λ tokens. All (LiesIn text.now) tokens.items) }
{
    let pieces = lex(alloc, text, &mut Count::new())?;
    let tokens = tokens_among(alloc, &pieces)?;
    Ok(tokens)
}

/// The fault that is answered for these tokens of a text; none for no tokens.
pub fn fault_of(alloc: Global, text: &[u8], tokens: &[Piece]) -> Option<ParseFault>
    requires { All (LiesIn text.now) tokens.now }
{
    if tokens.is_empty() {
        return None;
    }
    parse_item(alloc, text, tokens, &mut Count::new()).err()
}

/// The tree of the item that a text consists of.
pub fn item_of(alloc: Global, text: &[u8]) -> Result<Item, Fail> {
    let tokens = tokens_of(alloc, text)?;
    if tokens.is_empty() {
        return Err(ParseFault::NoItem { at: 0 })?;
    }
    Ok(parse_item(alloc, text, &tokens, &mut Count::new())?)
}

/// A text, and the number of the token that is blamed, where it is no item.
pub type Row = (&'static str, Option<usize>);

fn read_rows(rt: &impl Abort, alloc: Global, rows: &[Row]) -> Result<(), Fail> {
    for (text, blamed) in rows {
        read_row(rt, alloc, text, *blamed)?;
    }
    Ok(())
}

/// Reads each text of some tables as one item. Without its last token an item is none, and the
/// token before that is blamed.
pub fn read_tables(rt: &impl Abort, alloc: Global, tables: &[&[Row]]) -> Result<(), Fail> {
    for rows in tables {
        read_rows(rt, alloc, rows)?;
    }
    Ok(())
}

/// Reads a text as one item, as a row says.
pub fn read_row(
    rt: &impl Abort,
    alloc: Global,
    text: &str,
    blamed: Option<usize>,
) -> Result<(), Fail> {
    let bytes = text.as_bytes();
    let tokens = tokens_of(alloc, bytes)?;
    let wanted = blamed.map(|at| ParseFault::NoItem { at });
    assert!(rt; fault_of(alloc, bytes, &tokens) == wanted, "at {text}");
    if wanted.is_none() && tokens.len() > 1 {
        let last = tokens.len() - 1;
        let shorter = fault_of(alloc, bytes, &tokens[..last]);
        let wanted = Some(ParseFault::NoItem { at: last - 1 });
        assert!(rt; shorter == wanted, "at {text} without its last token");
    }
    Ok(())
}
