//! What is found by links, at its place: findings at tokens of items come in, findings at offsets
//! go out. It knows nothing of what the findings mean.
#![tactic(auto)]

ghost use Rattle.std.specs.Prelude.{◌≡◌, ◌++◌, All, OnOk, map, slice_get};
ghost use Rattle.snl_kept.specs.Linked.{finding_at, linked_finding, token_of};
ghost use Rattle.snl_kept.specs.Parts.{IsPart, item_of_part, tokens_of_part};

use crate::found::findings::Finding;
use crate::found::program::Part;
use snl_codes::Code;
use snl_cut::OutOfMemory;
use snl_items::TokenList;
use snl_lex::Piece;
use snl_scope::LinkFault;

/// A finding at a token, or at the text's beginning.
pub fn finding_at(code: Code, token: Option<Piece>) -> Finding
    ensures { result ≡ finding_at code token }
{
    match token {
        Some(token) => Finding {
            offset: token.start,
            code,
            subject: code.quoted_bytes(token.len),
        },
        None => Finding {
            offset: 0,
            code,
            subject: 0,
        },
    }
}

// The token of an item by its number in it.
fn own_token(tokens: &TokenList, part: &Part, number: usize) -> Option<Piece>
    ensures { result ≡ slice_get (tokens_of_part tokens.now part.now) number }
{
    let start = part.start as usize;
    if number < (part.stop as usize).saturating_sub(start) {
        tokens.get(start + number)
    } else {
        None
    }
}

// The token of an item by the number of the item and its own number in it.
fn token_of(
    text: &[u8],
    tokens: &TokenList,
    parts: &[Part],
    item: usize,
    number: usize,
) -> Option<Piece>
    requires { All (IsPart text.now tokens.now) parts.now }
    ensures { result ≡ token_of (map (item_of_part tokens.now) parts.now) item number }
{
    match parts.get(item) {
        Some(part) => own_token(tokens, part, number),
        None => None,
    }
}

/// Adds findings of links, at their tokens.
pub fn add_placed(
    text: &[u8],
    tokens: &TokenList,
    parts: &[Part],
    faults: &[LinkFault],
    found: &mut Vec<Finding>,
) -> Result<(), OutOfMemory>
    requires { All (IsPart text.now tokens.now) parts.now }
    ensures { OnOk result (found.new.items ≡ found.old.items ++ map (linked_finding (map (item_of_part tokens.now) parts.now)) faults.now) }
{
    found.reserve(faults.len())?;
    for fault in faults {
        let token = token_of(text, tokens, parts, fault.item, fault.token);
        found.push(finding_at(fault.code, token))?;
    }
    Ok(())
}
