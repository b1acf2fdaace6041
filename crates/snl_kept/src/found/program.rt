//! The items of a text: its tokens, where its items end among them and what is kept of each come
//! in, the parts of the text go out, and the finding at each faulty item.
//! It knows nothing of what the trees mean.
#![tactic(auto)]

ghost use Rattle.std.specs.Prelude.{◌≡◌, ◌<◌, ◌≤◌, ◌++◌, All, IfOk, List, OnOk, length, map, option_copied, ℕ};
ghost use Rattle.std.specs.List.{filter_map};
ghost use Rattle.snl_cut.specs.Cut.{members};
ghost use Rattle.snl_items.specs.Items.{item_ends};
ghost use Rattle.snl_lex.specs.LineList.{IsLineList};
ghost use Rattle.snl_lex.specs.PieceList.{spelled};
ghost use Rattle.snl_lex.specs.Pieces.{LiesIn, tokens_of};
ghost use Rattle.snl_grammar.specs.Outcome.{BlamesWithin};
ghost use Rattle.snl_kept.specs.Entries.{entry_by};
ghost use Rattle.snl_kept.specs.Faults.{at_token, fault_at, faults_of};
ghost use Rattle.snl_kept.specs.Parts.{EndsWithin, IsPart, item_of_part, tokens_of_part, tree_of_part};
ghost use Rattle.snl_kept.specs.Program.{program_item};

use crate::entries::Entry;
use crate::found::findings::Finding;
use crate::shared::Shared;
use snl_codes::Code;
use snl_cut::{OutOfMemory, one_cut};
use snl_grammar::tree::item::Item;
use snl_grammar::{Parsed, Tokens, outcome_told, same_spelling_same_tree};
use snl_items::TokenList;
use snl_lex::{LineList, Piece};
use snl_scope::same_spelling_same_summary;
use std::alloc::Global;

/// A text as it is cut: its lines, its tokens, and where its items end among these.
#[derive(Clone, Copy)]
pub struct CutText<'a, 't> {
    pub text: &'a [u8],
    pub lines: &'a LineList,
    pub tokens: &'a TokenList<'t>,
    pub ends: &'a [u32],
    ghost lines_are: { IsLineList text.now lines.now },
    ghost tokens_are: { tokens.now ≡ tokens_of text.now },
    ghost ends_are: { ends.now ≡ item_ends text.now },
}

/// An item of a text: which of the text's tokens are its own, by their numbers, and what is kept of
/// it.
#[derive(Clone, Copy)]
pub struct Part<'a> {
    pub start: u32,
    pub stop: u32,
    pub entry: &'a Entry,
}

/// The items of a text end one after another, each among its tokens.
pub fn items_end_in_order()
    ensures { (text : List ℕ) → EndsWithin 0 (item_ends text) (length (tokens_of text)) }
{
    one_cut::<Tokens>();
}

/// The items that end at these tokens.
pub fn parts_along<'a>(
    alloc: Global,
    text: &[u8],
    tokens: &TokenList,
    ends: &[u32],
    entries: &[&'a Shared<Entry>],
) -> Result<Vec<Part<'a>>, OutOfMemory>
    requires ends { EndsWithin 0 ends.now (length tokens.now) }
    requires entries { map (λ e. e.now) entries.now ≡ map entry_by (members (spelled text.now tokens.now) 0 ends.now) }
    ensures items { IfOk result (λ parts. map (item_of_part tokens.now) parts.items ≡ map (program_item text.now) (members tokens.now 0 ends.now)) }
    ensures inside { IfOk result (λ parts. All (IsPart text.now tokens.now) parts.items) }
{
    outcome_told();
    same_spelling_same_tree();
    same_spelling_same_summary();
    let mut parts = Vec::with_capacity(alloc, ends.len())?;
    let mut start = 0;
    for (number, end) in ends.iter().enumerate() {
        let stop = *end;
        let entry = entries[number].get();
        parts.push(Part { start, stop, entry })?;
        start = stop;
    }
    Ok(parts)
}

// A finding at a token, which it does not quote.
fn at_token(code: Code, token: Piece) -> Finding
    ensures { result ≡ at_token code token }
{
    Finding {
        offset: token.start,
        code,
        subject: 0,
    }
}

/// What is found at an item with these tokens, as the parser left it.
pub fn fault_at(tokens: &[Piece], parsed: &Parsed) -> Option<Finding>
    requires { BlamesWithin (length tokens.now) parsed.now }
    ensures { result ≡ fault_at tokens.now parsed.now }
{
    match parsed {
        Parsed::Sound(_) => None,
        Parsed::BadToken(at) => Some(at_token(Code::E01, tokens[*at])),
        Parsed::NoItem(at) => Some(at_token(Code::E02, tokens[*at])),
    }
}

// What is found at an item, as the parser left it. The tokens of a faulty one are listed.
fn fault_in(
    alloc: Global,
    text: &[u8],
    tokens: &TokenList,
    part: &Part,
    tree: Option<&Item>,
    own: &mut Vec<Piece>,
) -> Result<Option<Finding>, OutOfMemory>
    requires part { IsPart text.now tokens.now part.now }
    requires tree { option_copied tree ≡ tree_of_part part.now }
    ensures { IfOk result (λ found. found ≡ fault_at (tokens_of_part tokens.now part.now) part.now.entry.now.parsed) }
{
    outcome_told();
    if tree.is_some() {
        return Ok(None);
    }
    tokens.list(alloc, part.start as usize, part.stop as usize, own)?;
    Ok(fault_at(own, &part.entry.parsed))
}

/// Adds what is found at the faulty ones of these items, which have no tree.
pub fn add_faults(
    alloc: Global,
    text: &[u8],
    tokens: &TokenList,
    parts: &[Part],
    trees: &[Option<&Item>],
    found: &mut Vec<Finding>,
) -> Result<(), OutOfMemory>
    requires parts { All (IsPart text.now tokens.now) parts.now }
    requires trees { map option_copied trees.now ≡ map tree_of_part parts.now }
    ensures { OnOk result (found.new.items ≡ found.old.items ++ faults_of text.now (map (item_of_part tokens.now) parts.now)) }
{
    let mut own = Vec::new(alloc);
    for (number, part) in parts.iter().enumerate() {
        if let Some(fault) = fault_in(alloc, text, tokens, part, trees[number], &mut own)? {
            found.push(fault)?;
        }
    }
    Ok(())
}
