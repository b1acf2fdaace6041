//! The symbols of a document, as the answer to `textDocument/documentSymbol`.
//! In: the id of the request, and symbols, each with its depth. Out: the bytes of the answer, after
//! those that are there: each symbol with those that are in it.
//! Knows nothing of texts, and of what a symbol is in them.

ghost use Rattle.std.specs.Prelude.{◌≡◌, ◌++◌, false, codes, map, IfNone, IfOk, IfSome, OnOk};
ghost use Rattle.serde_json.specs.Written.{comma_if};
ghost use Rattle.snl_say.specs.Answers.{id_data};
ghost use Rattle.snl_say.specs.Parents.{InnermostEnds, NoneEnds, ends_before, innermost_first, one_ends, parents_at};
ghost use Rattle.snl_say.specs.Symbols.{kind_text, forest_of, forest_text, symbol_begin, symbol_end, symbol_of, symbols_text};

use crate::answers::{Id, put_id};
use crate::bytes::put_quoted;
use crate::places::put_range;
use snl_place::Place;
use std::alloc::AllocError;

/// What a symbol is.
#[derive(Clone, Copy, Debug, PartialEq, Eq)]
pub enum SymbolKind {
    /// In the protocol's terms a package.
    Program,
    /// In the protocol's terms a namespace.
    StateSet,
    /// In the protocol's terms a class.
    State,
    Variable,
    /// In the protocol's terms an event.
    EventFlag,
    Function,
}

/// A symbol of a document, from `start` up to `stop`. Its name is there from `name_start` up to
/// `name_stop`. It is in the last symbol before it that has a smaller `depth`, if there is one.
#[derive(Clone, Copy)]
pub struct ShownSymbol<'a> {
    pub kind: SymbolKind,
    pub name: &'a [u8],
    pub start: Place,
    pub stop: Place,
    pub name_start: Place,
    pub name_stop: Place,
    pub depth: usize,
}

/// What is before the children of a symbol: a comma first, where another symbol is before it.
fn begin_text(later: bool) -> &'static [u8]
    ensures { result.now ≡ comma_if later ++ symbol_begin }
{
    if later {
        b",{\"children\":["
    } else {
        b"{\"children\":["
    }
}

/// The bracket that closes the children of a symbol, its kind, and what is before its name.
fn kind_text(kind: SymbolKind) -> &'static [u8]
    ensures { result.now ≡ codes "]" ++ kind_text kind }
{
    match kind {
        SymbolKind::Program => b"],\"kind\":4,\"name\":",
        SymbolKind::StateSet => b"],\"kind\":3,\"name\":",
        SymbolKind::State => b"],\"kind\":5,\"name\":",
        SymbolKind::Variable => b"],\"kind\":13,\"name\":",
        SymbolKind::EventFlag => b"],\"kind\":24,\"name\":",
        SymbolKind::Function => b"],\"kind\":12,\"name\":",
    }
}

/// The bracket that closes the children of a symbol, and all that is after it.
#[tactic(auto, unfolding(crate::specs::Symbols::symbol_end))]
fn put_end(out: &mut Vec<u8>, symbol: &ShownSymbol<'_>) -> Result<(), AllocError>
    ensures { OnOk result (out.new.items ≡ out.old.items
        ++ (codes "]" ++ symbol_end (symbol_of symbol.now))) }
{
    out.extend_from_slice(kind_text(symbol.kind))?;
    put_quoted(out, symbol.name)?;
    out.extend_from_slice(b",\"range\":")?;
    put_range(out, symbol.start, symbol.stop)?;
    out.extend_from_slice(b",\"selectionRange\":")?;
    put_range(out, symbol.name_start, symbol.name_stop)?;
    out.extend_from_slice(b"}")?;
    Ok(())
}

/// Takes out the innermost parent, which is the last, if a symbol of this depth isn't in it.
fn pop_ended<'a>(
    parents: &mut Vec<&'a ShownSymbol<'a>>,
    depth: usize,
) -> Option<&'a ShownSymbol<'a>>
    ensures ended { IfSome result (λ s. InnermostEnds depth (symbol_of s.now)
        (innermost_first parents.old.items) (innermost_first parents.new.items)) }
    ensures stays { IfNone result (parents.new.items ≡ parents.old.items) }
    ensures none { IfNone result (NoneEnds depth (innermost_first parents.old.items)) }
{
    let (innermost, _) = parents.split_last()?;
    if innermost.depth < depth {
        return None;
    }
    parents.pop()
}

/// Ends the parents that a symbol of this depth isn't in, and tells whether there was one.
fn put_ended<'a>(
    out: &mut Vec<u8>,
    parents: &mut Vec<&'a ShownSymbol<'a>>,
    depth: usize,
) -> Result<bool, AllocError>
    ensures text { OnOk result (out.new.items ≡ out.old.items
        ++ ends_before depth (innermost_first parents.old.items)) }
    ensures left { OnOk result (innermost_first parents.new.items
        ≡ parents_at depth (innermost_first parents.old.items)) }
    ensures later { IfOk result (λ later. later
        ≡ one_ends depth (innermost_first parents.old.items)) }
{
    let mut later = false;
    while let Some(symbol) = pop_ended(parents, depth) {
        put_end(out, symbol)?;
        later = true;
    }
    Ok(later)
}

/// The symbols, each with its children, and the bracket that closes them. The parents are those
/// whose children are being written. They are in a list, not on the stack: each depth may be
/// greater than the one before.
fn put_forest<'a>(out: &mut Vec<u8>, all: &'a [ShownSymbol<'a>]) -> Result<(), AllocError>
    ensures { OnOk result (out.new.items ≡ out.old.items
        ++ forest_text false (forest_of (map (λ s. symbol_of s) all.now))) }
{
    let mut parents = Vec::new(*out.allocator());
    for symbol in all {
        let later = put_ended(out, &mut parents, symbol.depth)?;
        out.extend_from_slice(begin_text(later))?;
        parents.push(symbol)?;
    }
    // No depth is below 0, so that all of them end.
    put_ended(out, &mut parents, 0)?;
    out.extend_from_slice(b"]")?;
    Ok(())
}

/// The symbols of a document. The children of a symbol are those after it that are deeper, up to
/// the first that is not. An `Err`, of memory, may leave a front of the bytes.
#[tactic(auto, unfolding(crate::specs::Symbols::symbols_text))]
pub fn put_symbols(out: &mut Vec<u8>, id: Id<'_>, all: &[ShownSymbol<'_>]) -> Result<(), AllocError>
    ensures { OnOk result (out.new.items ≡ out.old.items
        ++ symbols_text (id_data id.entry) (map (λ s. symbol_of s) all.now)) }
{
    out.extend_from_slice(b"{\"id\":")?;
    put_id(out, id)?;
    out.extend_from_slice(b",\"jsonrpc\":\"2.0\",\"result\":[")?;
    put_forest(out, all)?;
    out.extend_from_slice(b"}")?;
    Ok(())
}
