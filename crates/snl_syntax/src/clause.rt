//! Reads clauses on variables, options, and foreign names.
#![tactic(auto, unfolding(crate::proofs::Opened::Clauses::clauses))]

ghost use Rattle.snl_grammar.specs.Reading.Clauses as spec;
ghost use Rattle.snl_expression.specs.Reads.{ReadsFrom};

mod channels;
mod foreign_names;
mod operands;
mod options;

use crate::clause::channels::channel;
use crate::clause::operands::{flag, flag_part, queue_part, subscript_part};
pub use foreign_names::foreign;
pub use options::option_line;
use snl_expression::{Stop, expect, kind_at, past};
use snl_grammar::tree::clause::Clause;
use snl_lex::Kind;
use std::alloc::Global;

// assign = "assign" NAME channel ";"
// assign speed to "sp:a";
fn assign(alloc: Global, kinds: &[Kind], at: usize) -> Result<(Clause, usize), Stop>
    ensures { ReadsFrom kinds.now at result spec.assign }
{
    let at = expect(kinds, at, Kind::Assign)?;
    let name = at;
    let at = expect(kinds, at, Kind::Name)?;
    let (channel, at) = channel(alloc, kinds, at)?;
    past(kinds, at, Kind::Semicolon, Clause::Assign { name, channel })
}

// monitor = "monitor" NAME [ "[" INT "]" ] ";"
// monitor speed;
fn monitor(kinds: &[Kind], at: usize) -> Result<(Clause, usize), Stop>
    ensures { ReadsFrom kinds.now at result spec.monitor }
{
    let at = expect(kinds, at, Kind::Monitor)?;
    let name = at;
    let at = expect(kinds, at, Kind::Name)?;
    let (subscript, at) = subscript_part(kinds, at)?;
    let at = expect(kinds, at, Kind::Semicolon)?;
    Ok((Clause::Monitor { name, subscript }, at))
}

// sync = "sync" NAME [ "[" INT "]" ] ["to"] NAME ";"
// sync speed to changed;
fn sync(kinds: &[Kind], at: usize) -> Result<(Clause, usize), Stop>
    ensures { ReadsFrom kinds.now at result spec.sync }
{
    let at = expect(kinds, at, Kind::Sync)?;
    let name = at;
    let at = expect(kinds, at, Kind::Name)?;
    let (subscript, at) = subscript_part(kinds, at)?;
    let (flag, at) = flag(kinds, at)?;
    let at = expect(kinds, at, Kind::Semicolon)?;
    let clause = Clause::Sync {
        name,
        subscript,
        flag,
    };
    Ok((clause, at))
}

// NAME [ "[" INT "]" ] [ ["to"] NAME ] [ INT ] ";"
// speed to changed 20;
fn syncq_rest(kinds: &[Kind], at: usize, capital: bool) -> Result<(Clause, usize), Stop>
    ensures { ReadsFrom kinds.now at result (spec.syncq_rest capital) }
{
    let name = at;
    let at = expect(kinds, at, Kind::Name)?;
    let (subscript, at) = subscript_part(kinds, at)?;
    let (flag, at) = flag_part(kinds, at)?;
    let (queue, at) = queue_part(kinds, at)?;
    let at = expect(kinds, at, Kind::Semicolon)?;
    let clause = Clause::Syncq {
        capital,
        name,
        subscript,
        flag,
        queue,
    };
    Ok((clause, at))
}

// syncq = "syncq" NAME [ "[" INT "]" ] [ ["to"] NAME ] [ INT ] ";"
// syncq speed to changed 20;
fn syncq(kinds: &[Kind], at: usize) -> Result<(Clause, usize), Stop>
    ensures { ReadsFrom kinds.now at result spec.syncq }
{
    let at = expect(kinds, at, Kind::Syncq)?;
    syncq_rest(kinds, at, false)
}

// "syncQ" NAME [ "[" INT "]" ] [ ["to"] NAME ] [ INT ] ";"
// syncQ speed to changed 20;
fn syncq_capital(kinds: &[Kind], at: usize) -> Result<(Clause, usize), Stop>
    ensures { ReadsFrom kinds.now at result spec.syncq_capital }
{
    let at = expect(kinds, at, Kind::SyncqCapital)?;
    syncq_rest(kinds, at, true)
}

/// A clause: `assign`, `monitor`, `sync` or `syncq`, with its `;`.
// assign | monitor | sync | syncq
// monitor speed;
pub fn clause(alloc: Global, kinds: &[Kind], at: usize) -> Result<(Clause, usize), Stop>
    ensures { ReadsFrom kinds.now at result spec.clause }
{
    match kind_at(kinds, at) {
        Some(Kind::Assign) => assign(alloc, kinds, at),
        Some(Kind::Monitor) => monitor(kinds, at),
        Some(Kind::Sync) => sync(kinds, at),
        Some(Kind::Syncq) => syncq(kinds, at),
        Some(Kind::SyncqCapital) => syncq_capital(kinds, at),
        _ => Err(Stop::Here(at)),
    }
}
