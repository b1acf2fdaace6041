//! Reads the names that `foreign` declares.
#![tactic(auto, unfolding(crate::proofs::Opened::Clauses::foreign_names))]

ghost use Rattle.snl_lex.specs.declared.kind.Kind.TheVariants as kind;
ghost use Rattle.snl_grammar.specs.Reading.Clauses as spec;
ghost use Rattle.snl_grammar.specs.Reading.Expressions as exprs;
ghost use Rattle.snl_grammar.specs.Steps as read;
ghost use Rattle.snl_expression.specs.Reads.{ReadsFrom};

use snl_expression::{Stop, expect, kind_at, many, past, single};
use snl_lex::Kind;
use sqlite_items::Items;
use std::alloc::Global;

// [ "," NAME ]
// , stderr
fn next_name(kinds: &[Kind], at: usize) -> Result<(Option<usize>, usize), Stop>
    ensures { ReadsFrom kinds.now at result (exprs.next_comma (read.expect kind.Name)) }
{
    match kind_at(kinds, at) {
        Some(Kind::Comma) => {
            let at = expect(kinds, at, Kind::Comma)?;
            let name = at;
            let at = expect(kinds, at, Kind::Name)?;
            Ok((Some(name), at))
        }
        _ => Ok((None, at)),
    }
}

// NAME { "," NAME }
// stdout, stderr
fn names(alloc: Global, kinds: &[Kind], at: usize) -> Result<(Items<usize>, usize), Stop>
    ensures { ReadsFrom kinds.now at result (exprs.commas (read.expect kind.Name)) }
{
    let first = at;
    let at = expect(kinds, at, Kind::Name)?;
    let found = single(alloc, first)?;
    many(alloc, kinds, at, found, |kinds, at| next_name(kinds, at))
}

/// `foreign` and names, with `;` after them.
// foreign = "foreign" NAME { "," NAME } ";"
// foreign stdout, stderr;
pub fn foreign(alloc: Global, kinds: &[Kind], at: usize) -> Result<(Items<usize>, usize), Stop>
    ensures { ReadsFrom kinds.now at result spec.foreign }
{
    let at = expect(kinds, at, Kind::Foreign)?;
    let (names, at) = names(alloc, kinds, at)?;
    past(kinds, at, Kind::Semicolon, names)
}
