//! Reads lists, element after element. The elements are of any type, so that the proof of what is
//! freed on the way out looks into no tree.

ghost use Rattle.std.specs.Prelude.{Option};
ghost use Rattle.snl_expression.specs.Elements.{IsReadBy};
ghost use Rattle.snl_grammar.specs.Steps as read;
ghost use Rattle.snl_grammar.specs.Steps.{Reader};
ghost use Rattle.snl_expression.specs.Reads.{ReadsFrom};
ghost use Rattle.snl_grammar.specs.declared.step.Step as steps;

use crate::parts::{ended, with};
use crate::stop::Stop;
use crate::token_steps::turns;
use snl_grammar::Step;
use snl_lex::Kind;
use sqlite_items::Items;
use std::alloc::Global;

/// What was found, and all elements after it.
pub fn many<T: Drop, N: Fn(&[Kind], usize) -> Result<(Option<T>, usize), Stop>>(
    alloc: Global,
    kinds: &[Kind],
    start: usize,
    found: Items<T>,
    next: N,
) -> Result<(Items<T>, usize), Stop>
    requires { N.IsAlwaysCallable next }
    ensures { (reader : Reader (Option T)) → IsReadBy (N.post next) reader →
        ReadsFrom kinds.now start result (read.many reader found) }
{
    let mut found = found;
    let mut at = start;
    for _turn in 0..turns(kinds, start) {
        let (element, after) = next(kinds, at)?;
        at = after;
        match element {
            None => return Ok((found, at)),
            Some(item) => found = with(alloc, found, item)?,
        }
    }
    Ok((found, at))
}

/// What was found, and all elements after it up to what ends them.
pub fn until<T: Drop, E: Drop, N: Fn(&[Kind], usize) -> Result<(Step<T, E>, usize), Stop>>(
    alloc: Global,
    kinds: &[Kind],
    start: usize,
    found: Items<T>,
    next: N,
) -> Result<((Items<T>, E), usize), Stop>
    requires { N.IsAlwaysCallable next }
    ensures { (reader : Reader (steps.Step T E)) → IsReadBy (N.post next) reader →
        ReadsFrom kinds.now start result (read.until reader found) }
{
    let mut found = found;
    let mut at = start;
    for _turn in 0..turns(kinds, start) {
        let (step, after) = next(kinds, at)?;
        at = after;
        match step {
            Step::More(item) => found = with(alloc, found, item)?,
            Step::Last(last, value) => return Ok((ended(alloc, found, last, value)?, at)),
        }
    }
    Err(Stop::Here(at))
}
