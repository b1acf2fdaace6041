//! Reads what clauses name besides their variable: a subscript, an event flag, the length of a
//! queue.
#![tactic(auto, unfolding(crate::proofs::Opened::Clauses::operands))]

ghost use Rattle.snl_grammar.specs.Reading.Clauses as spec;
ghost use Rattle.snl_expression.specs.Reads.{ReadsFrom};

use snl_expression::{Stop, accept, expect, kind_at};
use snl_grammar::tree::clause::Flag;
use snl_lex::Kind;

// "[" INT "]"
// [2]
pub(super) fn subscript(kinds: &[Kind], at: usize) -> Result<(usize, usize), Stop>
    ensures { ReadsFrom kinds.now at result spec.subscript }
{
    let at = expect(kinds, at, Kind::OpenBracket)?;
    let number = at;
    let at = expect(kinds, at, Kind::Integer)?;
    let at = expect(kinds, at, Kind::CloseBracket)?;
    Ok((number, at))
}

// [ "[" INT "]" ]
// [2]
pub(super) fn subscript_part(kinds: &[Kind], at: usize) -> Result<(Option<usize>, usize), Stop>
    ensures { ReadsFrom kinds.now at result spec.subscript_part }
{
    match kind_at(kinds, at) {
        Some(Kind::OpenBracket) => {
            let (number, at) = subscript(kinds, at)?;
            Ok((Some(number), at))
        }
        _ => Ok((None, at)),
    }
}

// ["to"] NAME
// to changed
pub(super) fn flag(kinds: &[Kind], at: usize) -> Result<(Flag, usize), Stop>
    ensures { ReadsFrom kinds.now at result spec.flag }
{
    let (to, at) = accept(kinds, at, Kind::To);
    let name = at;
    let at = expect(kinds, at, Kind::Name)?;
    Ok((Flag { to, name }, at))
}

// ["to"] NAME
// to changed
fn some_flag(kinds: &[Kind], at: usize) -> Result<(Option<Flag>, usize), Stop>
    ensures { ReadsFrom kinds.now at result spec.some_flag }
{
    let (flag, at) = flag(kinds, at)?;
    Ok((Some(flag), at))
}

// [ ["to"] NAME ]
// to changed
pub(super) fn flag_part(kinds: &[Kind], at: usize) -> Result<(Option<Flag>, usize), Stop>
    ensures { ReadsFrom kinds.now at result spec.flag_part }
{
    match kind_at(kinds, at) {
        Some(Kind::To) => some_flag(kinds, at),
        Some(Kind::Name) => some_flag(kinds, at),
        _ => Ok((None, at)),
    }
}

// [ INT ]
// 20
pub(super) fn queue_part(kinds: &[Kind], at: usize) -> Result<(Option<usize>, usize), Stop>
    ensures { ReadsFrom kinds.now at result spec.queue_part }
{
    match kind_at(kinds, at) {
        Some(Kind::Integer) => {
            let length = at;
            let at = expect(kinds, at, Kind::Integer)?;
            Ok((Some(length), at))
        }
        _ => Ok((None, at)),
    }
}
