//! Reads what comes after an operand: subscripts, calls, members, `++` and `--`.
#![tactic(auto, unfolding(crate::proofs::Opened::Expressions::suffixes))]

ghost use Rattle.std.specs.Prelude.{◌≡◌, [], IfOk, Some};
ghost use Rattle.snl_lex.specs.declared.kind.Kind.TheVariants as kind;
ghost use Rattle.snl_expression.specs.Nests.{Nests};
ghost use Rattle.snl_grammar.specs.Reading.Expressions as spec;
ghost use Rattle.snl_grammar.specs.Steps as read;
ghost use Rattle.snl_expression.specs.Reads.{ReadsFrom};
ghost use Rattle.snl_grammar.specs.declared.tree.expression.Suffix.TheVariants as suffixes;

use crate::expression::Expressions;
use crate::lists::many;
use crate::stop::Stop;
use crate::token_steps::{expect, kind_at, past};
use snl_grammar::tree::expression::{Expr, Suffix};
use snl_lex::Kind;
use sqlite_items::{Boxed, Items};
use std::alloc::{AllocError, Global};

/// An operand with what comes after it.
pub(super) fn suffixed(
    alloc: Global,
    operand: Expr,
    suffixes: Items<Suffix>,
) -> Result<Expr, AllocError>
    ensures { IfOk result (λ e. e ≡ spec.suffixed operand suffixes) }
{
    if suffixes.is_empty() {
        Ok(operand)
    } else {
        Ok(Expr::Postfix(Boxed::new(alloc, operand)?, suffixes))
    }
}

// "." NAME
// .low
fn dot(kinds: &[Kind], at: usize) -> Result<(Option<Suffix>, usize), Stop>
    ensures { ReadsFrom kinds.now at result (spec.member kind.Dot suffixes.Member) }
{
    let at = expect(kinds, at, Kind::Dot)?;
    let name = at;
    let at = expect(kinds, at, Kind::Name)?;
    Ok((Some(Suffix::Member(name)), at))
}

// "->" NAME
// ->next
fn arrow(kinds: &[Kind], at: usize) -> Result<(Option<Suffix>, usize), Stop>
    ensures { ReadsFrom kinds.now at result (spec.member kind.Arrow suffixes.Arrow) }
{
    let at = expect(kinds, at, Kind::Arrow)?;
    let name = at;
    let at = expect(kinds, at, Kind::Name)?;
    Ok((Some(Suffix::Arrow(name)), at))
}

// "++"
// ++, as in n++
fn increment(kinds: &[Kind], at: usize) -> Result<(Option<Suffix>, usize), Stop>
    ensures { ReadsFrom kinds.now at result (read.word kind.PlusPlus (Some suffixes.Increment)) }
{
    let at = expect(kinds, at, Kind::PlusPlus)?;
    Ok((Some(Suffix::Increment), at))
}

// "--"
// --, as in n--
fn decrement(kinds: &[Kind], at: usize) -> Result<(Option<Suffix>, usize), Stop>
    ensures { ReadsFrom kinds.now at result (read.word kind.MinusMinus (Some suffixes.Decrement)) }
{
    let at = expect(kinds, at, Kind::MinusMinus)?;
    Ok((Some(Suffix::Decrement), at))
}

impl<F: Fn(Global, &[Kind], usize, usize) -> Result<(Expr, usize), Stop>> Expressions<F> {
    // "[" expr "]"
    // [i + 1]
    fn subscript(&self, kinds: &[Kind], at: usize) -> Result<(Option<Suffix>, usize), Stop>
        requires { Nests self.now.depth (F.pre self.now.single) (F.post self.now.single) }
        ensures { ReadsFrom kinds.now at result (spec.inside self.now.depth spec.subscript) }
    {
        let at = expect(kinds, at, Kind::OpenBracket)?;
        let (x, at) = self.sequence(kinds, at)?;
        past(kinds, at, Kind::CloseBracket, Some(Suffix::Subscript(x)))
    }

    // "(" [ assignx { "," assignx } ] ")"
    // (v, 2 * n)
    fn call(&self, kinds: &[Kind], at: usize) -> Result<(Option<Suffix>, usize), Stop>
        requires { Nests self.now.depth (F.pre self.now.single) (F.post self.now.single) }
        ensures { ReadsFrom kinds.now at result (spec.inside self.now.depth spec.call) }
    {
        let at = expect(kinds, at, Kind::OpenParen)?;
        let (all, at) = self.arguments(kinds, at)?;
        Ok((Some(Suffix::Call(all)), at))
    }

    // [ suffix ], where
    // suffix = "[" expr "]" | "(" [ assignx { "," assignx } ] ")" | "." NAME | "->" NAME
    //     | "++" | "--"
    fn next_suffix(&self, kinds: &[Kind], at: usize) -> Result<(Option<Suffix>, usize), Stop>
        requires { Nests self.now.depth (F.pre self.now.single) (F.post self.now.single) }
        ensures { ReadsFrom kinds.now at result (spec.inside self.now.depth spec.next_suffix) }
    {
        match kind_at(kinds, at) {
            Some(Kind::OpenBracket) => self.subscript(kinds, at),
            Some(Kind::OpenParen) => self.call(kinds, at),
            Some(Kind::Dot) => dot(kinds, at),
            Some(Kind::Arrow) => arrow(kinds, at),
            Some(Kind::PlusPlus) => increment(kinds, at),
            Some(Kind::MinusMinus) => decrement(kinds, at),
            _ => Ok((None, at)),
        }
    }

    // { suffix }
    // [i].next->low
    pub(super) fn suffixes(
        &self,
        kinds: &[Kind],
        start: usize,
    ) -> Result<(Items<Suffix>, usize), Stop>
        requires { Nests self.now.depth (F.pre self.now.single) (F.post self.now.single) }
        ensures { ReadsFrom kinds.now start result
            (read.many (spec.inside self.now.depth spec.next_suffix) []) }
    {
        many(
            self.alloc,
            kinds,
            start,
            Items::new(self.alloc),
            |kinds, at| self.next_suffix(kinds, at),
        )
    }
}
