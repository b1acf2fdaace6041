//! Reads operands with binary operators between, tier by tier. Tier 1 binds tightest: `* / %`; tier
//! 10 is `||`.
#![tactic(auto, unfolding(crate::proofs::Opened::Expressions::tiers))]

ghost use Rattle.std.specs.Prelude.{◌≡◌, ◌<◌, ◌-◌, [], false, IfOk, None, ℕ};
ghost use Rattle.snl_expression.specs.Nests.{Nests};
ghost use Rattle.snl_grammar.specs.Reading.Expressions as spec;
ghost use Rattle.snl_grammar.specs.Steps as read;
ghost use Rattle.snl_expression.specs.Reads.{ReadsFrom};
ghost use Rattle.snl_expression.specs.Tiers.{tier_between, tier_in};
ghost use Rattle.snl_grammar.specs.Tokens.{ahead};

use crate::expression::Expressions;
use crate::parts::with;
use crate::stop::Stop;
use crate::token_steps::{expect, kind_at, turns};
use snl_grammar::tree::expression::Expr;
use snl_grammar::{Binary, binary_kind, binary_of, tier};
use snl_lex::Kind;
use sqlite_items::{Boxed, Items};
use std::alloc::{AllocError, Global};

/// An operand with the operators and operands after it.
fn chained(alloc: Global, first: Expr, links: Items<(Binary, Expr)>) -> Result<Expr, AllocError>
    ensures { IfOk result (λ e. e ≡ spec.chained first links) }
{
    if links.is_empty() {
        Ok(first)
    } else {
        Ok(Expr::Chain(Boxed::new(alloc, first)?, links))
    }
}

/// The operator of a tier that comes next.
fn binary_at(kinds: &[Kind], at: usize, wanted: usize) -> Option<Binary>
    ensures { result ≡ spec.binary_in wanted (read.kind_at (ahead kinds.now at)) }
{
    let op = binary_of(kind_at(kinds, at)?)?;
    if tier(op) == wanted { Some(op) } else { None }
}

/// The tier of the operator that comes next, if it is one between two operands.
fn tier_at(kinds: &[Kind], at: usize) -> Option<usize>
    ensures { result ≡ tier_in (read.kind_at (ahead kinds.now at)) }
{
    let op = binary_of(kind_at(kinds, at)?)?;
    Some(tier(op))
}

/// The same, if it is above `done` and not above `most`.
fn tier_between(kinds: &[Kind], at: usize, done: usize, most: usize) -> Option<usize>
    ensures { result ≡ tier_between done most (tier_in (read.kind_at (ahead kinds.now at))) }
{
    let next = tier_at(kinds, at)?;
    if done < next && next <= most {
        Some(next)
    } else {
        None
    }
}

impl<F: Fn(Global, &[Kind], usize, usize) -> Result<(Expr, usize), Stop>> Expressions<F> {
    // [ op operand ], with an operator of this tier and an operand of the tighter ones
    // * c, as in b * c
    #[cycle(tiers)]
    fn next_link(
        &self,
        kinds: &[Kind],
        at: usize,
        tier: usize,
    ) -> Result<(Option<(Binary, Expr)>, usize), Stop>
        requires nests { Nests self.now.depth (F.pre self.now.single) (F.post self.now.single) }
        requires some { 0 < tier }
        ensures { ReadsFrom kinds.now at result
            (spec.next_link tier (spec.inside self.now.depth spec.operand (tier - 1))) }
    {
        let Some(op) = binary_at(kinds, at, tier) else {
            return Ok((None, at));
        };
        let at = expect(kinds, at, binary_kind(op))?;
        let (operand, at) = self.operand(kinds, at, tier - 1)?;
        Ok((Some((op, operand)), at))
    }

    // { op operand }
    // * c / d
    #[cycle(tiers)]
    fn links(
        &self,
        kinds: &[Kind],
        start: usize,
        tier: usize,
    ) -> Result<(Items<(Binary, Expr)>, usize), Stop>
        requires nests { Nests self.now.depth (F.pre self.now.single) (F.post self.now.single) }
        requires some { 0 < tier }
        ensures { ReadsFrom kinds.now start result
            (read.many (spec.next_link tier (spec.inside self.now.depth spec.operand (tier - 1)))
            []) }
    {
        let mut found = Items::new(self.alloc);
        let mut at = start;
        for _turn in 0..turns(kinds, start) {
            let (next, after) = self.next_link(kinds, at, tier)?;
            at = after;
            match next {
                None => return Ok((found, at)),
                Some(item) => found = with(self.alloc, found, item)?,
            }
        }
        Ok((found, at))
    }

    // { op prefix }, with operators of the tiers up to this one, after a first operand
    // * b + c
    #[cycle(tiers)]
    pub(super) fn tiers_from(
        &self,
        kinds: &[Kind],
        at: usize,
        tier: usize,
        first: Expr,
    ) -> Result<(Expr, usize), Stop>
        requires { Nests self.now.depth (F.pre self.now.single) (F.post self.now.single) }
        ensures { ReadsFrom kinds.now at result
            (spec.inside self.now.depth spec.tiers_from tier first) }
    {
        let mut first = first;
        let mut at = at;
        let mut done = 0;
        // Each turn takes all operators of one tier. Tiers without one are passed over: most
        // operands are alone.
        while let Some(next) = tier_between(kinds, at, done, tier) {
            let (links, after) = self.links(kinds, at, next)?;
            first = chained(self.alloc, first, links)?;
            at = after;
            done = next;
        }
        Ok((first, at))
    }

    // prefix { op prefix }, with operators of the tiers up to this one
    // a * b + c
    #[cycle(tiers)]
    pub(super) fn operand(
        &self,
        kinds: &[Kind],
        at: usize,
        tier: usize,
    ) -> Result<(Expr, usize), Stop>
        requires { Nests self.now.depth (F.pre self.now.single) (F.post self.now.single) }
        ensures { ReadsFrom kinds.now at result (spec.inside self.now.depth spec.operand tier) }
    {
        let (first, at) = self.prefix(kinds, at)?;
        self.tiers_from(kinds, at, tier, first)
    }
}
