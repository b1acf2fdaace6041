//! Reads operands with what comes before them: signs, `sizeof` and casts.
#![tactic(auto, unfolding(crate::proofs::Opened::Expressions::prefixes))]

ghost use Rattle.std.specs.Prelude.{◌≡◌, [], IfOk};
ghost use Rattle.snl_expression.specs.Nests.{Nests};
ghost use Rattle.snl_grammar.specs.Reading.Expressions as spec;
ghost use Rattle.snl_grammar.specs.Steps as read;
ghost use Rattle.snl_expression.specs.Reads.{ReadsFrom};

use crate::expression::Expressions;
use crate::expression::leaves::atom;
use crate::expression::operands::is_before;
use crate::expression::suffixes::suffixed;
use crate::lists::until;
use crate::parts::one_boxed;
use crate::stop::Stop;
use crate::token_steps::{expect, kind_at, past};
use crate::types::begins_type;
use snl_grammar::tree::expression::{Expr, Prefix};
use snl_grammar::{Sign, Step, sign_kind};
use snl_lex::Kind;
use sqlite_items::{Boxed, Items};
use std::alloc::{AllocError, Global};

/// An operand with what comes before it.
fn prefixed(alloc: Global, ops: Items<Prefix>, operand: Expr) -> Result<Expr, AllocError>
    ensures { IfOk result (λ e. e ≡ spec.prefixed ops operand) }
{
    if ops.is_empty() {
        Ok(operand)
    } else {
        Ok(Expr::Prefixed(ops, Boxed::new(alloc, operand)?))
    }
}

// sign = "+" | "-" | "!" | "~" | "*" | "&" | "++" | "--"
// -, as in -n
fn signed(kinds: &[Kind], at: usize, op: Sign) -> Result<(Step<Prefix, Expr>, usize), Stop>
    ensures { ReadsFrom kinds.now at result (spec.signed op) }
{
    let at = expect(kinds, at, sign_kind(op))?;
    Ok((Step::More(Prefix::Sign(op)), at))
}

impl<F: Fn(Global, &[Kind], usize, usize) -> Result<(Expr, usize), Stop>> Expressions<F> {
    // expr ")", after the "("
    // a + b)
    fn group(
        &self,
        kinds: &[Kind],
        at: usize,
        before: Option<Prefix>,
    ) -> Result<(Step<Prefix, Expr>, usize), Stop>
        requires { Nests self.now.depth (F.pre self.now.single) (F.post self.now.single) }
        ensures { ReadsFrom kinds.now at result (spec.inside self.now.depth spec.group before) }
    {
        let (x, at) = self.sequence(kinds, at)?;
        let ((before, x), at) = past(kinds, at, Kind::CloseParen, (before, x))?;
        let (before, x) = one_boxed(self.alloc, before, x)?;
        Ok((Step::Last(before, Expr::Group(x)), at))
    }

    // type stars ")", after `sizeof (`
    // char *)
    fn sizeof_type(&self, kinds: &[Kind], at: usize) -> Result<(Step<Prefix, Expr>, usize), Stop>
        requires { Nests self.now.depth (F.pre self.now.single) (F.post self.now.single) }
        ensures { ReadsFrom kinds.now at result (spec.inside self.now.depth spec.sizeof_type) }
    {
        let (name, at) = self.nested_type(kinds, at)?;
        let (name, at) = past(kinds, at, Kind::CloseParen, name)?;
        let size = Expr::SizeofType(Boxed::new(self.alloc, name)?);
        Ok((Step::Last(None, size), at))
    }

    // type stars ")", after the "("
    // double)
    fn cast(&self, kinds: &[Kind], at: usize) -> Result<(Step<Prefix, Expr>, usize), Stop>
        requires { Nests self.now.depth (F.pre self.now.single) (F.post self.now.single) }
        ensures { ReadsFrom kinds.now at result (spec.inside self.now.depth spec.cast) }
    {
        let (name, at) = self.nested_type(kinds, at)?;
        let (name, at) = past(kinds, at, Kind::CloseParen, name)?;
        let cast = Prefix::Cast(Boxed::new(self.alloc, name)?);
        Ok((Step::More(cast), at))
    }

    // "(" type stars ")" | "(" expr ")", after `sizeof`
    // (char *)
    fn sizeof_bracket(&self, kinds: &[Kind], at: usize) -> Result<(Step<Prefix, Expr>, usize), Stop>
        requires { Nests self.now.depth (F.pre self.now.single) (F.post self.now.single) }
        ensures { ReadsFrom kinds.now at result (spec.inside self.now.depth spec.sizeof_bracket) }
    {
        let at = expect(kinds, at, Kind::OpenParen)?;
        if begins_type(kind_at(kinds, at)) {
            self.sizeof_type(kinds, at)
        } else {
            self.group(kinds, at, Some(Prefix::Sizeof))
        }
    }

    // "sizeof" [ "(" type stars ")" | "(" expr ")" ]
    // sizeof (char *)
    fn sizeof(&self, kinds: &[Kind], at: usize) -> Result<(Step<Prefix, Expr>, usize), Stop>
        requires { Nests self.now.depth (F.pre self.now.single) (F.post self.now.single) }
        ensures { ReadsFrom kinds.now at result (spec.inside self.now.depth spec.sizeof) }
    {
        let at = expect(kinds, at, Kind::Sizeof)?;
        match kind_at(kinds, at) {
            Some(Kind::OpenParen) => self.sizeof_bracket(kinds, at),
            _ => Ok((Step::More(Prefix::Sizeof), at)),
        }
    }

    // "(" type stars ")" | "(" expr ")"
    // (double), as in (double) n
    fn bracket(&self, kinds: &[Kind], at: usize) -> Result<(Step<Prefix, Expr>, usize), Stop>
        requires { Nests self.now.depth (F.pre self.now.single) (F.post self.now.single) }
        ensures { ReadsFrom kinds.now at result (spec.inside self.now.depth spec.bracket) }
    {
        let at = expect(kinds, at, Kind::OpenParen)?;
        if begins_type(kind_at(kinds, at)) {
            self.cast(kinds, at)
        } else {
            self.group(kinds, at, None)
        }
    }

    // NAME | INT | FLOAT | CHAR | texts
    // speed
    fn plain(&self, kinds: &[Kind], at: usize) -> Result<(Step<Prefix, Expr>, usize), Stop>
        requires { Nests self.now.depth (F.pre self.now.single) (F.post self.now.single) }
        ensures { ReadsFrom kinds.now at result (spec.inside self.now.depth spec.plain) }
    {
        let (x, at) = atom(self.alloc, kinds, at)?;
        Ok((Step::Last(None, x), at))
    }

    // pre | primary; "sizeof" is read together with "(" .. ")" after it
    // pre = sign | "sizeof" | "(" type stars ")"
    // primary = NAME | INT | FLOAT | CHAR | texts | "(" expr ")" | "sizeof" "(" type stars ")"
    fn prefix_step(&self, kinds: &[Kind], at: usize) -> Result<(Step<Prefix, Expr>, usize), Stop>
        requires { Nests self.now.depth (F.pre self.now.single) (F.post self.now.single) }
        ensures { ReadsFrom kinds.now at result (spec.inside self.now.depth spec.prefix_step) }
    {
        match kind_at(kinds, at) {
            Some(Kind::Plus) => signed(kinds, at, Sign::Plus),
            Some(Kind::Minus) => signed(kinds, at, Sign::Minus),
            Some(Kind::Exclamation) => signed(kinds, at, Sign::Not),
            Some(Kind::Tilde) => signed(kinds, at, Sign::Complement),
            Some(Kind::Star) => signed(kinds, at, Sign::Dereference),
            Some(Kind::Ampersand) => signed(kinds, at, Sign::Address),
            Some(Kind::PlusPlus) => signed(kinds, at, Sign::Increment),
            Some(Kind::MinusMinus) => signed(kinds, at, Sign::Decrement),
            Some(Kind::Sizeof) => self.sizeof(kinds, at),
            Some(Kind::OpenParen) => self.bracket(kinds, at),
            _ => self.plain(kinds, at),
        }
    }

    // { pre } primary
    // -(int) x
    fn operators(
        &self,
        kinds: &[Kind],
        start: usize,
    ) -> Result<((Items<Prefix>, Expr), usize), Stop>
        requires { Nests self.now.depth (F.pre self.now.single) (F.post self.now.single) }
        ensures { ReadsFrom kinds.now start result
            (read.until (spec.inside self.now.depth spec.prefix_step) []) }
    {
        until(
            self.alloc,
            kinds,
            start,
            Items::new(self.alloc),
            |kinds, at| self.prefix_step(kinds, at),
        )
    }

    // prefix = { pre } postfix
    // postfix = primary { suffix }
    // -(int) x[i]
    fn operated(&self, kinds: &[Kind], at: usize) -> Result<(Expr, usize), Stop>
        requires { Nests self.now.depth (F.pre self.now.single) (F.post self.now.single) }
        ensures { ReadsFrom kinds.now at result (spec.inside self.now.depth spec.prefix) }
    {
        let ((ops, operand), at) = self.operators(kinds, at)?;
        let (suffixes, at) = self.suffixes(kinds, at)?;
        let operand = suffixed(self.alloc, operand, suffixes)?;
        Ok((prefixed(self.alloc, ops, operand)?, at))
    }

    // The same. Most operands have nothing before them, and those go a shorter way.
    pub(super) fn prefix(&self, kinds: &[Kind], at: usize) -> Result<(Expr, usize), Stop>
        requires { Nests self.now.depth (F.pre self.now.single) (F.post self.now.single) }
        ensures { ReadsFrom kinds.now at result (spec.inside self.now.depth spec.prefix) }
    {
        if is_before(kind_at(kinds, at)) {
            self.operated(kinds, at)
        } else {
            self.postfix(kinds, at)
        }
    }
}
