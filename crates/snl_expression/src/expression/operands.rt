//! Reads operands with nothing before them, of one token or of joined strings. Most are such.
#![tactic(auto, unfolding(crate::proofs::Bare::operands))]

ghost use Rattle.std.specs.Prelude.{◌≡◌};
ghost use Rattle.snl_expression.specs.Nests.{Nests};
ghost use Rattle.snl_expression.specs.Operands as spec;
ghost use Rattle.snl_grammar.specs.Reading.Expressions.{inside};
ghost use Rattle.snl_expression.specs.Reads.{ReadsFrom};

use crate::expression::Expressions;
use crate::expression::leaves::atom;
use crate::expression::suffixes::suffixed;
use crate::stop::Stop;
use crate::token_steps::beside;
use snl_grammar::tree::expression::Expr;
use snl_lex::Kind;
use std::alloc::Global;

/// Whether a token is before an operand or opens a bracket.
pub(super) fn is_before(kind: Option<Kind>) -> bool
    ensures { result ≡ spec.is_before kind }
{
    match kind {
        Some(kind) => matches!(
            kind,
            Kind::Plus
                | Kind::Minus
                | Kind::Exclamation
                | Kind::Tilde
                | Kind::Star
                | Kind::Ampersand
                | Kind::PlusPlus
                | Kind::MinusMinus
                | Kind::Sizeof
                | Kind::OpenParen
        ),
        None => false,
    }
}

impl<F: Fn(Global, &[Kind], usize, usize) -> Result<(Expr, usize), Stop>> Expressions<F> {
    // postfix = primary { suffix }, where primary = NAME | INT | FLOAT | CHAR | texts
    // x[i]
    pub(super) fn postfix(&self, kinds: &[Kind], at: usize) -> Result<(Expr, usize), Stop>
        requires { Nests self.now.depth (F.pre self.now.single) (F.post self.now.single) }
        ensures { ReadsFrom kinds.now at result (inside self.now.depth spec.postfix) }
    {
        let (x, at) = atom(self.alloc, kinds, at)?;
        let ((x, suffixes), at) = beside(x, self.suffixes(kinds, at))?;
        Ok((suffixed(self.alloc, x, suffixes)?, at))
    }
}
