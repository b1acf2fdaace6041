//! Reads blocks, and the bodies of statements.
#![tactic(auto, unfolding(crate::proofs::Opened::Statements::blocks))]

ghost use Rattle.std.specs.Prelude.{[]};
ghost use Rattle.snl_syntax.specs.NestsStatement.{NestsStatement};
ghost use Rattle.snl_grammar.specs.Reading.Statements as spec;
ghost use Rattle.snl_grammar.specs.Steps as read;
ghost use Rattle.snl_expression.specs.Reads.{ReadsFrom};

use crate::declaration::declaration;
use crate::statement::Statements;
use snl_expression::{Stop, begins_type, expect, kind_at, many, past};
use snl_grammar::tree::statement::{Member, Stmt};
use snl_lex::Kind;
use sqlite_items::Items;
use std::alloc::Global;

impl<F: Fn(Global, &[Kind], usize, usize) -> Result<(Stmt, usize), Stop>> Statements<F> {
    // decl
    // int n = 1;
    fn declared(&self, kinds: &[Kind], at: usize) -> Result<(Option<Member>, usize), Stop>
        requires { NestsStatement self.now.depth (F.pre self.now.inner) (F.post self.now.inner) }
        ensures { ReadsFrom kinds.now at result (spec.inside self.now.depth spec.declared) }
    {
        let (declaration, at) = declaration(self.alloc, kinds, at, self.depth)?;
        Ok((Some(Member::Declaration(declaration)), at))
    }

    // stmt
    // n = 1;
    fn stated(&self, kinds: &[Kind], at: usize) -> Result<(Option<Member>, usize), Stop>
        requires { NestsStatement self.now.depth (F.pre self.now.inner) (F.post self.now.inner) }
        ensures { ReadsFrom kinds.now at result (spec.inside self.now.depth spec.stated) }
    {
        let (statement, at) = self.nested(kinds, at)?;
        Ok((Some(Member::Statement(statement)), at))
    }

    // decl | stmt
    // int n = 1;
    fn some_member(&self, kinds: &[Kind], at: usize) -> Result<(Option<Member>, usize), Stop>
        requires { NestsStatement self.now.depth (F.pre self.now.inner) (F.post self.now.inner) }
        ensures { ReadsFrom kinds.now at result (spec.inside self.now.depth spec.some_member) }
    {
        if begins_type(kind_at(kinds, at)) {
            self.declared(kinds, at)
        } else {
            self.stated(kinds, at)
        }
    }

    // decl | stmt, or nothing before "}"
    // n = 1;
    fn next_member(&self, kinds: &[Kind], at: usize) -> Result<(Option<Member>, usize), Stop>
        requires { NestsStatement self.now.depth (F.pre self.now.inner) (F.post self.now.inner) }
        ensures { ReadsFrom kinds.now at result (spec.inside self.now.depth spec.next_member) }
    {
        match kind_at(kinds, at) {
            Some(Kind::CloseBrace) => Ok((None, at)),
            _ => self.some_member(kinds, at),
        }
    }

    // { decl | stmt }
    // int n; n = 1;
    fn members(&self, kinds: &[Kind], start: usize) -> Result<(Items<Member>, usize), Stop>
        requires { NestsStatement self.now.depth (F.pre self.now.inner) (F.post self.now.inner) }
        ensures { ReadsFrom kinds.now start result
            (read.many (spec.inside self.now.depth spec.next_member) []) }
    {
        many(
            self.alloc,
            kinds,
            start,
            Items::new(self.alloc),
            |kinds, at| self.next_member(kinds, at),
        )
    }

    // block = "{" { decl | stmt } "}"
    // { int n; n = 1; }
    pub(super) fn block_of(&self, kinds: &[Kind], at: usize) -> Result<(Items<Member>, usize), Stop>
        requires { NestsStatement self.now.depth (F.pre self.now.inner) (F.post self.now.inner) }
        ensures { ReadsFrom kinds.now at result (spec.inside self.now.depth spec.block_of) }
    {
        let at = expect(kinds, at, Kind::OpenBrace)?;
        let (members, at) = self.members(kinds, at)?;
        past(kinds, at, Kind::CloseBrace, members)
    }

    // block, as a statement
    // { int n; n = 1; }
    pub(super) fn block_statement(&self, kinds: &[Kind], at: usize) -> Result<(Stmt, usize), Stop>
        requires { NestsStatement self.now.depth (F.pre self.now.inner) (F.post self.now.inner) }
        ensures { ReadsFrom kinds.now at result (spec.inside self.now.depth spec.block_statement) }
    {
        let (members, at) = self.block_of(kinds, at)?;
        Ok((Stmt::Block(members), at))
    }

    /// The body of a statement, or what follows `else`.
    // block | stmt, one level deeper
    // { n = 1; }
    pub(super) fn body(&self, kinds: &[Kind], at: usize) -> Result<(Stmt, usize), Stop>
        requires { NestsStatement self.now.depth (F.pre self.now.inner) (F.post self.now.inner) }
        ensures { ReadsFrom kinds.now at result (spec.inside self.now.depth spec.body) }
    {
        match kind_at(kinds, at) {
            Some(Kind::OpenBrace) => self.block_statement(kinds, at),
            _ => self.nested(kinds, at),
        }
    }
}
