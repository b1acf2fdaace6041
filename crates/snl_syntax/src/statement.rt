//! Reads statements and blocks.
//!
//! The rules of statements that hold others are methods of `Statements`, each in the file of its
//! subject. What is one level deeper they read by its field `inner`, and `stmt` puts itself there.
#![tactic(auto, unfolding(crate::proofs::Opened::Statements::levels))]

ghost use Rattle.snl_syntax.specs.NestsStatement.{NestsStatement};
ghost use Rattle.snl_grammar.specs.Reading.Statements as spec;
ghost use Rattle.snl_expression.specs.Reads.{ReadsFrom};

mod blocks;
mod branches;
mod loops;
mod optional;
mod simple;

use crate::statement::simple::{
    break_loop, c_code, change, continue_loop, empty, evaluation, return_value,
};
pub use optional::before_paren;
use snl_expression::{Stop, kind_at};
use snl_grammar::tree::statement::{Member, Stmt};
use snl_lex::Kind;
use sqlite_items::Items;
use std::alloc::Global;

/// The rules of statements that hold others, with the reader of those one level deeper.
#[derive(Clone, Copy)]
pub struct Statements<F> {
    pub alloc: Global,
    /// How many levels there are inside.
    pub depth: usize,
    /// Reads a statement inside.
    pub inner: F,
}

impl<F: Fn(Global, &[Kind], usize, usize) -> Result<(Stmt, usize), Stop>> Statements<F> {
    // stmt, one level deeper
    // n = 1;
    fn nested(&self, kinds: &[Kind], at: usize) -> Result<(Stmt, usize), Stop>
        requires { NestsStatement self.now.depth (F.pre self.now.inner) (F.post self.now.inner) }
        ensures { ReadsFrom kinds.now at result (spec.stmt self.now.depth) }
    {
        (self.inner)(self.alloc, kinds, at, self.depth)
    }

    /// A statement, with `own` levels where it is.
    // stmt = [expr] ";" | block | CCODE | "state" NAME ";"
    //     | "if" "(" expr ")" stmt [ "else" stmt ] | "while" "(" expr ")" stmt
    //     | "for" "(" [expr] ";" [expr] ";" [expr] ")" stmt
    //     | "break" ";" | "continue" ";" | "return" [expr] ";"
    fn stmt_of(&self, kinds: &[Kind], at: usize, own: usize) -> Result<(Stmt, usize), Stop>
        requires { NestsStatement self.now.depth (F.pre self.now.inner) (F.post self.now.inner) }
        ensures { ReadsFrom kinds.now at result (spec.inside self.now.depth spec.stmt_of own) }
    {
        match kind_at(kinds, at) {
            Some(Kind::OpenBrace) => self.block_statement(kinds, at),
            Some(Kind::If) => self.choice(kinds, at),
            Some(Kind::While) => self.while_loop(kinds, at),
            Some(Kind::For) => self.for_loop(kinds, at),
            Some(Kind::Semicolon) => empty(kinds, at),
            Some(Kind::CCode) => c_code(kinds, at),
            Some(Kind::Break) => break_loop(kinds, at),
            Some(Kind::Continue) => continue_loop(kinds, at),
            Some(Kind::Return) => return_value(self.alloc, kinds, at, own),
            Some(Kind::State) => change(kinds, at),
            _ => evaluation(self.alloc, kinds, at, own),
        }
    }
}

/// A statement, in so many levels with the one that it is in.
// stmt, by its first token
// while (n < 10) n++;
pub fn stmt(alloc: Global, kinds: &[Kind], at: usize, depth: usize) -> Result<(Stmt, usize), Stop>
    ensures { ReadsFrom kinds.now at result (spec.stmt depth) }
{
    if depth == 0 {
        return Err(Stop::Here(at));
    }
    Statements {
        alloc,
        depth: depth - 1,
        inner: stmt,
    }
    .stmt_of(kinds, at, depth)
}

/// A block, in so many levels with the one that its braces are in.
// block = "{" { decl | stmt } "}"
// { int n; n = 1; }
pub fn block(
    alloc: Global,
    kinds: &[Kind],
    at: usize,
    depth: usize,
) -> Result<(Items<Member>, usize), Stop>
    ensures { ReadsFrom kinds.now at result (spec.block depth) }
{
    if depth == 0 {
        return Err(Stop::Here(at));
    }
    Statements {
        alloc,
        depth: depth - 1,
        inner: stmt,
    }
    .block_of(kinds, at)
}
