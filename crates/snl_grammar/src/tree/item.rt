//! Items.

use crate::tree::clause::{Clause, OptionLine};
use crate::tree::declaration::{Declaration, Parameter};
use crate::tree::state::StateMember;
use crate::tree::statement::Member;
use crate::tree::types::{Pointer, QualifiedType};
use sqlite_items::{Boxed, Items};

/// A function; one without a body is a prototype.
#[derive(Drop)]
pub struct Function {
    pub of: QualifiedType,
    pub pointers: Items<Pointer>,
    pub name: usize,
    pub parameters: Items<Parameter>,
    pub body: Option<Items<Member>>,
}

#[derive(Drop)]
pub enum StructMember {
    Declaration(Declaration),
    CBlock(usize),
}

/// One item of a text. A text of joined strings is the list of their numbers. What has much in it
/// is in memory of its own, so that an item without anything takes little.
pub enum Item {
    Header {
        name: usize,
        parameters: Option<Items<usize>>,
    },
    Definition(Boxed<Declaration>),
    Foreign(Items<usize>),
    Clause(Boxed<Clause>),
    OptionLine(OptionLine),
    Entry(Items<Member>),
    Exit(Items<Member>),
    SsBegin {
        name: usize,
    },
    SsEnd,
    StateBlock {
        name: usize,
        members: Items<StateMember>,
    },
    Function(Boxed<Function>),
    StructDef {
        name: usize,
        members: Items<StructMember>,
    },
    CBlock(usize),
    Empty,
}

// By hand, so that whoever holds an item need not know what is in its tree to let it go.
impl Drop for Item {
    fn drop(self) {
        match self {
            Item::Header {
                name: _,
                parameters: _,
            } => {}
            Item::Definition(_) => {}
            Item::Foreign(_) => {}
            Item::Clause(_) => {}
            Item::OptionLine(_) => {}
            Item::Entry(_) => {}
            Item::Exit(_) => {}
            Item::SsBegin { name: _ } => {}
            Item::SsEnd => {}
            Item::StateBlock {
                name: _,
                members: _,
            } => {}
            Item::Function(_) => {}
            Item::StructDef {
                name: _,
                members: _,
            } => {}
            Item::CBlock(_) => {}
            Item::Empty => {}
        }
    }
}
