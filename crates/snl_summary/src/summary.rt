//! The summary of an item: what it says to the others.
//! Names are copied, so that a summary stands alone; a token is told by its number in the item.

use crate::name::Name;
use sqlite_items::Items;

/// What an item is.
#[derive(Clone, Copy, Debug, PartialEq, Eq)]
pub enum ItemKind {
    /// An item with a faulty token, or one that the grammar has no tree for.
    Faulty,
    Header,
    /// `ss NAME {`
    SsBegin,
    /// `}`
    SsEnd,
    State,
    Entry,
    Exit,
    Declaration,
    Foreign,
    Clause,
    OptionLine,
    /// A function, with a body or without.
    Function,
    StructDef,
    CBlock,
    Empty,
}

impl ItemKind {
    ghost use Rattle.std.specs.Prelude.{◌≡◌};
    ghost use Rattle.snl_summary.specs.Summaries.{is_option};

    /// Whether it is an option.
    pub fn is_option(self) -> bool
        ensures { result ≡ is_option self }
    {
        matches!(self, ItemKind::OptionLine)
    }
}

/// The word that an item begins with, faulty or not.
#[derive(Clone, Copy, Debug, PartialEq, Eq)]
pub enum Opening {
    Program,
    Ss,
    State,
    Other,
}

/// What an item is to the others, faulty or not.
#[derive(Clone, Copy, Debug, PartialEq, Eq)]
pub enum Role {
    /// `ss NAME {`
    SetBegin,
    /// `}`
    SetEnd,
    /// A state with declarations or clauses, which are in the state's own scope. A state without
    /// any is as any other item.
    State,
    Other,
}

/// What a declared name stands for.
#[derive(Clone, Copy, Debug, PartialEq, Eq)]
pub enum SymbolKind {
    EventFlag,
    Foreign,
    Function,
    /// A variable to which a channel can be assigned.
    Assignable,
    /// A variable of base `void`, `enum`, `struct`, `union` or `typename`.
    Unassignable,
}

/// How many elements a variable has.
#[derive(Clone, Copy, Debug, PartialEq, Eq)]
pub enum Dims {
    /// A declarator with neither `*` nor `[ ]`.
    Plain,
    /// The value of the first length, which is one integer.
    Known(u64),
    Unknown,
}

/// What a declaration says of a name.
#[derive(Clone, Copy, Debug, PartialEq, Eq)]
pub struct Variable {
    pub dims: Dims,
    pub symbol_kind: SymbolKind,
}

/// A name that an item declares outside its blocks.
#[derive(Drop)]
pub struct Declared {
    pub name: Name,
    pub token: usize,
    pub variable: Variable,
}

/// A name that is at a token.
#[derive(Drop)]
pub struct NameRef {
    pub name: Name,
    pub token: usize,
}

#[derive(Clone, Copy, Debug, PartialEq, Eq)]
pub enum ClauseKind {
    Assign,
    Monitor,
    Sync,
    Syncq,
}

/// What a clause covers of its variable.
#[derive(Clone, Copy, Debug, PartialEq, Eq)]
pub enum Coverage {
    /// The whole variable, or all its elements.
    Whole,
    /// The element with this number.
    Element(u64),
    /// So many elements from the first on: a list of channels.
    Front(usize),
}

/// A clause on a variable. `sync` and `syncq` may name an event flag.
#[derive(Drop)]
pub struct VariableClause {
    pub variable: NameRef,
    pub flag: Option<NameRef>,
    pub coverage: Coverage,
    pub kind: ClauseKind,
}

/// What an item says to the others.
pub struct Outline {
    /// The names that it declares outside its blocks. Those of a state are in the state's own
    /// scope.
    pub declares: Items<Declared>,
    pub clauses: Items<VariableClause>,
    /// The second token, if that is a name; it has the number 1.
    pub second: Option<Name>,
    pub role: Role,
    pub opening: Opening,
}

/// What an item is, what it says to the others, and what it asks of them.
pub struct Summary {
    pub kind: ItemKind,
    pub outline: Outline,
    /// Each name that it uses as an expression, once, in the order of first use.
    pub uses: Items<Name>,
    /// The states that its transitions name.
    pub targets: Items<NameRef>,
}

// By hand, so that whoever holds a summary need not know what is in its lists to let it go.
impl Drop for Outline {
    fn drop(self) {
        let Outline {
            declares: _,
            clauses: _,
            second: _,
            role: _,
            opening: _,
        } = self;
    }
}

impl Drop for Summary {
    fn drop(self) {
        let Summary {
            kind: _,
            outline: _,
            uses: _,
            targets: _,
        } = self;
    }
}
