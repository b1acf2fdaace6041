//! What is at the tokens of an item, as far as a rule speaks of it.

/// A declaration in an item, by the token of its name: whether the name passes for an event flag,
/// and for a variable that has a channel.
#[derive(Clone, Copy, Debug, PartialEq, Eq)]
pub struct Local {
    pub token: usize,
    pub flag: bool,
    pub channel: bool,
}

/// What directly follows an operand.
#[derive(Clone, Copy, Debug, PartialEq, Eq)]
pub enum Follows {
    Nothing,
    Call,
    /// A subscript that is an integer alone, as in `v[1]`.
    Index,
    /// Any other subscript.
    Subscript,
    /// A member, an increment or a decrement.
    Other,
}

/// What a built-in function wants as its first argument.
#[derive(Clone, Copy, Debug, PartialEq, Eq)]
pub enum ArgumentRole {
    /// Whatever comes.
    Any,
    EventFlag,
    Channel,
}

/// How a name occurs in an expression. A name is called where a call follows it, else used.
#[derive(Clone, Copy, Debug, PartialEq, Eq)]
pub struct Manner {
    pub follows: Follows,
    /// What the function wants whose first argument it is, alone or with subscripts alone after it.
    pub role: ArgumentRole,
    /// In the condition of a transition.
    pub in_condition: bool,
}

/// What is at a token.
#[derive(Clone, Copy, Debug, PartialEq, Eq)]
pub enum What {
    /// A name in an expression.
    Name(Manner),
    /// A name that is declared, and whether it is an event flag that is declared wrongly.
    Declaration { is_wrong: bool },
    /// `break` or `continue`, and whether in a loop of its block.
    Jump { in_loop: bool },
    /// The word of `state NAME;`, and whether in the block of a transition.
    Change { in_transition: bool },
    /// The name of a state that the item leads to.
    Target,
}

/// What is at a token of an item, by the token's number in it. `means` is the declaration in the
/// item that a name resolves to.
#[derive(Clone, Copy, Debug, PartialEq, Eq)]
pub struct Occurrence {
    pub token: usize,
    pub what: What,
    pub means: Option<Local>,
}

// A text of 1 MiB that is one item has half a million occurrences.
const _: () = prove!(size_of::<Occurrence>() <= 40);

/// Where an operand is.
#[derive(Clone, Copy)]
pub(crate) struct Setting {
    pub follows: Follows,
    /// The called name whose first argument it is, alone or with subscripts alone after it.
    pub argument_of: Option<usize>,
}

/// A name in an expression, before it is known what it resolves to.
#[derive(Clone, Copy)]
pub(crate) struct ExpressionName {
    pub token: usize,
    pub setting: Setting,
}

/// What a statement is in: a loop of its block, the block of a transition.
#[derive(Clone, Copy)]
pub(crate) struct Context {
    pub in_loop: bool,
    /// In the block of a transition.
    pub in_transition: bool,
}
