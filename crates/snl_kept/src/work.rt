//! What an edit cost.
#![tactic(auto)]

/// What an edit cost: pieces cut, items parsed and items checked anew. An item is checked where the
/// parser has made a tree of it and it is new, or sees the other items in another way: whether it
/// is in a state set, what the names that it uses mean, and whether the states that it leads to are
/// there.
#[derive(Clone, Copy, Debug, PartialEq, Eq)]
pub struct Work {
    pub lexed: u64,
    pub parsed: u64,
    pub checked: u64,
}
