//! Clauses on variables, options, and foreign names.

use sqlite_items::Items;

/// To what a variable is assigned. `to` says whether that word is written; a text is one string or
/// more, joined.
#[derive(Drop)]
pub enum Channel {
    /// `assign v;`
    Anonymous,
    /// `assign v to "c";`
    Whole {
        to: bool,
        text: Items<usize>,
    },
    /// `assign v[1] to "c";`
    Element {
        subscript: usize,
        to: bool,
        text: Items<usize>,
    },
    /// `assign v to {"c", "d",};` with whether a comma ends the list.
    Elements {
        to: bool,
        texts: Items<Items<usize>>,
        trailing: bool,
    },
}

/// The event flag of a `syncq`, and whether `to` is written before it.
#[derive(Clone, Copy, Debug, PartialEq, Eq)]
pub struct Flag {
    pub to: bool,
    pub name: usize,
}

#[derive(Drop)]
pub enum Clause {
    Assign {
        name: usize,
        channel: Channel,
    },
    Monitor {
        name: usize,
        subscript: Option<usize>,
    },
    Sync {
        name: usize,
        subscript: Option<usize>,
        flag: Flag,
    },
    /// `capital` says whether the word is `syncQ`; `queue` is the length of the queue.
    Syncq {
        capital: bool,
        name: usize,
        subscript: Option<usize>,
        flag: Option<Flag>,
        queue: Option<usize>,
    },
}

/// Whether options are set or unset.
#[derive(Clone, Copy, Debug, PartialEq, Eq)]
pub enum OptionSign {
    Plus,
    Minus,
}

/// `option +abc;` with the name of letters.
#[derive(Clone, Copy, Debug, PartialEq, Eq)]
pub struct OptionLine {
    pub sign: OptionSign,
    pub letters: usize,
}
