//! The rows of the tables of a text. A name is told by the bytes where it is written, so that a row
//! is small however long the name is.

use crate::row_list::Rows;
use snl_lex::Line;
use snl_scope::Name;
use sqlite_items::Items;

/// Bytes of the text: so many, from a place on.
#[derive(Clone, Copy, Debug, PartialEq, Eq)]
pub struct Span {
    pub start: usize,
    pub len: usize,
}

/// What the last setting of an option's letter says.
#[derive(Clone, Copy, Debug, PartialEq, Eq)]
pub struct OptionRow {
    pub letter: u8,
    /// `option +L`; else `option -L`.
    pub is_set: bool,
}

/// The scope that declares a name, by the names of the state set and of the state.
#[derive(Clone, Copy, Debug, PartialEq, Eq)]
pub enum ScopeName {
    Program,
    StateSet(Span),
    /// A state at program level is in no state set.
    State { set: Option<Span>, state: Span },
}

/// An event flag. Flags are numbered from 1.
#[derive(Clone, Copy, Debug, PartialEq, Eq)]
pub struct FlagRow {
    pub name: Span,
    pub scope: ScopeName,
}

/// The queue of a synced channel.
#[derive(Clone, Copy, Debug, PartialEq, Eq)]
pub enum Queue {
    /// `sync`
    Unqueued,
    /// `syncq` with no length written.
    Default,
    /// `syncq` with a length.
    Length(u64),
}

/// How a channel is synced: the number of the event flag, if the clause names one, and the queue.
#[derive(Clone, Copy, Debug, PartialEq, Eq)]
pub struct Synced {
    pub flag: Option<usize>,
    pub queue: Queue,
}

/// A channel: of an element of a variable, or of the whole variable. Channels are numbered from 0.
pub struct ChannelRow {
    pub variable: Span,
    pub element: Option<u64>,
    pub scope: ScopeName,
    /// The channel's name: the bytes between the quotes, as written, those of adjacent strings
    /// joined.
    pub pv: Name,
    pub is_monitored: bool,
    pub sync: Option<Synced>,
}

/// What is known of a state.
#[derive(Clone, Copy, Debug, PartialEq, Eq)]
pub enum StateMark {
    /// The grammar has no such state, or one of its tokens is faulty.
    Faulty,
    /// An earlier state of the set has its name.
    Repeated,
    /// An item of its set is faulty, so it isn't known whether the state is reached.
    Unknown,
    /// A walk along targets leads to it from the first state of the set.
    Reached,
    Unreached,
}

/// A state that another state leads to, with whether the state set has one of the name.
#[derive(Clone, Copy, Debug, PartialEq, Eq)]
pub struct NamedState {
    pub name: Span,
    pub is_known: bool,
}

/// Where a transition leads.
#[derive(Clone, Copy, Debug, PartialEq, Eq)]
pub enum Destination {
    State(NamedState),
    Exit,
}

/// What a use of a name in a condition means: on a change of this the state wakes up.
#[derive(Clone, Copy, Debug, PartialEq, Eq)]
pub enum WakeUp {
    /// The event flag with this number.
    Flag(usize),
    /// The channel with this number.
    Channel(usize),
    /// Each channel of the variable with this number, which `Tables::variables` lists.
    Variable(usize),
}

/// A state of a state set. Of a faulty one no more is known than its name and its line.
pub struct StateRow {
    pub name: Span,
    /// That of the item's first token.
    pub line: Line,
    pub mark: StateMark,
    /// The options of the state, by rising letters.
    pub options: Items<OptionRow>,
    /// The transitions in the order of the text, numbered from 0.
    pub transitions: Rows<Destination>,
    /// The states that statements in its transitions name.
    pub gotos: Rows<NamedState>,
    /// What the names in its conditions mean, in the order of the text, those left out that mean no
    /// event flag and no variable. Its wake-up set is all of these, each once.
    pub wake: Items<WakeUp>,
}

/// What the tokens of a state say, as its row has it: its name, its line, its options, where its
/// transitions lead and which states statements name. A faulty state says its name and its line.
#[derive(Drop)]
pub struct StateBody {
    pub name: Span,
    /// That of the item's first token.
    pub line: Line,
    pub options: Items<OptionRow>,
    pub transitions: Rows<Destination>,
    pub gotos: Rows<NamedState>,
}

/// A state set, and its states in the order of the text.
pub struct SetRow {
    pub name: Span,
    /// That of the item's first token.
    pub line: Line,
    pub states: Rows<StateRow>,
}

/// The tables of a text.
pub struct Tables {
    /// The name of the program.
    pub program: Option<Span>,
    /// The options of the program, by rising letters.
    pub options: Items<OptionRow>,
    pub flags: Rows<FlagRow>,
    pub channels: Rows<ChannelRow>,
    /// The channels of each variable, rising, by the number of the variable's declaration: one list
    /// for all states that wake up on it. Most declarations have none.
    pub variables: Items<Items<usize>>,
    pub sets: Rows<SetRow>,
}

// By hand, so that whoever holds rows need not know what is in them to let them go.
impl Drop for ChannelRow {
    fn drop(self) {
        let ChannelRow {
            variable: _,
            element: _,
            scope: _,
            pv: _,
            is_monitored: _,
            sync: _,
        } = self;
    }
}

impl Drop for StateRow {
    fn drop(self) {
        let StateRow {
            name: _,
            line: _,
            mark: _,
            options: _,
            transitions: _,
            gotos: _,
            wake: _,
        } = self;
    }
}

impl Drop for SetRow {
    fn drop(self) {
        let SetRow {
            name: _,
            line: _,
            states: _,
        } = self;
    }
}

// By hand, so that whoever holds tables need not know what is in their rows to let them go.
impl Drop for Tables {
    fn drop(self) {
        let Tables {
            program: _,
            options: _,
            flags: _,
            channels: _,
            variables: _,
            sets: _,
        } = self;
    }
}
