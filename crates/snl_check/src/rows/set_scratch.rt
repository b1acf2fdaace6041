//! Lists that the rows of one state set after another are made with.

use crate::reachability::members::Members;
use crate::reachability::reaching::Search;
use std::alloc::Global;

/// What is found of a state set. It is made once for all sets of a text and filled again for each,
/// since most sets are so small that to make lists costs more than to fill them.
#[derive(Drop)]
pub(crate) struct SetScratch {
    pub members: Members,
    /// The targets of each state, in the first lists.
    pub targets: Vec<Vec<usize>>,
    pub search: Search,
}

impl SetScratch {
    /// Lists for state sets.
    pub(crate) fn new(alloc: Global) -> SetScratch {
        SetScratch {
            members: Members::new(alloc),
            targets: Vec::new(alloc),
            search: Search::new(alloc),
        }
    }
}
