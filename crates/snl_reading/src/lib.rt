//! From the bytes of a text to its pieces, tokens, items, summaries, links, checks and tables, for
//! tests and for programs that measure. Each function makes values of one kind and borrows the
//! others. There is no code of the product here.
#![tactic(auto)]

mod checking;
mod cutting;
mod items;
mod linking;
mod tabling;

pub use checking::checks_of;
pub use cutting::{item_ends_of, pieces_of, tokens_of};
pub use items::{ReadItem, items_of, tree_of, trees_of};
pub use linking::{links_among, links_of, summaries_along, summaries_of};
pub use tabling::{borrowed_checks, tables_in, tables_of, trees_among};
