//! The parser: the tokens of one item come in, its tree goes out. It knows no offsets and no
//! scopes. What tokens, items and trees are is handed on from snl_grammar.
#![tactic(auto)]

mod clause;
mod declaration;
mod fault;
mod function;
mod item;
mod parse;
mod recognizer;
mod state;
mod statement;

pub use fault::ParseFault;
pub use parse::{parse_item, parsed};
pub use recognizer::{Recognition, recognize};
pub use snl_grammar::{
    Assignment, Binary, Kind, Mark, Parsed, Sign, Tokens, blamed_at_fault, first_item, item_read,
    item_spelled, mark, one_fault, one_item, outcome_told, same_spelling_same_tree,
    tokens_in_items, tree, viable_fronts,
};
