//! The grammar: how tokens are cut into items, which tokens make an item, and the trees of items.
//! It knows no offsets and no scopes, and reads no tree.
#![tactic(auto)]

mod grammar_laws;
mod item_cut;
mod item_laws;
mod marks;
mod operator;
mod outcome;
mod outcome_laws;
mod spelling_laws;
mod step;
mod token_mark;
pub mod tree;

pub use grammar_laws::{
    blamed_at_fault, item_read, one_fault, one_item, viable_fronts, whole_items_end,
};
pub use item_cut::Tokens;
pub use item_laws::{first_item, tokens_in_items};
pub use marks::Mark;
pub use operator::{
    Assignment, Binary, Sign, assignment_kind, assignment_of, binary_kind, binary_of, sign_kind,
    tier,
};
pub use outcome::Parsed;
pub use outcome_laws::{outcome_told, same_spelling_same_tree};
pub use snl_lex::Kind;
pub use spelling_laws::item_spelled;
pub use step::Step;
pub use token_mark::mark;
