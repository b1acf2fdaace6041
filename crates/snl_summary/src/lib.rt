//! What an item says to the others: the names that it declares, uses and gives clauses to. Its tokens
//! and its tree come in, a summary goes out, which stands alone. It knows nothing of the other items.
#![tactic(auto)]

mod clauses_of;
mod declarations;
mod laws;
mod name;
mod same_values;
mod summarize;
mod summary;
mod token_names;

pub use laws::spelling_laws::same_spelling_same_summary;
pub use laws::summary_laws::{names_kept_once, plain_state_outline};
pub use laws::token_laws::{names_are_tokens, targets_rise, tokens_declared_once};
pub use name::Name;
pub use same_values::{SameValue, are_same, same_outline};
pub use summarize::{kind_of, summary_of};
pub use summary::{
    ClauseKind, Coverage, Declared, Dims, ItemKind, NameRef, Opening, Outline, Role, Summary,
    SymbolKind, Variable, VariableClause,
};
