//! What names mean in a text: each item brings a summary, and the links answer where an item is,
//! what a name means there, and which names and items are out of order. It knows nothing of bytes'
//! offsets, nor of what an item does.
#![tactic(auto)]

mod by_number;
mod clauses;
mod compared;
mod edited_names;
mod facts;
mod findings;
mod items;
mod laws;
mod linking;
mod links;
mod names;
mod outlines;
mod renamed;
mod renamed_links;

pub use compared::{Compared, Meanings};
pub use edited_names::{EditedNames, unspoken_names};
pub use facts::{Assigned, ClauseLink, Declaration, Fact, Level, LinkFault, NameKind, Scope};
pub use laws::once_laws::{each_fault_once, faults_have_places, outlines_speak_of_tokens};
pub use laws::place_laws::sets_open_in_turn;
pub use links::{Links, link, link_after};
pub use names::first_numbers::FirstNumbers;
pub use names::namespaces::{Namespace, QualifiedName};
pub use renamed::{Renaming, declared_anew, named_anew, renaming_of};
pub use renamed_links::link_renamed;
pub use snl_summary::{
    ClauseKind, Coverage, Declared, Dims, ItemKind, Name, NameRef, Opening, Outline, Role, Summary,
    SymbolKind, Variable, VariableClause, kind_of, names_are_tokens, names_kept_once,
    plain_state_outline, same_outline, same_spelling_same_summary, summary_of, targets_rise,
    tokens_declared_once,
};
pub use snl_walk::Source;
