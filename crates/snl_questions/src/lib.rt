//! What is asked of a text: what is kept of it and an offset come in, what is there goes out. It
//! changes nothing, keeps nothing, and knows nothing of messages, nor of how places are counted.
//! Each subject has a room: `tokens` has the token at an offset and those of an item, `meanings`
//! what a name means, `mentions` where it is named, `document_symbols` what an outline of the text
//! shows, `fault_notes` what may come at a token at fault, and `hovers` what is said of a name or of
//! such a token.
#![tactic(auto)]

mod document_symbols;
mod fault_notes;
mod hovers;
mod meanings;
mod mentions;
mod tokens;

pub use document_symbols::laws::{children_lie_in_parents, names_lie_in_extents};
pub use document_symbols::symbol::{DocumentSymbol, DocumentSymbolKind};
pub use document_symbols::text_symbols::symbols;
pub use fault_notes::laws::faults_have_notes;
pub use fault_notes::note_at::{FaultNote, fault_note_of, note_at};
pub use hovers::near::{Hover, hover_at};
pub use meanings::items::{TokenPlace, span_bytes};
pub use meanings::laws::names_mean_their_like;
pub use meanings::near::{Meaning, meaning_near, meaning_of};
pub use meanings::text_items::TextItems;
pub use mentions::laws::{
    mentions_are_exact, names_are_their_references, references_are_spelled_alike,
};
pub use mentions::mention::{Mention, Reference};
pub use mentions::references::references;
pub use mentions::text_mentions::all_mentions;
pub use tokens::at_offset::{token_at, token_bytes_find_it};
pub use tokens::item_tokens::ItemTokens;
pub use tokens::text_tokens::all_tokens;
