//! The tokens and the items of a text as lists that an edit changes in place.
//!
//! What an edit makes of the pieces comes in; what it makes of the tokens and of the items goes
//! out. Items whose tokens are spelled as before are kept as they are. The crate knows nothing of
//! trees.
#![tactic(auto)]

mod in_front;
mod item_list;
mod laws;
mod new_pieces;
mod numbered_tokens;
mod own_tokens;
mod shifted;
mod spelled;
mod token_list;
mod tokens;

pub use in_front::tokens_in_front;
pub use item_list::{ItemChange, ItemList};
pub use laws::{few_pieces, pieces_are_fresh, tokens_around_stay};
pub use new_pieces::pieces_after;
pub use own_tokens::{own_tokens_after, own_tokens_before};
pub use shifted::Shifted;
pub use spelled::are_spelled_alike;
pub use token_list::{Reach, TokenList};
pub use tokens::{TokenChange, TokenEdit};
