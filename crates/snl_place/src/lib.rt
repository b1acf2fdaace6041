//! Places in a text, as the Language Server Protocol counts them, and a text under its changes.
//! In: the bytes of a text, where its lines end, and a place, an offset or a change.
//! Out: the offset, the place, the line, the least change that does the same, and the text after
//! changes.
//! It knows nothing of messages, nor of what a text says.
#![tactic(auto)]

mod draft;
mod laws;
mod line_places;
mod places;
mod trim;

pub use draft::Draft;
pub use laws::{
    ascii_counts_alike, characters_counted, edits_keep_text, late_places_end_the_text, lines_agree,
    lines_begin_anew, offsets_are_whole, offsets_rise, places_return, places_rise,
};
pub use line_places::{line_around, offset_by, place_from};
pub use places::{Encoding, Place};
pub use trim::{Splice, trimmed};
