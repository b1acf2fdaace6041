//! The tokens of a text: that which has the byte at an offset, and those of an item.
//!
//! The pieces of a text and an offset come in, the token that has that byte goes out. Or the tokens
//! and the places where items end come in, and the tokens of an item, the span of one of them and
//! the item's extent go out. It knows neither what an item says nor who asks.

pub(crate) mod at_offset;
pub(crate) mod item_tokens;
pub(crate) mod text_tokens;
