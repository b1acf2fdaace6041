//! Items as trees. A leaf is the number of its token in the item, from 0; nothing in a tree is a
//! byte or an offset.

pub mod clause;
pub mod declaration;
pub mod expression;
pub mod item;
pub mod state;
pub mod statement;
pub mod types;
