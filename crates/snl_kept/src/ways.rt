//! The ways of an edit: which of what is kept stays, is shifted, or is made anew.
//! `changes` tells what an edit makes of the parts of the text. The short way is in `shift`;
//! `planning` chooses between the other two: `one_item`, an edit inside one item that says to the
//! others what it said, and `whole`, after which all that the text says is told anew.

pub(crate) mod changes;
pub(crate) mod one_item;
pub(crate) mod planning;
pub(crate) mod shift;
pub(crate) mod whole;
