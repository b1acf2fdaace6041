//! What an edit costs, counted a second time: by the text before it and the text after it, and by
//! no code of the session. In: both texts, and the edit. Out: how many pieces are cut anew, how
//! many items are parsed and how many are checked. Both texts are read from their first byte, by
//! the steps of snl_reading. What is fresh is then told by the words of the definition: a change of
//! a list keeps the members that end before it, and those from the first boundary after it on that
//! both lists have. Nothing here comes from snl_session, or from the modules beside this one.

mod counting;
mod cuts;
mod read_text;
mod tokens;
mod views;

pub use counting::second_count;
pub use cuts::Change;
