//! An edit under way: what is kept of the old text, both texts, and what the edit makes of the
//! parts of the text. Each way of an edit reads it, and nothing is changed through it.
#![tactic(auto)]

use crate::found::findings::Diagnostic;
use crate::lists::Lists;
use crate::plan::Changes;
use snl_check::Tables;
use snl_lex::{LineList, TextEdit};

/// An edit under way: the lists, the tables and the diagnostics of the old text, the edit, what it
/// makes of the pieces, the tokens and the items, the lines of the new text, and how many pieces
/// were cut. What is known of these is `IsUnderWay`.
#[derive(Clone, Copy)]
pub struct Editing<'a, 't> {
    pub lists: &'a Lists,
    pub tables: &'a Tables,
    pub found: &'a [Diagnostic],
    pub edit: &'a TextEdit<'t>,
    pub changes: &'a Changes,
    pub lines: &'a LineList,
    pub lexed: u64,
}
