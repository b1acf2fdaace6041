//! The laws of tables, and what an edit leaves of them: where the rows that were there stay, where
//! they move with the text, and what wakes a state up whose inside has changed. It makes no tables.
#![tactic(auto)]

mod alike_laws;
mod inside;
mod laws;
mod moved_laws;
mod quiet;
mod quiet_laws;

pub use alike_laws::tables_told_alike;
pub use inside::wake_inside;
pub use laws::{same_clauses, spans_lie_in_text, unreached_without_a_walk, wake_up_sets};
pub use moved_laws::{
    tables_move, tables_move_around_a_state, tables_move_around_an_item, tables_move_in_a_set,
    tables_move_inside_a_state, tables_move_outside_the_sets,
};
pub use quiet::after_quiet;
pub use quiet_laws::{channels_stay, sets_stay};
