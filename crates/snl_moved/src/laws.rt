//! Laws of the clauses of items, of wake-up sets, of spans and of states that no walk leads to. A
//! function here does nothing: its contract is the law.

ghost use Rattle.std.specs.Prelude.{◌≡◌, ◌<◌, ◌↔◌, ℕ, List, length, map};
ghost use Rattle.snl_walk.specs.Tokens.{IsSource};
ghost use Rattle.snl_summary.specs.declared.summary.Outline.{Outline};
ghost use Rattle.snl_scope.specs.Clauses.{clauses_of};
ghost use Rattle.snl_tables.specs.declared.rows.StateMark.TheVariants.{Unreached};
ghost use Rattle.snl_item_check.specs.Items.{ProgramItem, outlines_of, tokens_in};
ghost use Rattle.snl_check.specs.Clauses.{item_clauses, summarized};
ghost use Rattle.snl_check.specs.Members.{states_in};
ghost use Rattle.snl_moved.specs.Spans.{AreRead, TablesHaveBytes, TablesLieIn};
ghost use Rattle.snl_check.specs.States.{mark_of};
ghost use Rattle.snl_check.specs.Tables.{tables_of};
ghost use Rattle.snl_moved.specs.Unreached.{IsUnreached};
ghost use Rattle.snl_moved.specs.WakeSets.{HasChannels, HasFlags};

use snl_check::walks_of_few_steps;
use snl_scope::names_are_tokens;

/// The clauses of items, as trees, are those that the summaries of the items have, one by one in
/// the order of the text.
pub fn same_clauses()
    ensures { (text : List ℕ) (xs : List ProgramItem)
        → map (summarized text xs) (item_clauses xs)
        ≡ map (λ c. (c.item, c.clause)) (clauses_of (outlines_of text xs)) }
{}

/// An event flag or a channel is in the wake-up set that the row of a state has exactly where a use
/// of a name in the state's conditions means it.
pub fn wake_up_sets()
    ensures flags { (text : List ℕ) (xs : List ProgramItem) (item : ℕ) → HasFlags text xs item }
    ensures channels { (text : List ℕ) (xs : List ProgramItem) (item : ℕ)
        → HasChannels text xs item }
{}

/// The spans in the rows of tables lie in the text, where the tokens of its items do. Each has a
/// byte, where the tokens have one and the trees are those that are read of them.
pub fn spans_lie_in_text()
    ensures lie { (text : List ℕ) (xs : List ProgramItem)
        → ((item : ℕ) → IsSource text (tokens_in xs item)) → TablesLieIn text (tables_of text xs) }
    ensures bytes { (text : List ℕ) (xs : List ProgramItem) → AreRead text xs
        → TablesHaveBytes (tables_of text xs) }
{
    names_are_tokens();
}

/// A state's mark is that it is not reached exactly where no walk leads to it, it is sound and the
/// first of its name, and no item of its set is faulty.
pub fn unreached_without_a_walk()
    ensures { (text : List ℕ) (xs : List ProgramItem) (ss : List Outline) (k number j : ℕ)
        → number < length (states_in ss k)
        → (mark_of text xs ss k number j ≡ Unreached) ↔ IsUnreached text xs ss k number j }
{
    walks_of_few_steps();
}
