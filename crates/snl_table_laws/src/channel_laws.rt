//! The laws of the elements of a variable and their channels. A function here does nothing of its
//! own: its contract is the law.

ghost use Rattle.snl_check.specs.Channels.{assigned_channels};
ghost use Rattle.snl_item_check.specs.Items.{ProgramItem, outlines_of};
ghost use Rattle.snl_scope.specs.Clauses.{sound_clauses};
ghost use Rattle.snl_summary.specs.declared.summary.Outline.{Outline};
ghost use Rattle.snl_table_laws.specs.Channels.{AssignApart, ChannelsApart};
ghost use Rattle.std.specs.Prelude.{ℕ, List};
ghost use Rattle.std.specs.List.{AllPairs};

use snl_moved::same_clauses;

/// No two sound `assign`s of one declaration cover a common element, and none covers the whole
/// beside another.
pub fn sound_assigns_apart()
    ensures { (ss : List Outline) → AllPairs AssignApart (sound_clauses ss) }
{}

/// So an element has one channel at most: of two channels of one variable in the tables of a text,
/// each is that of an element, and these are not the same.
pub fn one_channel_an_element()
    ensures { (text : List ℕ) (xs : List ProgramItem)
        → AllPairs ChannelsApart (assigned_channels text xs (outlines_of text xs)) }
{
    same_clauses();
}
