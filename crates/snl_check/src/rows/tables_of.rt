//! The tables of a text: its items, their links and what their checks gave come in, rows go out.
//! They are made whole; the laws of snl_moved say after which edits rows can move instead.

ghost use Rattle.std.specs.Prelude.{◌≡◌, IfOk, IfSome, length, map, option_copied, take};
ghost use Rattle.snl_lex.specs.LineList.{IsLineList};
ghost use Rattle.snl_lex.specs.Pieces.{pieces_of, tokens_of};
ghost use Rattle.snl_summary.specs.Summaries.{kind_of};
ghost use Rattle.snl_check.specs.Channels.{assigned_channels};
ghost use Rattle.snl_check.specs.Collected.{IsLinked, IsStateSource, assigned, items_in, over};
ghost use Rattle.snl_item_check.specs.Items.{IsCutUp, program_items, outlines_of};
ghost use Rattle.snl_check.specs.KnownRows.{AreKnown};
ghost use Rattle.snl_check.specs.States.{set_rows};
ghost use Rattle.snl_check.specs.Tables.{tables_by, tables_of};
ghost use Rattle.snl_item_check.specs.Told.{told_in_item, told_seen};

use crate::rows::channel_numbers::numbers_of;
use crate::rows::channel_rows::{known_or_made, variables};
use crate::rows::channels::{AssignedChannel, assigned_channels};
use crate::rows::flag_rows::flag_rows;
use crate::rows::item_clauses::resolved_clauses;
use crate::rows::known_rows::{KnownRows, known_channels, known_sets};
use crate::rows::option_rows::program_options;
use crate::rows::row_source::RowSource;
use crate::rows::set_rows::set_rows;
use crate::rows::state_source::StateSource;
use crate::rows::text_items::TextItems;
use snl_cut::OutOfMemory;
use snl_grammar::tree::item::Item;
use snl_item_check::Checked;
use snl_items::TokenList;
use snl_lex::{LineList, Piece, tokens_among};
use snl_scope::{ItemKind, Links, kind_of};
use snl_tables::{Rows, SetRow, Tables};
use sqlite_items::Items;
use std::alloc::Global;

// The rows of all tables.
fn rows_of(
    row_source: &RowSource,
    lines: &LineList,
    checked: &[Option<&Checked>],
    known: Option<KnownRows>,
) -> Result<Tables, OutOfMemory>
    requires linked { IsLinked row_source.now }
    requires lines { IsLineList row_source.now.program.text.now lines.now }
    requires checked { map told_seen checked.now
        ≡ map (told_in_item row_source.now.program.text.now) (items_in row_source.now.program) }
    requires known { IfSome known (λ k. AreKnown k (over row_source.now tables_by)) }
    ensures { IfOk result (λ t. t ≡ over row_source.now tables_by) }
{
    let channels = assigned_channels(row_source)?;
    let tables = rows_by_channels(row_source, lines, checked, channels, known)?;
    Ok(tables)
}

// The rows of all tables, by the channels of the text.
fn rows_by_channels(
    row_source: &RowSource,
    lines: &LineList,
    checked: &[Option<&Checked>],
    channels: Vec<AssignedChannel>,
    known: Option<KnownRows>,
) -> Result<Tables, OutOfMemory>
    requires linked { IsLinked row_source.now }
    requires lines { IsLineList row_source.now.program.text.now lines.now }
    requires checked { map told_seen checked.now
        ≡ map (told_in_item row_source.now.program.text.now) (items_in row_source.now.program) }
    requires channels { map assigned channels.items ≡ over row_source.now assigned_channels }
    requires known { IfSome known (λ k. AreKnown k (over row_source.now tables_by)) }
    ensures { IfOk result (λ t. t ≡ over row_source.now tables_by) }
{
    let numbers = numbers_of(row_source.program.alloc, &channels)?;
    let state_source = StateSource {
        row_source: *row_source,
        lines,
        checked,
        numbers: &numbers,
    };
    let tables = rows_by_state_source(&state_source, channels, known)?;
    Ok(tables)
}

// The rows of state sets, while other rows are held. These are of any type, so that the proof of
// what is freed on the way out looks into no row.
fn then_sets<T: Drop>(
    state_source: &StateSource,
    known: &[SetRow],
    held: T,
) -> Result<(T, Vec<SetRow>), OutOfMemory>
    requires state_source { IsStateSource state_source.now }
    requires known { known.now
        ≡ take (length known.now) (over state_source.now.row_source set_rows) }
    ensures held { IfOk result (λ both. both.0 ≡ held) }
    ensures sets { IfOk result (λ both. both.1.items ≡ over state_source.now.row_source set_rows) }
{
    let sets = set_rows(state_source, known)?;
    Ok((held, sets))
}

// The rows of all tables, by what those of state sets are made from. The list of channels is let go
// once their rows are made.
fn rows_by_state_source(
    state_source: &StateSource,
    channels: Vec<AssignedChannel>,
    known: Option<KnownRows>,
) -> Result<Tables, OutOfMemory>
    requires state_source { IsStateSource state_source.now }
    requires channels { map assigned channels.items
        ≡ over state_source.now.row_source assigned_channels }
    requires known { IfSome known (λ k.
        AreKnown k (over state_source.now.row_source tables_by)) }
    ensures { IfOk result (λ t. t ≡ over state_source.now.row_source tables_by) }
{
    let row_source = &state_source.row_source;
    let alloc = row_source.program.alloc;
    let variables = variables(alloc, row_source.links.declarations(), &channels)?;
    let program = row_source.program.name();
    let options = program_options(row_source)?;
    let flags = flag_rows(row_source)?;
    let rows = known_or_made(row_source, &channels, known_channels(known))?;
    drop(channels);
    let held = (variables, options, flags, rows);
    let ((variables, options, flags, rows), sets) = then_sets(
        state_source,
        known_sets(known),
        held,
    )?;
    Ok(Tables {
        program,
        options: Items::from_vec(options),
        flags: Rows::from_vec(flags),
        channels: Rows::from_vec(rows),
        variables: Items::from_vec(variables),
        sets: Rows::from_vec(sets),
    })
}

/// The tables of a text, by its lines and its tokens. `ends` has, for each item, the number of the
/// token after it; a faulty item has no tree. `kinds` has what each item is, and `checked` what the
/// check gave of each that isn't faulty. Rows that are known, as after an edit that leaves them, are
/// copied.
pub fn tables_by_tokens(
    alloc: Global,
    text: &[u8],
    lines: &LineList,
    tokens: &TokenList,
    ends: &[usize],
    items: &[Option<&Item>],
    kinds: &[ItemKind],
    links: &Links,
    checked: &[Option<&Checked>],
    known: Option<KnownRows>,
) -> Result<Tables, OutOfMemory>
    requires lines { IsLineList text.now lines.now }
    requires tokens { tokens.now ≡ tokens_of text.now }
    requires cut { IsCutUp text.now tokens.now ends.now (length items.now) }
    requires kinds { kinds.now ≡ map kind_of (map option_copied items.now) }
    requires links { links.now.outlines
        ≡ outlines_of text.now (program_items tokens.now ends.now (map option_copied items.now)) }
    requires checked { map told_seen checked.now
        ≡ map (told_in_item text.now)
        (program_items tokens.now ends.now (map option_copied items.now)) }
    requires known { IfSome known (λ k. AreKnown k
        (tables_of text.now
        (program_items tokens.now ends.now (map option_copied items.now)))) }
    ensures { IfOk result (λ t. t
        ≡ tables_of text.now (program_items tokens.now ends.now (map option_copied items.now))) }
{
    let program = TextItems {
        text,
        tokens,
        ends,
        trees: items,
        kinds,
        alloc,
    };
    let clauses = resolved_clauses(&program, links)?;
    let row_source = RowSource {
        program,
        clauses: &clauses,
        links,
    };
    let tables = rows_of(&row_source, lines, checked, known)?;
    Ok(tables)
}

// What each item is, by its tree.
fn kinds_of(alloc: Global, items: &[Option<&Item>]) -> Result<Vec<ItemKind>, OutOfMemory>
    ensures { IfOk result (λ kinds. kinds.items ≡ map kind_of (map option_copied items.now)) }
{
    let mut kinds = Vec::with_capacity(alloc, items.len())?;
    for item in items {
        kinds.push(kind_of(*item))?;
    }
    Ok(kinds)
}

/// The tables of a text, by its pieces. `ends` has, for each item, the number of the token after
/// it; a faulty item has no tree.
/// `checked` has what the check gave of each item that isn't faulty.
pub fn tables(
    alloc: Global,
    text: &[u8],
    pieces: &[Piece],
    ends: &[usize],
    items: &[Option<&Item>],
    links: &Links,
    checked: &[Option<&Checked>],
) -> Result<Tables, OutOfMemory>
    requires pieces { pieces.now ≡ pieces_of text.now }
    requires cut { IsCutUp text.now (tokens_of text.now) ends.now (length items.now) }
    requires links { links.now.outlines
        ≡ outlines_of text.now
        (program_items (tokens_of text.now) ends.now (map option_copied items.now)) }
    requires checked { map told_seen checked.now
        ≡ map (told_in_item text.now)
        (program_items (tokens_of text.now) ends.now (map option_copied items.now)) }
    ensures { IfOk result (λ t. t
        ≡ tables_of text.now (program_items (tokens_of text.now) ends.now
        (map option_copied items.now))) }
{
    let lines = LineList::of(alloc, text, pieces)?;
    let listed = tokens_among(alloc, pieces)?;
    let tokens = TokenList::listed(&listed);
    let kinds = kinds_of(alloc, items)?;
    let tables = tables_by_tokens(
        alloc, text, &lines, &tokens, ends, items, &kinds, links, checked, None,
    )?;
    Ok(tables)
}
