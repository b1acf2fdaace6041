//! What is found in the states of one state set: the rows before an edit and the marks after it
//! come in, findings at the names of the states that no walk reaches go out.
#![tactic(auto)]

ghost use Rattle.std.specs.Prelude.{◌≡◌, ◌++◌, [], OnOk, map, option_copied, slice_get, unwrap_or};
ghost use Rattle.std.specs.List.{flat_map};
ghost use Rattle.std.specs.Option.{option_map_or};
ghost use Rattle.snl_tables.specs.Shifted.{marked, shifted_state};
ghost use Rattle.snl_kept.specs.Diagnostics.{shown_if};
ghost use Rattle.snl_kept.specs.OwnRows.{come_of, found_by_marks, gone_of, named, named_at, row_at};
ghost use Rattle.snl_kept.specs.Tables.{found_at_name, found_at_set, found_at_state};

use crate::found::diagnose::keep_shown;
use crate::found::findings::Finding;
use crate::found::own_findings::add_all;
use crate::found::walked::{add_states, is_unreached};
use crate::plan::{RowChange, RowPlace};
use snl_check::{Span, StateMark, StateRow, Tables};
use snl_codes::Code;
use snl_cut::OutOfMemory;
use snl_lex::Shift;
use std::alloc::Global;

// The states of a set, by its number among the rows.
fn states_of(tables: &Tables, set: usize) -> &[StateRow]
    ensures { result.now ≡ option_map_or (λ row. row.states) (slice_get tables.now.sets set) [] }
{
    match tables.sets.get(set) {
        Some(row) => row.states.as_slice(),
        None => &[],
    }
}

// The most states of a set that no walk reaches, above which it isn't worth the search for each
// among the diagnostics.
const FEW: usize = 16;

/// Whether few states of a set are not reached.
pub fn few_unreached(tables: &Tables, set: usize) -> bool {
    let states = states_of(tables, set);
    states.iter().filter(|s| is_unreached(s.mark)).count() <= FEW
}

// Adds what was found in a set.
fn add_at_set(tables: &Tables, set: usize, found: &mut Vec<Finding>) -> Result<(), OutOfMemory>
    ensures { OnOk result (found.new.items ≡ found.old.items ++ found_at_set tables.now set) }
{
    add_states(states_of(tables, set), found)
}

/// A state of a set that gets another name: its number among the states, and where its name is.
#[derive(Clone, Copy)]
pub struct NewName {
    pub number: usize,
    pub name: Span,
}

// Where the name of the state with a number is after an edit.
fn name_after(own: Option<NewName>, number: usize, state: &StateRow, shift: Shift) -> Span
    ensures { result ≡ (named_at own number (shifted_state shift state.now)).name }
{
    match own {
        Some(own) if own.number == number => own.name,
        _ => Span {
            start: shift.offset(state.name.start),
            len: state.name.len,
        },
    }
}

// What is known of the state with a number after an edit that gives these marks: what was known,
// where there is none for it.
fn mark_after(marks: &[StateMark], number: usize, state: &StateRow) -> StateMark
    ensures { result ≡ unwrap_or (slice_get marks.now number) state.now.mark }
{
    match marks.get(number) {
        Some(mark) => *mark,
        None => state.mark,
    }
}

// Adds a state, if it isn't reached by this mark, at its name.
fn add_at_name(mark: StateMark, name: Span, found: &mut Vec<Finding>) -> Result<(), OutOfMemory>
    ensures { OnOk result (found.new.items ≡ found.old.items ++ found_at_name mark name) }
{
    if is_unreached(mark) {
        found.push(Finding {
            offset: name.start,
            code: Code::W02,
            subject: name.len,
        })?;
    }
    Ok(())
}

// Adds the states of a set that are not reached by these marks, where one may have another name.
fn add_marked(
    states: &[StateRow],
    own: Option<NewName>,
    marks: &[StateMark],
    shift: Shift,
    found: &mut Vec<Finding>,
) -> Result<(), OutOfMemory>
    ensures { OnOk result (found.new.items ≡ found.old.items ++ flat_map found_at_state (marked marks.now (named own (map (shifted_state shift) states.now)))) }
{
    for (number, state) in states.iter().enumerate() {
        let name = name_after(own, number, state, shift);
        add_at_name(mark_after(marks, number, state), name, found)?;
    }
    Ok(())
}

// Adds what is found in a set after an edit that gives its states these marks, and one of them
// another name.
fn add_by_marks(
    tables: &Tables,
    set: usize,
    own: Option<NewName>,
    marks: &[StateMark],
    shift: Shift,
    found: &mut Vec<Finding>,
) -> Result<(), OutOfMemory>
    ensures { OnOk result (found.new.items ≡ found.old.items ++ found_by_marks shift own marks.now tables.now set) }
{
    add_marked(states_of(tables, set), own, marks, shift, found)
}

// The row of a state, if it has one there.
fn row_at(tables: &Tables, place: RowPlace) -> Option<&StateRow>
    ensures { option_copied result ≡ row_at tables.now place }
{
    tables.sets.get(place.set)?.states.get(place.state)
}

// Adds what was found at a state.
fn add_own_gone(
    tables: &Tables,
    place: RowPlace,
    found: &mut Vec<Finding>,
) -> Result<(), OutOfMemory>
    ensures { OnOk result (found.new.items ≡ found.old.items ++ option_map_or found_at_state (row_at tables.now place) []) }
{
    match row_at(tables, place) {
        Some(row) => add_at_name(row.mark, row.name, found),
        None => Ok(()),
    }
}

// Adds what is found at it where its name is there.
fn add_own_come(
    tables: &Tables,
    place: RowPlace,
    name: Span,
    found: &mut Vec<Finding>,
) -> Result<(), OutOfMemory>
    ensures { OnOk result (found.new.items ≡ found.old.items ++ option_map_or (λ row. found_at_name row.mark name) (row_at tables.now place) []) }
{
    match row_at(tables, place) {
        Some(row) => add_at_name(row.mark, name, found),
        None => Ok(()),
    }
}

// Adds what was found in the states whose rows change.
fn add_gone(
    tables: &Tables,
    change: &RowChange,
    found: &mut Vec<Finding>,
) -> Result<(), OutOfMemory>
    ensures { OnOk result (found.new.items ≡ found.old.items ++ gone_of tables.now change.now) }
{
    match change {
        RowChange::Nothing => Ok(()),
        RowChange::Body { place, .. } => add_own_gone(tables, *place, found),
        RowChange::State { place, .. } => add_at_set(tables, place.set, found),
        RowChange::Marks { set, .. } => add_at_set(tables, *set, found),
    }
}

// Adds what is found in them after the change.
fn add_come(
    tables: &Tables,
    change: &RowChange,
    shift: Shift,
    found: &mut Vec<Finding>,
) -> Result<(), OutOfMemory>
    ensures { OnOk result (found.new.items ≡ found.old.items ++ come_of shift tables.now change.now) }
{
    match change {
        RowChange::Nothing => Ok(()),
        RowChange::Body { place, body } => add_own_come(tables, *place, body.name, found),
        RowChange::State {
            place,
            body,
            marks,
            ..
        } => {
            let own = NewName {
                number: place.state,
                name: body.name,
            };
            add_by_marks(tables, place.set, Some(own), marks.as_slice(), shift, found)
        }
        RowChange::Marks { set, marks } => {
            add_by_marks(tables, *set, None, marks.as_slice(), shift, found)
        }
    }
}

/// Adds what was shown of the states whose rows change.
pub fn add_shown_gone(
    alloc: Global,
    warns: bool,
    tables: &Tables,
    change: &RowChange,
    found: &mut Vec<Finding>,
) -> Result<(), OutOfMemory>
    ensures { OnOk result (found.new.items ≡ found.old.items ++ shown_if warns (gone_of tables.now change.now)) }
{
    let mut gone = Vec::new(alloc);
    add_gone(tables, change, &mut gone)?;
    keep_shown(warns, &mut gone);
    add_all(&gone, found)
}

/// Adds what is shown of them after the edit.
pub fn add_shown_come(
    alloc: Global,
    warns: bool,
    tables: &Tables,
    change: &RowChange,
    shift: Shift,
    found: &mut Vec<Finding>,
) -> Result<(), OutOfMemory>
    ensures { OnOk result (found.new.items ≡ found.old.items ++ shown_if warns (come_of shift tables.now change.now)) }
{
    let mut come = Vec::new(alloc);
    add_come(tables, change, shift, &mut come)?;
    keep_shown(warns, &mut come);
    add_all(&come, found)
}
