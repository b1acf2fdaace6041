//! The states that no walk reaches: the tables of a text come in, findings at the names of states
//! go out.
#![tactic(auto)]

ghost use Rattle.std.specs.Prelude.{◌≡◌, ◌++◌, OnOk};
ghost use Rattle.std.specs.List.{flat_map};
ghost use Rattle.snl_kept.specs.Tables.{found_at_state, is_unreached, walked_in};

use crate::found::findings::Finding;
use snl_check::{StateMark, StateRow, Tables};
use snl_codes::Code;
use snl_cut::OutOfMemory;

/// Whether no walk reaches a state, by its mark.
pub fn is_unreached(mark: StateMark) -> bool
    ensures { result ≡ is_unreached mark }
{
    matches!(mark, StateMark::Unreached)
}

/// Adds the states of a set that are not reached.
pub fn add_states(states: &[StateRow], found: &mut Vec<Finding>) -> Result<(), OutOfMemory>
    ensures { OnOk result (found.new.items ≡ found.old.items ++ flat_map found_at_state states.now) }
{
    for state in states {
        if is_unreached(state.mark) {
            found.push(Finding {
                offset: state.name.start,
                code: Code::W02,
                subject: state.name.len,
            })?;
        }
    }
    Ok(())
}

/// Adds the states that are not reached, at their names.
pub fn add_walked_faults(tables: &Tables, found: &mut Vec<Finding>) -> Result<(), OutOfMemory>
    ensures { OnOk result (found.new.items ≡ found.old.items ++ walked_in tables.now) }
{
    for set in tables.sets.as_slice() {
        add_states(set.states.as_slice(), found)?;
    }
    Ok(())
}
