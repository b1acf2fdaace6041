//! What is found of the order of items: the finished tables of their outlines and the kinds of all
//! come in, findings at items go out.

ghost use Rattle.std.specs.Prelude.{◌≡◌, false, ◌++◌, ◌<◌, IfOk, IfSome, OnOk, ◌&&◌, ◌||◌, not, is_none, length, replicate};
ghost use Rattle.snl_scope.specs.Order.{found_if, header_faults, is_faulty, is_program_word, is_ss_word, misplaced_items, missing_states, order_faults, unmatched_braces};
ghost use Rattle.snl_scope.specs.Places.{begins_set, ends_set};
ghost use Rattle.snl_scope.specs.NameTables.{Marked, is_sought, set_of, with_mark};

use crate::facts::LinkFault;
use crate::items::heads::{Sought, is_sought};
use crate::items::phases::{Before, begins_with_program};
use crate::names::scopes::Scopes;
use snl_codes::Code;
use snl_cut::OutOfMemory;
use snl_summary::{ItemKind, Opening, Role};
use std::alloc::Global;

/// Whether an item of the kind is faulty.
pub(crate) fn is_faulty(kind: ItemKind) -> bool
    ensures { result ≡ is_faulty kind }
{
    matches!(kind, ItemKind::Faulty)
}

fn begins_with_ss(opening: Opening) -> bool
    ensures { result ≡ is_ss_word opening }
{
    matches!(opening, Opening::Ss)
}

// Adds a finding at the first token of an item, if there is one.
fn add_if(
    is_found: bool,
    code: Code,
    item: usize,
    faults: &mut Vec<LinkFault>,
) -> Result<(), OutOfMemory>
    ensures { OnOk result (faults.new.items ≡ faults.old.items ++ found_if is_found code item) }
{
    if is_found {
        faults.push(LinkFault {
            item,
            token: 0,
            code,
        })?;
    }
    Ok(())
}

// Adds E03 at the items that are out of place.
fn add_misplaced(
    scopes: &Scopes,
    kinds: &[ItemKind],
    faults: &mut Vec<LinkFault>,
) -> Result<(), OutOfMemory>
    requires { length kinds.now ≡ length scopes.now }
    ensures { OnOk result (faults.new.items ≡ faults.old.items
        ++ misplaced_items (record { outlines = scopes.now; kinds = kinds.now })) }
{
    let mut before = Before::new();
    for item in 0..kinds.len() {
        let kind = kinds[item];
        let enclosing_set = scopes.enclosing_set(item);
        let opening = scopes.head(item).opening;
        let is_misplaced = before.misplaces(enclosing_set, kind, opening);
        add_if(is_misplaced, Code::E03, item, faults)?;
        before = before.and(enclosing_set, kind, opening);
    }
    Ok(())
}

fn unmarked(alloc: Global, len: usize) -> Result<Vec<bool>, OutOfMemory>
    ensures { IfOk result (λ marks. marks.items ≡ replicate len false) }
{
    match Vec::from_elem(alloc, false, len) {
        Ok(marks) => Ok(marks),
        Err(_) => Err(OutOfMemory),
    }
}

// The state set that an item is in, if it is sought.
fn set_of(is_sought: bool, enclosing_set: Option<usize>) -> Option<usize>
    ensures { result ≡ set_of is_sought enclosing_set }
{
    if is_sought { enclosing_set } else { None }
}

fn mark(marks: &mut Vec<bool>, set: Option<usize>)
    requires { IfSome set (λ k. k < length marks.old.items) }
    ensures { marks.new.items ≡ with_mark marks.old.items set }
{
    if let Some(set) = set {
        marks[set] = true;
    }
}

// For each item, whether it begins a state set that has what is sought.
fn sets_with(alloc: Global, sought: Sought, scopes: &Scopes) -> Result<Vec<bool>, OutOfMemory>
    ensures { IfOk result
        (λ marks. Marked (is_sought sought) marks.items scopes.now (length scopes.now)) }
{
    let count = scopes.item_count();
    let mut marks = unmarked(alloc, count)?;
    for item in 0..count {
        let is_sought = is_sought(sought, scopes.head(item));
        mark(&mut marks, set_of(is_sought, scopes.enclosing_set(item)));
    }
    Ok(marks)
}

fn begins_set(role: Role) -> bool
    ensures { result ≡ begins_set role }
{
    matches!(role, Role::SetBegin)
}

// Whether an item is a state set that nothing closes, or a `}` that closes none.
fn is_unmatched(role: Role, enclosing_set: Option<usize>, is_closed: bool) -> bool
    ensures { result
        ≡ ((begins_set role && not is_closed) || (ends_set role && is_none enclosing_set)) }
{
    match role {
        Role::SetBegin => !is_closed,
        Role::SetEnd => enclosing_set.is_none(),
        _ => false,
    }
}

// Adds E04 at the braces that do not match.
fn add_unmatched(
    alloc: Global,
    scopes: &Scopes,
    faults: &mut Vec<LinkFault>,
) -> Result<(), OutOfMemory>
    ensures { OnOk result (faults.new.items ≡ faults.old.items ++ unmatched_braces scopes.now) }
{
    let closed = sets_with(alloc, Sought::End, scopes)?;
    for item in 0..closed.len() {
        let role = scopes.head(item).role;
        let is_unmatched = is_unmatched(role, scopes.enclosing_set(item), closed[item]);
        add_if(is_unmatched, Code::E04, item, faults)?;
    }
    Ok(())
}

// Whether an item is a later header, where it is known whether an earlier item begins with
// `program`.
fn is_repeated(kind: ItemKind, opening: Opening, has_program: bool) -> bool
    ensures { result ≡ (not (is_faulty kind) && (is_program_word opening && has_program)) }
{
    !is_faulty(kind) && begins_with_program(opening) && has_program
}

fn program_so_far(has_program: bool, opening: Opening) -> bool
    ensures { result ≡ (is_program_word opening || has_program) }
{
    begins_with_program(opening) || has_program
}

// Adds E05 at later headers, or where there is none.
fn add_header_faults(
    scopes: &Scopes,
    kinds: &[ItemKind],
    faults: &mut Vec<LinkFault>,
) -> Result<(), OutOfMemory>
    requires { length kinds.now ≡ length scopes.now }
    ensures { OnOk result (faults.new.items ≡ faults.old.items
        ++ header_faults (record { outlines = scopes.now; kinds = kinds.now })) }
{
    let mut has_program = false;
    for item in 0..kinds.len() {
        let opening = scopes.head(item).opening;
        add_if(
            is_repeated(kinds[item], opening, has_program),
            Code::E05,
            item,
            faults,
        )?;
        has_program = program_so_far(has_program, opening);
    }
    add_if(!has_program, Code::E05, kinds.len(), faults)
}

fn is_stateless(role: Role, has_state: bool) -> bool
    ensures { result ≡ (begins_set role && not has_state) }
{
    begins_set(role) && !has_state
}

fn set_so_far(has_set: bool, opening: Opening) -> bool
    ensures { result ≡ (is_ss_word opening || has_set) }
{
    begins_with_ss(opening) || has_set
}

// Adds E06 at state sets with no state, or where no item begins with `ss`.
fn add_missing_states(
    alloc: Global,
    scopes: &Scopes,
    faults: &mut Vec<LinkFault>,
) -> Result<(), OutOfMemory>
    ensures { OnOk result (faults.new.items ≡ faults.old.items ++ missing_states scopes.now) }
{
    let with_state = sets_with(alloc, Sought::State, scopes)?;
    let mut has_set = false;
    for item in 0..with_state.len() {
        let head = scopes.head(item);
        add_if(
            is_stateless(head.role, with_state[item]),
            Code::E06,
            item,
            faults,
        )?;
        has_set = set_so_far(has_set, head.opening);
    }
    add_if(!has_set, Code::E06, with_state.len(), faults)
}

/// Adds what is found of the order of items.
pub(crate) fn add_order_faults(
    alloc: Global,
    scopes: &Scopes,
    kinds: &[ItemKind],
    faults: &mut Vec<LinkFault>,
) -> Result<(), OutOfMemory>
    requires { length kinds.now ≡ length scopes.now }
    ensures { OnOk result (faults.new.items ≡ faults.old.items
        ++ order_faults (record { outlines = scopes.now; kinds = kinds.now })) }
{
    add_misplaced(scopes, kinds, faults)?;
    add_unmatched(alloc, scopes, faults)?;
    add_header_faults(scopes, kinds, faults)?;
    add_missing_states(alloc, scopes, faults)
}
