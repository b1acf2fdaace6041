//! The event flags: the tables of names come in, and the numbers of the entries that are event
//! flags go out, in the order of the text. It doesn't know how names are found.

ghost use Rattle.std.specs.Prelude.{◌≡◌, ℕ, suc, IfOk, List, nat_eq, option_map, position};
ghost use Rattle.std.specs.List.Sorted.{IsStrictlyIncreasing};
ghost use Rattle.snl_summary.specs.declared.summary.Outline.{Outline};
ghost use Rattle.snl_scope.specs.Flags.{declares_flag, flags_of};
ghost use Rattle.snl_scope.specs.Names.{entries};
ghost use Rattle.snl_scope.specs.NameTables.{TablesFollow, flag_stands};

use crate::names::name_tables::{NameTables, Symbol};
use snl_cut::OutOfMemory;
use snl_summary::{SymbolKind, Variable};
use std::alloc::Global;

// Whether what a declaration says of a name makes it an event flag.
fn declares_flag(variable: Option<Variable>) -> bool
    ensures { result ≡ declares_flag variable }
{
    match variable {
        Some(variable) => matches!(variable.symbol_kind, SymbolKind::EventFlag),
        None => false,
    }
}

// Whether the entry with a number declares an event flag.
fn flag_stands(symbols: &[Symbol], number: usize) -> bool
    ensures { result ≡ flag_stands symbols.now number }
{
    match symbols.get(number) {
        Some(symbol) => declares_flag(symbol.variable),
        None => false,
    }
}

/// The numbers of the entries that are event flags. The tables list the first of each name in its
/// namespace, in the order of the text.
pub(crate) fn flags_of(alloc: Global, tables: &NameTables) -> Result<Vec<usize>, OutOfMemory>
    ensures { IfOk result (λ flags. (names : List (List ℕ)) (ss : List Outline)
        → TablesFollow names tables.now (entries ss)
        → flags.items ≡ flags_of ss) }
{
    let mut flags = Vec::new(alloc);
    let numbers = tables.first.numbers.as_slice();
    for number in numbers {
        if flag_stands(&tables.symbols, *number) {
            flags.push(*number)?;
        }
    }
    Ok(flags)
}

/// The number of an event flag among all, from 1 on.
pub(crate) fn flag_number(flags: &[usize], declaration: usize) -> Option<usize>
    requires { IsStrictlyIncreasing flags.now }
    ensures { result ≡ option_map suc (position (nat_eq declaration) flags.now) }
{
    match flags.binary_search(&declaration) {
        Ok(index) => Some(index + 1),
        Err(_) => None,
    }
}
