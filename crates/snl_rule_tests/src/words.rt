//! What the tests share to write answers as words.

use snl_scope::{ClauseKind, Coverage, Dims, SymbolKind, Variable};
use std::alloc::Global;
use std::test::Fail;

/// Adds the last digit of a number.
pub fn add_digit(words: &mut Vec<u8>, number: usize) -> Result<(), Fail> {
    words.push(b'0' + (number % 10) as u8)?;
    Ok(())
}

/// Adds the last digit of a number, or a hyphen for none.
pub fn add_option(words: &mut Vec<u8>, number: Option<usize>) -> Result<(), Fail> {
    match number {
        Some(number) => add_digit(words, number),
        None => Ok(words.push(b'-')?),
    }
}

/// Adds a number, or a hyphen for none.
pub fn add_number(alloc: Global, number: Option<usize>, words: &mut Vec<u8>) -> Result<(), Fail> {
    match number {
        Some(number) => Ok(words.extend_from_slice(format!(in alloc; "{number}")?.as_bytes())?),
        None => Ok(words.push(b'-')?),
    }
}

/// Adds bytes, and a space after them.
pub fn add_word(words: &mut Vec<u8>, word: &[u8]) -> Result<(), Fail> {
    words.extend_from_slice(word)?;
    words.push(b' ')?;
    Ok(())
}

fn symbol_kind_letter(symbol_kind: SymbolKind) -> u8 {
    match symbol_kind {
        SymbolKind::EventFlag => b'e',
        SymbolKind::Foreign => b'f',
        SymbolKind::Function => b'F',
        SymbolKind::Assignable => b'a',
        SymbolKind::Unassignable => b'u',
    }
}

/// Adds a mark or the last digit for the dims of a variable, and a letter for its nature.
pub fn add_variable(variable: Variable, words: &mut Vec<u8>) -> Result<(), Fail> {
    match variable.dims {
        Dims::Plain => words.push(b'.')?,
        Dims::Known(value) => add_digit(words, (value % 10) as usize)?,
        Dims::Unknown => words.push(b'?')?,
    }
    words.push(symbol_kind_letter(variable.symbol_kind))?;
    Ok(())
}

/// A letter for the kind of a clause.
pub fn clause_letter(kind: ClauseKind) -> u8 {
    match kind {
        ClauseKind::Assign => b'=',
        ClauseKind::Monitor => b'm',
        ClauseKind::Sync => b's',
        ClauseKind::Syncq => b'q',
    }
}

/// Adds what a clause covers: `..` for all, or a sign before the element, or before how many from
/// the first on.
pub fn add_coverage(coverage: Coverage, words: &mut Vec<u8>) -> Result<(), Fail> {
    match coverage {
        Coverage::Whole => Ok(words.extend_from_slice(b"..")?),
        Coverage::Element(value) => {
            words.push(b'@')?;
            add_digit(words, value as usize)
        }
        Coverage::Front(count) => {
            words.push(b'#')?;
            add_digit(words, count)
        }
    }
}
