//! The text that is measured: a program of declarations, clauses, state sets and functions, each
//! with names of its own. In: a template. Out: the text.

use snl_cut::OutOfMemory;
use std::alloc::Global;

// How many sections are made of a template.
const SECTIONS: usize = 2;

// Adds a number below 1000 in three digits.
fn add_number(text: &mut Vec<u8>, number: usize) -> Result<(), OutOfMemory> {
    let digits = b"0123456789";
    text.push(digits[number / 100 % 10])?;
    text.push(digits[number / 10 % 10])?;
    text.push(digits[number % 10])?;
    Ok(())
}

fn add_section(text: &mut Vec<u8>, part: &[u8], number: usize) -> Result<(), OutOfMemory> {
    for byte in part {
        match *byte {
            b'@' => add_number(text, number)?,
            byte => text.push(byte)?,
        }
    }
    Ok(())
}

/// A text of a few sections. The template is a header, the declarations of a section and its state
/// set, with a `$` between them; `@` stands for the number of the section. A text without `$` and
/// `@` is measured as it is.
pub fn text_of(alloc: Global, template: &[u8]) -> Result<Vec<u8>, OutOfMemory> {
    let mut parts = template.split(|byte| *byte == b'$');
    let mut text = Vec::new(alloc);
    add_section(&mut text, parts.next().unwrap_or(&[]), 0)?;
    for part in parts {
        for number in 0..SECTIONS {
            add_section(&mut text, part, number)?;
        }
    }
    Ok(text)
}
