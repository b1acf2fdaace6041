//! Why no edits are offered, and how that is said.

use itoa::Buffer;
use snl_alike::TablePart;
use snl_codes::Code;
use snl_cut::OutOfMemory;
use std::alloc::Global;

/// Why no edits are offered.
#[derive(Clone, Copy, Debug)]
pub enum Refusal<'a> {
    /// The text is over 1 MiB, or would be.
    Large,
    /// No name that means something is there.
    NoName,
    /// The new name is no name, or one of the language or of C.
    NotFree,
    /// There are more references than are edited at once.
    Many,
    /// `foreign` declares the name.
    Foreign { name: &'a [u8] },
    /// C code or a line of the preprocessor has one of both names.
    Unread { name: &'a [u8], line: usize },
    /// A faulty item has one of both names.
    Faulty { name: &'a [u8], line: usize },
    /// A name would mean another declaration than it does, or one where it means none.
    Meaning { name: &'a [u8], line: usize },
    /// A finding would go.
    Gone { code: Code, line: usize },
    /// A finding would come.
    Come { code: Code, line: usize },
    /// The tables would say something else.
    Table { part: TablePart },
    /// The text would be cut in another way.
    Pieces,
}

fn part_name(part: TablePart) -> &'static [u8] {
    match part {
        TablePart::Program => b"the program",
        TablePart::Options => b"options",
        TablePart::EventFlags => b"event flags",
        TablePart::Channels => b"channels",
        TablePart::StateSets => b"state sets",
    }
}

// Adds words.
fn put(out: &mut Vec<u8>, words: &[&[u8]]) -> Result<(), OutOfMemory> {
    for word in words {
        out.extend_from_slice(word)?;
    }
    Ok(())
}

// Adds what is said of a line, and then the words.
fn put_at_line(out: &mut Vec<u8>, line: usize, words: &[&[u8]]) -> Result<(), OutOfMemory> {
    let mut buffer = Buffer::new();
    put(out, &[b"line ", buffer.format(line).as_bytes(), b": "])?;
    put(out, words)
}

// What is said of the text as a whole.
fn put_whole(out: &mut Vec<u8>, refusal: Refusal<'_>) -> Result<(), OutOfMemory> {
    match refusal {
        Refusal::Large => put(out, &[b"the text is over 1 MiB"]),
        Refusal::NoName => put(out, &[b"no name that is declared here"]),
        Refusal::NotFree => put(out, &[b"the new name is no free name"]),
        Refusal::Many => put(out, &[b"there are over 100,000 references"]),
        Refusal::Foreign { name } => put(out, &[b"C code declares '", name, b"'"]),
        Refusal::Table { part } => put(
            out,
            &[
                b"the table of ",
                part_name(part),
                b" would not stay the same",
            ],
        ),
        _ => put(out, &[b"the text would be cut in another way"]),
    }
}

impl Refusal<'_> {
    /// In words, with the line that is meant, if it is one. Each byte is ASCII.
    pub fn words(self, alloc: Global) -> Result<Vec<u8>, OutOfMemory> {
        let mut out = Vec::new(alloc);
        match self {
            Refusal::Unread { name, line } => {
                put_at_line(
                    &mut out,
                    line,
                    &[b"'", name, b"' is in C code, which is not read"],
                )?
            }
            Refusal::Faulty { name, line } => {
                put_at_line(&mut out, line, &[b"'", name, b"' is in a faulty item"])?
            }
            Refusal::Meaning { name, line } => put_at_line(
                &mut out,
                line,
                &[b"'", name, b"' would mean another declaration"],
            )?,
            Refusal::Gone { code, line } => {
                put_at_line(&mut out, line, &[code.name().as_bytes(), b" would go"])?
            }
            Refusal::Come { code, line } => {
                put_at_line(&mut out, line, &[code.name().as_bytes(), b" would come"])?
            }
            _ => put_whole(&mut out, self)?,
        }
        Ok(out)
    }
}
