//! Colours of a report on a terminal, by the sequences of ECMA-48 that select them.

ghost use Rattle.std.specs.Prelude.{◌≡◌, ◌++◌, OnOk};
ghost use Rattle.snl_report.specs.Paints.{off, on, part_of, sequence};

use snl_codes::Code;
use std::alloc::AllocError;

/// Whether a report has colours. Without them it has no byte that a terminal takes for a command.
#[derive(Clone, Copy, Debug, PartialEq, Eq)]
pub enum Paint {
    Plain,
    Colored,
}

/// The parts of a report that have colours of their own.
#[derive(Clone, Copy, Debug, PartialEq, Eq)]
pub enum Part {
    Place,
    Error,
    Warning,
    Note,
    Marks,
}

/// That of a code: an error or a warning.
pub fn part_of(code: Code) -> Part
    ensures { result ≡ part_of code }
{
    if code.is_error() {
        Part::Error
    } else {
        Part::Warning
    }
}

fn sequence(part: Part) -> &'static [u8]
    ensures { result.now ≡ sequence part }
{
    match part {
        Part::Place => b"\x1b[1m",
        Part::Error => b"\x1b[1;31m",
        Part::Warning => b"\x1b[1;35m",
        Part::Note => b"\x1b[1;36m",
        Part::Marks => b"\x1b[1;32m",
    }
}

/// Begins a part.
#[tactic(auto, unfolding(crate::specs::Paints::on))]
pub fn put_on(out: &mut Vec<u8>, paint: Paint, part: Part) -> Result<(), AllocError>
    ensures { OnOk result (out.new.items ≡ out.old.items ++ on paint part) }
{
    match paint {
        Paint::Plain => Ok(()),
        Paint::Colored => out.extend_from_slice(sequence(part)),
    }
}

/// Ends a part.
#[tactic(auto, unfolding(crate::specs::Paints::off))]
pub fn put_off(out: &mut Vec<u8>, paint: Paint) -> Result<(), AllocError>
    ensures { OnOk result (out.new.items ≡ out.old.items ++ off paint) }
{
    match paint {
        Paint::Plain => Ok(()),
        Paint::Colored => out.extend_from_slice(b"\x1b[0m"),
    }
}
