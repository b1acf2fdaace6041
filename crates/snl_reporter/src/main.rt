//! The program behind the reports of `./check`: texts come on standard input, each after a heading
//! line, and what is found in them goes to standard output, each before the next text is read, in
//! the form that the program's first word names. The status is 0
//! where no text has errors, 1 where one has some, and 2 at a fault, which the program names on
//! standard error.
#![tactic(auto)]

mod faults;
mod front;
mod heading;
mod run;

use faults::{Fault, Status, status_code};
use run::report_all;
use snl_report::{Form, Paint, Style};
use snl_script::Watched;
use std::env;
use std::io::ErrorKind;
use std::process::ExitCode;

/// The word before which a report has colours.
const COLOR: &[u8] = b"color";

/// The form that a word asks for.
fn form_of(word: &[u8]) -> Option<Form> {
    match word {
        b"report" => Some(Form::Report),
        b"json" => Some(Form::Json),
        b"github" => Some(Form::Github),
        b"sarif" => Some(Form::Sarif),
        _ => None,
    }
}

/// How findings are to be written, by the words after the name of the program: a form, and `color`
/// after that of a report.
fn style_of(form: Option<Form>, color: Option<&[u8]>) -> Option<Style> {
    let form = form?;
    match color {
        None => Some(Style {
            form,
            paint: Paint::Plain,
        }),
        Some(word) if word == COLOR && form == Form::Report => Some(Style {
            form,
            paint: Paint::Colored,
        }),
        Some(_) => None,
    }
}

/// Reads the words. The first of the list is the name of the program.
fn read_words(rt: &HostRuntime) -> Result<Style, Fault> {
    let words = env::args(rt).map_err(|error| match error.kind() {
        ErrorKind::OutOfMemory => Fault::Memory,
        _ => Fault::Usage,
    })?;
    let mut words = words.skip(1);
    let first = words.next().ok_or(Fault::Usage)?;
    let second = words.next();
    if words.next().is_some() {
        return Err(Fault::Usage);
    }
    let color = match &second {
        Some(word) => Some(word.as_bytes()),
        None => None,
    };
    style_of(form_of(first.as_bytes()), color).ok_or(Fault::Usage)
}

fn serve(rt: &HostRuntime) -> Result<Status, Fault> {
    let style = read_words(rt)?;
    let mut input = Watched::new(rt.stdin());
    let mut out = Watched::new(rt.stdout());
    report_all(rt.alloc(), style, &mut input, &mut out)
}

fn main(rt: HostRuntime) -> ExitCode {
    let end = serve(&rt);
    if let Err(fault) = &end {
        let _ = eprintln!(rt; "snl_reporter: {fault}");
    }
    ExitCode::from(status_code(&end))
}
