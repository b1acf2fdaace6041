//! The program: the script comes on standard input, the answers go to standard output.
//! The words of the command line name the file of the source, which is read before the script. The
//! program's status is 0 where the last text has no errors, 1 where it has some, and 2 at a fault,
//! which it names on standard error.
#![tactic(auto)]

ghost use Rattle.std.specs.Prelude.{◌≡◌, false, map, option_map, true, IfOk, IsErrOf, OnOk};
ghost use Rattle.std.specs.Prelude.{string_bytes};
ghost use Rattle.snl_words.specs.Source.{source_in, takes_words};
ghost use Rattle.std.specs.Fn.{FnOnceReturnsAt};
ghost use Rattle.snl_cli.specs.Opened.{IsOpened};

use snl_run::{SourceFault, Status, Watched, run_over, status_code};
use snl_words::{WordsFault, source_of};
use std::io::ErrorKind;
use std::process::ExitCode;
use std::{env, fs};
use thiserror::Error;

/// Why the program gives no status of a text. The message is its line on standard error.
#[derive(Clone, Copy, Debug, PartialEq, Eq, Error)]
enum Fault {
    #[error(transparent)]
    Words(#[from] WordsFault),
    #[error(transparent)]
    Source(#[from] SourceFault),
    #[error(transparent)]
    Run(#[from] snl_run::Fault),
}

/// The words of the command line. The command takes none that is no text.
fn words_of(rt: &HostRuntime) -> Result<Vec<String>, WordsFault> {
    let args = env::args(rt).map_err(|error| match error.kind() {
        ErrorKind::OutOfMemory => WordsFault::Memory,
        _ => WordsFault::Usage,
    })?;
    let mut words = Vec::new(rt.alloc());
    for word in args {
        words.push(word).map_err(|_| WordsFault::Memory)?;
    }
    Ok(words)
}

/// The path that the words name, if they name one.
fn path_in(rt: &HostRuntime, words: &[String]) -> Result<Option<String>, WordsFault>
    ensures ok { IfOk result (λ path. option_map (λ s. string_bytes s) path ≡ source_in (map (λ w. string_bytes w) words.now)) }
    ensures taken { OnOk result (takes_words (map (λ w. string_bytes w) words.now) ≡ true) }
    ensures usage { IsErrOf result WordsFault.Usage → takes_words (map (λ w. string_bytes w) words.now) ≡ false }
{
    let mut texts = Vec::new(rt.alloc());
    for word in words {
        texts.push(word.as_str()).map_err(|_| WordsFault::Memory)?;
    }
    source_of(rt.alloc(), &texts)
}

/// What opening gives at the path; no file, where there is no path.
fn opened<F, O: FnOnce(&str) -> Result<F, SourceFault>>(
    path: &Option<String>,
    opener: O,
) -> Result<Option<F>, SourceFault>
    requires { O.IsAlwaysCallable opener }
    ensures { IsOpened (FnOnceReturnsAt O.FnOnce opener)
        (option_map (λ s. string_bytes s) path.now) result }
{
    match path {
        Some(path) => opener(path.as_str()).map(Some),
        None => Ok(None),
    }
}

/// Reads the words, opens the file that they name, and runs the script over its text.
fn serve(rt: &HostRuntime) -> Result<Status, Fault> {
    let words = words_of(rt)?;
    let path = path_in(rt, &words)?;
    let file = opened(&path, |path| {
        fs::open(rt, path).map_err(|_| SourceFault::Unreadable)
    })?;
    let mut script = Watched::new(rt.stdin());
    let mut out = Watched::new(rt.stdout());
    let status = run_over(rt.alloc(), file, &mut script, &mut out)?;
    Ok(status)
}

fn main(rt: HostRuntime) -> ExitCode {
    let end = serve(&rt);
    if let Err(fault) = &end {
        let _ = eprintln!(rt; "snl_cli: {fault}");
    }
    ExitCode::from(status_code(&end))
}
