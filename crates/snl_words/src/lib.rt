//! The words of the command line.
//!
//! In: the words, the first being the program's name. Out: the file that `--source` names, if it is
//! there. The crate knows nothing of files and of what the program does with one.
#![tactic(auto)]

ghost use Rattle.std.specs.Prelude.{◌≡◌, ◌≢◌, false, map, option_map, true, string_bytes};
ghost use Rattle.std.specs.Prelude.{IfOk, IsErrOf, OnOk};
ghost use Rattle.clap.specs.Words.{app_of};
ghost use Rattle.snl_words.specs.Source.{source_app, source_in, takes_words};
ghost use Rattle.snl_words.specs.declared.WordsFault.TheVariants.{Memory};

use clap::error::ErrorKind;
use clap::{Arg, Command};
use std::alloc::{AllocError, Global};
use thiserror::Error;

/// Why the words name no source and don't leave it out either.
#[derive(Clone, Copy, Debug, PartialEq, Eq, Error)]
pub enum WordsFault {
    /// The command doesn't take these words: a word is unknown, the value is missing, there are
    /// two, or help is asked for.
    #[error("usage: snl_cli [--source FILE]")]
    Usage,
    /// A growth was refused.
    #[error("out of memory")]
    Memory,
}

impl From<AllocError> for WordsFault {
    ghost from_gives = { λ _ fault. fault ≡ Memory };

    fn from(_error: AllocError) -> WordsFault {
        WordsFault::Memory
    }
}

/// The fault of words that were refused for this.
fn fault_of(kind: ErrorKind) -> WordsFault
    ensures { result ≡ WordsFault.Usage → kind ≢ ErrorKind.OutOfMemory }
{
    match kind {
        ErrorKind::OutOfMemory => WordsFault::Memory,
        _ => WordsFault::Usage,
    }
}

/// The command, which has one option.
fn source_command<'a>(alloc: Global) -> Result<Command<'a>, AllocError>
    ensures { IfOk result (λ command. app_of command ≡ source_app) }
{
    let source = Arg::new(alloc, "source").long("source");
    Command::new(alloc, "snl_cli").arg(source)
}

/// The value of `--source` among these words; none, where it isn't there.
pub fn source_of(alloc: Global, words: &[&str]) -> Result<Option<String>, WordsFault>
    ensures ok { IfOk result (λ source. option_map (λ s. string_bytes s) source
        ≡ source_in (map (λ w. w.now) words.now)) }
    ensures taken { OnOk result (takes_words (map (λ w. w.now) words.now) ≡ true) }
    ensures usage { IsErrOf result WordsFault.Usage → takes_words (map (λ w. w.now) words.now) ≡ false }
{
    let command = source_command(alloc)?;
    let matches = match command.try_get_matches_from(words) {
        Ok(matches) => matches,
        Err(error) => {
            return Err(fault_of(error.kind()));
        }
    };
    match matches.get_str("source") {
        Some(text) => {
            let text = String::from_str(alloc, text)?;
            Ok(Some(text))
        }
        None => Ok(None),
    }
}
