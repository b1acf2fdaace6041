//! Occurrences as words.

ghost use Rattle.std.specs.Prelude.{All};
ghost use Rattle.snl_lex.specs.Pieces.{LiesIn};

use snl_walk::{ArgumentRole, Follows, Local, Manner, Occurrence, Source, What};
use std::test::Fail;

fn follows_letter(follows: Follows) -> u8 {
    match follows {
        Follows::Nothing => b'n',
        Follows::Call => b'c',
        Follows::Index => b'i',
        Follows::Subscript => b's',
        Follows::Other => b'o',
    }
}

// How a name occurs: what follows it, its role as an argument, and a question mark in a condition.
fn add_manner(words: &mut Vec<u8>, manner: Manner) -> Result<(), Fail> {
    words.push(follows_letter(manner.follows))?;
    match manner.role {
        ArgumentRole::Any => {}
        ArgumentRole::EventFlag => words.push(b'f')?,
        ArgumentRole::Channel => words.push(b'v')?,
    }
    if manner.in_condition {
        words.push(b'?')?;
    }
    Ok(())
}

// A letter for what is at a token; a capital, where a rule finds fault with it.
fn add_what(words: &mut Vec<u8>, what: What) -> Result<(), Fail> {
    let letter = match what {
        What::Name(manner) => return add_manner(words, manner),
        What::Declaration { is_wrong } => if is_wrong { b'D' } else { b'd' },
        What::Jump { in_loop } => if in_loop { b'j' } else { b'J' },
        What::Change { in_transition } => if in_transition { b's' } else { b'S' },
        What::Target => b't',
    };
    Ok(words.push(letter)?)
}

// The token of a declaration, and what its name passes for.
fn add_local(source: &Source, words: &mut Vec<u8>, local: Local) -> Result<(), Fail> {
    let token = local.token;
    words.extend_from_slice(format!(in source.alloc; "={token}")?.as_bytes())?;
    if local.flag {
        words.push(b'f')?;
    }
    if local.channel {
        words.push(b'v')?;
    }
    Ok(())
}

fn add_occurrence(source: &Source, words: &mut Vec<u8>, one: Occurrence) -> Result<(), Fail>
    requires { All (LiesIn source.now.text.now) source.now.tokens.now }
{
    words.extend_from_slice(source.bytes(one.token))?;
    words.push(b':')?;
    add_what(words, one.what)?;
    if let Some(local) = one.means {
        add_local(source, words, local)?;
    }
    Ok(words.push(b' ')?)
}

/// Adds each occurrence: its token, what is there, and the declaration that the name resolves to.
pub fn add_occurrences(
    source: &Source,
    words: &mut Vec<u8>,
    found: &[Occurrence],
) -> Result<(), Fail>
    requires { All (LiesIn source.now.text.now) source.now.tokens.now }
{
    for one in found {
        add_occurrence(source, words, *one)?;
    }
    Ok(())
}
