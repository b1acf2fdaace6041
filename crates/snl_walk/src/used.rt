//! What an item says to others: its occurrences come in, those go out that use names, lead to
//! states or can wake a state.

ghost use Rattle.std.specs.Prelude.{◌≡◌, IfOk};
ghost use Rattle.snl_walk.specs.Tokens.{IsSource, bytes_in};
ghost use Rattle.snl_walk.specs.Uses.{is_call, is_target, is_use, leads_on, subscript_at, target_uses, targets, uses, wake_use, wake_uses, waking};

use crate::occurrence::{Follows, Manner, Occurrence, What};
use crate::source::Source;
use snl_cut::OutOfMemory;
use snl_lex::int_value;
use std::alloc::Global;

/// A use of a name in a condition, by the name's token, with its subscript where that is an integer
/// alone.
#[derive(Clone, Copy, Debug, PartialEq, Eq)]
pub struct WakeUse {
    pub token: usize,
    pub subscript: Option<u64>,
}

/// The name of a state that an item leads to, by its token, and whether a statement `state NAME;`
/// names it, else the end of a transition.
#[derive(Clone, Copy, Debug, PartialEq, Eq)]
pub struct TargetUse {
    pub token: usize,
    pub by_statement: bool,
}

/// Whether a call follows.
pub(crate) fn is_call(follows: Follows) -> bool
    ensures { result ≡ is_call follows }
{
    matches!(follows, Follows::Call)
}

/// Whether it is a use of a name.
pub(crate) fn is_use(what: What) -> bool
    ensures { result ≡ is_use what }
{
    match what {
        What::Name(manner) => !is_call(manner.follows),
        _ => false,
    }
}

/// The tokens of the uses of names.
pub fn uses(alloc: Global, found: &[Occurrence]) -> Result<Vec<usize>, OutOfMemory>
    ensures { IfOk result (λ v. v.items ≡ uses found.now) }
{
    let mut tokens = Vec::new(alloc);
    for occurrence in found {
        if is_use(occurrence.what) {
            tokens.push(occurrence.token)?;
        }
    }
    Ok(tokens)
}

fn is_target(what: What) -> bool
    ensures { result ≡ is_target what }
{
    matches!(what, What::Target)
}

/// The tokens of the names of states that the item leads to.
pub fn targets(alloc: Global, found: &[Occurrence]) -> Result<Vec<usize>, OutOfMemory>
    ensures { IfOk result (λ v. v.items ≡ targets found.now) }
{
    let mut tokens = Vec::new(alloc);
    for occurrence in found {
        if is_target(occurrence.what) {
            tokens.push(occurrence.token)?;
        }
    }
    Ok(tokens)
}

// Whether it is the word of `state NAME;` in the block of a transition.
fn leads_on(what: What) -> bool
    ensures { result ≡ leads_on what }
{
    match what {
        What::Change { in_transition } => in_transition,
        _ => false,
    }
}

/// The names of states that the item leads to, in the order of the text.
pub fn target_uses(alloc: Global, found: &[Occurrence]) -> Result<Vec<TargetUse>, OutOfMemory>
    ensures { IfOk result (λ v. v.items ≡ target_uses found.now) }
{
    let mut uses = Vec::new(alloc);
    let mut by_statement = false;
    for occurrence in found {
        if is_target(occurrence.what) {
            uses.push(TargetUse {
                token: occurrence.token,
                by_statement,
            })?;
        }
        by_statement = leads_on(occurrence.what);
    }
    Ok(uses)
}

// The subscript of a use, where it is an integer alone: the second token after the name.
fn subscript_at(source: &Source, token: usize, follows: Follows) -> Option<u64>
    requires { IsSource source.now.text.now source.now.tokens.now }
    ensures { result ≡ subscript_at (bytes_in source.now) token follows }
{
    match follows {
        Follows::Index => int_value(source.bytes_after(token, 2)),
        _ => None,
    }
}

fn wake_use(source: &Source, token: usize, manner: Manner) -> WakeUse
    requires { IsSource source.now.text.now source.now.tokens.now }
    ensures { result ≡ wake_use (bytes_in source.now) token manner }
{
    WakeUse {
        token,
        subscript: subscript_at(source, token, manner.follows),
    }
}

// The use that an occurrence is, if it is in a condition.
fn waking(source: &Source, token: usize, what: What) -> Option<WakeUse>
    requires { IsSource source.now.text.now source.now.tokens.now }
    ensures { result ≡ waking (bytes_in source.now) token what }
{
    match what {
        What::Name(manner) => {
            if manner.in_condition && !is_call(manner.follows) {
                Some(wake_use(source, token, manner))
            } else {
                None
            }
        }
        _ => None,
    }
}

/// The uses in the conditions of a state, in the order of the text: what can wake it.
pub fn wake_uses(source: &Source, found: &[Occurrence]) -> Result<Vec<WakeUse>, OutOfMemory>
    requires { IsSource source.now.text.now source.now.tokens.now }
    ensures { IfOk result (λ v. v.items ≡ wake_uses (bytes_in source.now) found.now) }
{
    let mut uses = Vec::new(source.alloc);
    for occurrence in found {
        if let Some(used) = waking(source, occurrence.token, occurrence.what) {
            uses.push(used)?;
        }
    }
    Ok(uses)
}
