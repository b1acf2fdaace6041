//! The rules on what is inside an item: its occurrences come in, what is found wrong at them goes
//! out, in the order of the text.

ghost use Rattle.std.specs.Prelude.{◌≡◌, ◌++◌, IfOk, OnOk, map};
ghost use Rattle.std.specs.List.{flat_map};
ghost use Rattle.snl_codes.specs.declared.code.Code.{Code};
ghost use Rattle.snl_walk.specs.Passing.{lacks_channel, lacks_flag, passes};
ghost use Rattle.snl_walk.specs.Rules.{finding, findings, found_wrong, is_nothing, is_repeated, rules_at, rules_at_call, rules_at_name, rules_at_use, wants_channel, wants_flag, when};
ghost use Rattle.snl_walk.specs.Tokens.{IsSource, bytes_in};

use crate::occurrence::{ArgumentRole, Follows, Local, Manner, Occurrence, What};
use crate::other_items::{OtherItems, Outer};
use crate::source::Source;
use crate::undeclared::undeclared;
use crate::used::is_call;
use snl_codes::Code;
use snl_cut::OutOfMemory;
use snl_facts::are_same_bytes;

/// What is found at a token of an item (docs/LANGUAGE.md).
#[derive(Clone, Copy, Debug, PartialEq, Eq)]
pub struct Finding {
    pub token: usize,
    pub code: Code,
}

fn is_repeated(token: usize, means: Option<Local>) -> bool
    ensures { result ≡ is_repeated token means }
{
    match means {
        Some(first) => first.token != token,
        None => false,
    }
}

fn is_nothing(follows: Follows) -> bool
    ensures { result ≡ is_nothing follows }
{
    matches!(follows, Follows::Nothing)
}

fn wants_flag(role: ArgumentRole) -> bool
    ensures { result ≡ wants_flag role }
{
    matches!(role, ArgumentRole::EventFlag)
}

fn wants_channel(role: ArgumentRole) -> bool
    ensures { result ≡ wants_channel role }
{
    matches!(role, ArgumentRole::Channel)
}

/// What a name passes for, which may resolve to a declaration in the item.
pub(crate) fn passes<O: OtherItems>(others: &O, name: &[u8], means: Option<Local>) -> Option<Outer>
    ensures { result ≡ passes (O.outer_of others.now) name.now means }
{
    match means {
        Some(local) => Some(Outer {
            flag: local.flag,
            channel: local.channel,
        }),
        None => others.outer(name),
    }
}

fn lacks_flag(passes: Option<Outer>) -> bool
    ensures { result ≡ lacks_flag passes }
{
    match passes {
        Some(outer) => !outer.flag,
        None => false,
    }
}

fn lacks_channel(passes: Option<Outer>) -> bool
    ensures { result ≡ lacks_channel passes }
{
    match passes {
        Some(outer) => !outer.channel,
        None => false,
    }
}

// Adds a finding at a token, where there is one.
fn add_when(
    holds: bool,
    token: usize,
    code: Code,
    findings: &mut Vec<Finding>,
) -> Result<(), OutOfMemory>
    ensures { OnOk result (findings.new.items ≡ findings.old.items
        ++ map (finding token) (when holds code)) }
{
    if holds {
        findings.push(Finding { token, code })?;
    }
    Ok(())
}

// Adds what is found wrong at a name that is called.
fn add_at_call(
    token: usize,
    name: &[u8],
    manner: Manner,
    findings: &mut Vec<Finding>,
) -> Result<(), OutOfMemory>
    ensures { OnOk result (findings.new.items ≡ findings.old.items
        ++ map (finding token) (rules_at_call name.now manner)) }
{
    let delays = !manner.in_condition && are_same_bytes(name, b"delay");
    add_when(delays, token, Code::W03, findings)
}

// Adds what is found wrong at a name that is used, and passes for something or is declared by
// nothing.
fn add_at_use(
    token: usize,
    passes: Option<Outer>,
    manner: Manner,
    findings: &mut Vec<Finding>,
) -> Result<(), OutOfMemory>
    ensures { OnOk result (findings.new.items ≡ findings.old.items
        ++ map (finding token) (rules_at_use passes manner)) }
{
    let no_flag = wants_flag(manner.role) && is_nothing(manner.follows) && lacks_flag(passes);
    let no_channel = wants_channel(manner.role) && lacks_channel(passes);
    add_when(no_flag, token, Code::E20, findings)?;
    add_when(no_channel, token, Code::E21, findings)
}

// Adds what is found wrong at a name in an expression.
fn add_at_name(
    token: usize,
    name: &[u8],
    passes: Option<Outer>,
    manner: Manner,
    findings: &mut Vec<Finding>,
) -> Result<(), OutOfMemory>
    ensures { OnOk result (findings.new.items ≡ findings.old.items
        ++ map (finding token) (rules_at_name name.now passes manner)) }
{
    if is_call(manner.follows) {
        add_at_call(token, name, manner, findings)
    } else {
        add_at_use(token, passes, manner, findings)
    }
}

// Adds what is found wrong at an occurrence, where this is at its token.
fn add_at<O: OtherItems>(
    others: &O,
    name: &[u8],
    occurrence: Occurrence,
    findings: &mut Vec<Finding>,
) -> Result<(), OutOfMemory>
    ensures { OnOk result (findings.new.items ≡ findings.old.items
        ++ map (finding occurrence.token)
        (rules_at (O.outer_of others.now) (O.misses others.now) name.now occurrence
        occurrence.what)) }
{
    let token = occurrence.token;
    match occurrence.what {
        What::Declaration { is_wrong } => {
            let is_repeated = is_repeated(token, occurrence.means);
            add_when(is_repeated, token, Code::E07, findings)?;
            add_when(is_wrong, token, Code::E17, findings)
        }
        What::Change { in_transition } => { add_when(!in_transition, token, Code::E18, findings) }
        What::Jump { in_loop } => add_when(!in_loop, token, Code::E19, findings),
        What::Target => {
            let is_missing = others.misses_state(name);
            add_when(is_missing, token, Code::E10, findings)
        }
        What::Name(manner) => {
            let passes = passes(others, name, occurrence.means);
            add_at_name(token, name, passes, manner, findings)
        }
    }
}

// Adds what is found wrong at each occurrence by itself.
fn add_each<O: OtherItems>(
    source: &Source,
    others: &O,
    found: &[Occurrence],
    findings: &mut Vec<Finding>,
) -> Result<(), OutOfMemory>
    requires { IsSource source.now.text.now source.now.tokens.now }
    ensures { OnOk result (findings.new.items ≡ findings.old.items
        ++ flat_map (found_wrong (bytes_in source.now) (O.outer_of others.now) (O.misses others.now))
        found.now) }
{
    for occurrence in found {
        let name = source.bytes(occurrence.token);
        add_at(others, name, *occurrence, findings)?;
    }
    Ok(())
}

fn add_undeclared(tokens: &[usize], findings: &mut Vec<Finding>) -> Result<(), OutOfMemory>
    ensures { OnOk result (findings.new.items ≡ findings.old.items
        ++ map (λ n. finding n Code.W01) tokens.now) }
{
    for token in tokens {
        findings.push(Finding {
            token: *token,
            code: Code::W01,
        })?;
    }
    Ok(())
}

/// What is found wrong at the occurrences of an item, where the other items say this of its names:
/// what is wrong at each by itself, in the order of the text, and then the first use of each name
/// that nothing declares.
#[tactic(auto, unfolding(crate::specs::Rules::findings))]
pub fn findings<O: OtherItems>(
    source: &Source,
    others: &O,
    found: &[Occurrence],
) -> Result<Vec<Finding>, OutOfMemory>
    requires { IsSource source.now.text.now source.now.tokens.now }
    ensures { IfOk result (λ v. v.items
        ≡ findings (bytes_in source.now) (O.outer_of others.now) (O.misses others.now) found.now) }
{
    let mut findings = Vec::new(source.alloc);
    add_each(source, others, found, &mut findings)?;
    add_undeclared(&undeclared(source, others, found)?, &mut findings)?;
    Ok(findings)
}
