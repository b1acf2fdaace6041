//! What the links of a text are asked, and their answers as words.

use crate::reading::links;
use crate::words::{add_coverage, add_digit, add_number, add_option, add_variable, clause_letter};
use snl_codes::Code;
use snl_scope::{Assigned, Declaration, Fact, Level, Links, NameKind, Scope};
use std::alloc::Global;
use std::process::Abort;
use std::test::Fail;

/// A question about items, declarations and clauses, which are told by their numbers.
#[derive(Clone, Copy, Debug)]
pub enum Question {
    /// All findings: each code, with the last digits of its item and its token.
    Faults,
    /// The findings at clauses alone.
    ClauseFaults,
    /// Each clause: its item, what its variable and its flag resolve to, and whether it is sound.
    Clauses,
    /// Each clause: the token of its variable in its item, its kind, and what it covers.
    Coverages,
    /// The declarations of the event flags.
    Flags,
    /// The number of a declaration among the event flags.
    FlagNumber(usize),
    /// The state set in which an item is.
    EnclosingSet(usize),
    /// Whether an item begins a state set.
    BeginsSet(usize),
    /// Whether an item begins as a state does, and has a name.
    NamedState(usize),
    /// In which scope an item finds a name.
    Level(usize, &'static [u8]),
    /// What a name stands for in an item.
    Kind(usize, &'static [u8]),
    /// To what a name is assigned, as an item sees it.
    Assigned(usize, &'static [u8]),
    /// Whether the state set of an item has a state of the name.
    Target(usize, &'static [u8]),
    /// The declaration that a name means in an item.
    Meaning(usize, &'static [u8]),
    /// The scope of a declaration, its item and token, and what it says of its name.
    Declared(usize),
    /// Whether a declaration, or an element of it, is monitored.
    Monitored(usize, Option<u64>),
    /// The clause that syncs a declaration, or an element of it.
    Sync(usize, Option<u64>),
}

// Whether it is found at clauses alone.
fn is_of_clauses(code: Code) -> bool {
    match code {
        Code::E11 | Code::E12 | Code::E13 | Code::E14 | Code::E15 | Code::E16 => true,
        Code::E22 | Code::W05 => true,
        _ => false,
    }
}

fn add_faults(links: &Links, of_clauses: bool, words: &mut Vec<u8>) -> Result<(), Fail> {
    for fault in links.faults() {
        if !of_clauses || is_of_clauses(fault.code) {
            words.extend_from_slice(fault.code.name().as_bytes())?;
            words.push(b'@')?;
            add_digit(words, fault.item)?;
            words.push(b'.')?;
            add_digit(words, fault.token)?;
            words.push(b' ')?;
        }
    }
    Ok(())
}

fn add_clauses(links: &Links, words: &mut Vec<u8>) -> Result<(), Fail> {
    for clause in links.clauses() {
        add_digit(words, clause.item)?;
        add_option(words, clause.variable)?;
        add_option(words, clause.flag)?;
        words.extend_from_slice(if clause.is_sound { b"+ " } else { b"! " })?;
    }
    Ok(())
}

fn add_coverages(alloc: Global, links: &Links, words: &mut Vec<u8>) -> Result<(), Fail> {
    for clause in links.clauses() {
        add_number(alloc, Some(clause.token), words)?;
        words.push(clause_letter(clause.kind))?;
        add_coverage(clause.coverage, words)?;
        words.push(b' ')?;
    }
    Ok(())
}

fn add_flags(alloc: Global, links: &Links, words: &mut Vec<u8>) -> Result<(), Fail> {
    for declaration in links.flags() {
        add_number(alloc, Some(*declaration), words)?;
        words.push(b' ')?;
    }
    Ok(())
}

fn level_word(fact: Option<Fact>) -> &'static [u8] {
    match fact {
        Some(fact) => match fact.level {
            Level::Program => b"program",
            Level::StateSet => b"state set",
        },
        None => b"-",
    }
}

fn kind_word(fact: Option<Fact>) -> &'static [u8] {
    match fact {
        Some(fact) => match fact.kind {
            NameKind::EventFlag => b"event flag",
            NameKind::Foreign => b"foreign",
            NameKind::Function => b"function",
            NameKind::Other => b"other",
        },
        None => b"-",
    }
}

fn assigned_word(fact: Option<Fact>) -> &'static [u8] {
    match fact {
        Some(fact) => match fact.assigned {
            Assigned::Unassigned => b"unassigned",
            Assigned::Whole => b"whole",
            Assigned::Elements => b"elements",
        },
        None => b"-",
    }
}

fn truth_word(holds: bool) -> &'static [u8] {
    if holds { b"yes" } else { b"no" }
}

fn add_scope(alloc: Global, scope: Scope, words: &mut Vec<u8>) -> Result<(), Fail> {
    match scope {
        Scope::Program => Ok(words.extend_from_slice(b"program")?),
        Scope::StateSet(item) => {
            words.extend_from_slice(b"state set ")?;
            add_number(alloc, Some(item), words)
        }
        Scope::State(item) => {
            words.extend_from_slice(b"state ")?;
            add_number(alloc, Some(item), words)
        }
    }
}

fn add_declared(
    alloc: Global,
    declared: Option<Declaration>,
    words: &mut Vec<u8>,
) -> Result<(), Fail> {
    let Some(declaration) = declared else {
        return Ok(words.push(b'-')?);
    };
    add_scope(alloc, declaration.scope, words)?;
    words.extend_from_slice(b" at ")?;
    add_number(alloc, Some(declaration.item), words)?;
    words.push(b'.')?;
    add_number(alloc, Some(declaration.token), words)?;
    words.push(b' ')?;
    add_variable(declaration.variable, words)
}

fn add_word_told(links: &Links, question: Question, words: &mut Vec<u8>) -> Result<(), Fail> {
    words.extend_from_slice(match question {
        Question::Level(item, name) => level_word(links.fact(item, name)),
        Question::Kind(item, name) => kind_word(links.fact(item, name)),
        Question::Assigned(item, name) => assigned_word(links.fact(item, name)),
        Question::Target(item, name) => truth_word(links.has_target(item, name)),
        Question::BeginsSet(item) => truth_word(links.begins_set(item)),
        Question::NamedState(item) => truth_word(links.is_named_state(item)),
        Question::Monitored(number, element) => truth_word(links.is_monitored(number, element)),
        _ => b"",
    })?;
    Ok(())
}

fn number_told(links: &Links, question: Question) -> Option<usize> {
    match question {
        Question::EnclosingSet(item) => links.enclosing_set(item),
        Question::FlagNumber(declaration) => links.flag_number(declaration),
        Question::Meaning(item, name) => links.declaration(item, name),
        Question::Sync(declaration, element) => links.sync_number(declaration, element),
        _ => None,
    }
}

fn answer(alloc: Global, links: &Links, question: Question) -> Result<Vec<u8>, Fail> {
    let mut words = Vec::new(alloc);
    match question {
        Question::Faults => add_faults(links, false, &mut words)?,
        Question::ClauseFaults => add_faults(links, true, &mut words)?,
        Question::Clauses => add_clauses(links, &mut words)?,
        Question::Coverages => add_coverages(alloc, links, &mut words)?,
        Question::Flags => add_flags(alloc, links, &mut words)?,
        Question::Declared(number) => add_declared(alloc, links.declared(number), &mut words)?,
        Question::EnclosingSet(_)
        | Question::FlagNumber(_)
        | Question::Meaning(..)
        | Question::Sync(..) => {
            add_number(alloc, number_told(links, question), &mut words)?;
        }
        _ => add_word_told(links, question, &mut words)?,
    }
    Ok(words)
}

fn told(alloc: Global, text: &[u8], question: Question) -> Result<Vec<u8>, Fail> {
    let links = links(alloc, text)?;
    answer(alloc, &links, question)
}

/// A question, and what is answered.
pub type Row = (Question, &'static [u8]);

fn expect_answer(rt: &impl Abort, alloc: Global, text: &[u8], row: &Row) -> Result<(), Fail> {
    let (question, wanted) = row;
    let words = told(alloc, text, *question)?;
    assert!(rt;
        words.as_slice() == *wanted,
        "{question:?} of {text:?}: {words:?}"
    );
    Ok(())
}

/// Asks the links of a text each question.
pub fn expect_answers(
    rt: &impl Abort,
    alloc: Global,
    text: &[u8],
    rows: &[Row],
) -> Result<(), Fail> {
    for row in rows {
        expect_answer(rt, alloc, text, row)?;
    }
    Ok(())
}
