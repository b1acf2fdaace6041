//! Which clauses are sound: resolved clauses come in, their links, what is found at them and the
//! claims of the sound ones go out.

ghost use Rattle.std.specs.Prelude.{◌≡◌, ◌&&◌, ◌||◌, ◌++◌, ◌∷◌, [], List, Bool, false, length, not, map, Option, IfOk, OnOk, if◌then◌else◌, option_to_list};
ghost use Rattle.std.specs.Option.{option_map_or};
ghost use Rattle.std.specs.List.{list_any, zip};
ghost use Rattle.snl_scope.specs.Claims.{Claimed, sound_among};
ghost use Rattle.snl_scope.specs.Clauses.{LinkedClause, assigns, at_name_ref, clash, clause_link, code_on, found_after, found_at_flag, has_wrong_flag, is_assign, is_assignable, is_event_flag, misfits, repetition_code, variable_code, with_soundness};
ghost use Rattle.snl_codes.specs.Codes.{is_error};
ghost use Rattle.snl_scope.specs.Names.{entries};
ghost use Rattle.snl_scope.specs.Resolved.{Assigns, linked};
ghost use Rattle.snl_codes.specs.declared.code.Code.{Code};

use crate::by_number::at_number;
use crate::clauses::assigned::is_assign;
use crate::clauses::clause_index::{ClauseIndex, purpose_of};
use crate::clauses::resolved::Resolved;
use crate::facts::{Assigned, ClauseLink, LinkFault};
use crate::names::scopes::Scopes;
use crate::outlines::flat::FlatClause;
use snl_codes::Code;
use snl_cut::OutOfMemory;
use snl_summary::{ClauseKind, Coverage, Dims, SymbolKind, Variable};
use std::alloc::Global;

// Whether a channel can be assigned to it.
fn is_assignable(symbol_kind: SymbolKind) -> bool
    ensures { result ≡ is_assignable symbol_kind }
{
    matches!(symbol_kind, SymbolKind::Assignable)
}

fn is_event_flag(symbol_kind: SymbolKind) -> bool
    ensures { result ≡ is_event_flag symbol_kind }
{
    matches!(symbol_kind, SymbolKind::EventFlag)
}

// Whether a clause covers what the variable does not have.
fn misfits(dims: Dims, coverage: Coverage) -> bool
    ensures { result ≡ misfits dims coverage }
{
    match (dims, coverage) {
        (_, Coverage::Whole) => false,
        (Dims::Plain, _) => true,
        (Dims::Known(length), Coverage::Element(number)) => number >= length,
        (Dims::Known(length), Coverage::Front(count)) => length < count as u64,
        (Dims::Unknown, _) => false,
    }
}

// What a clause gives that overlaps an earlier one.
fn repetition_code(kind: ClauseKind) -> Code
    ensures { result ≡ repetition_code kind }
{
    match kind {
        ClauseKind::Assign => Code::E12,
        ClauseKind::Monitor => Code::W05,
        ClauseKind::Sync | ClauseKind::Syncq => Code::E22,
    }
}

// What a clause gives at a variable that is declared: the first rule that holds.
fn code_on(
    clause: FlatClause,
    variable: Variable,
    is_assigned: bool,
    is_repeated: bool,
) -> Option<Code>
    ensures { result ≡ (if is_assign clause.kind && not (is_assignable variable.symbol_kind)
        then Some Code.E15
        else if misfits variable.dims clause.coverage then Some Code.E16
        else if not (is_assign clause.kind) && not is_assigned then Some Code.E13
        else if is_repeated then Some (repetition_code clause.kind)
        else None) }
{
    let assigns = is_assign(clause.kind);
    if assigns && !is_assignable(variable.symbol_kind) {
        Some(Code::E15)
    } else if misfits(variable.dims, clause.coverage) {
        Some(Code::E16)
    } else if !assigns && !is_assigned {
        Some(Code::E13)
    } else if is_repeated {
        Some(repetition_code(clause.kind))
    } else {
        None
    }
}

// What a clause gives at its variable, by all clauses and the claims of the sound ones before it.
fn variable_code(
    scopes: &Scopes,
    assigned: &[Option<Assigned>],
    claims: &ClauseIndex,
    clause: Resolved,
) -> Option<Code>
    ensures { (cs : List LinkedClause) → (judged : List (LinkedClause × Bool))
        → Assigns assigned.now cs → Claimed claims.now judged
        → result ≡ variable_code (entries scopes.now) cs (sound_among judged) (linked clause.entry) }
{
    let number = match clause.variable {
        Some(number) => number,
        None => return Some(Code::E11),
    };
    match scopes.variable_at(Some(number)) {
        Some(variable) => {
            let is_assigned = at_number(assigned, number).is_some();
            let purpose = purpose_of(clause.clause.kind);
            let is_repeated = claims.overlap(purpose, number, clause.clause.coverage);
            code_on(clause.clause, variable, is_assigned, is_repeated)
        }
        None => Some(Code::E11),
    }
}

// Whether a clause names a flag that resolves to no event flag.
fn has_wrong_flag(scopes: &Scopes, clause: Resolved) -> bool
    ensures { result ≡ has_wrong_flag (entries scopes.now) (linked clause.entry) }
{
    if clause.clause.flag.is_none() {
        return false;
    }
    match scopes.variable_at(clause.flag) {
        Some(variable) => !is_event_flag(variable.symbol_kind),
        None => true,
    }
}

// Adds what is found at the variable of a clause.
fn add_at_variable(
    clause: Resolved,
    code: Option<Code>,
    faults: &mut Vec<LinkFault>,
) -> Result<(), OutOfMemory>
    ensures { OnOk result (faults.new.items ≡ faults.old.items
        ++ map (at_name_ref clause.entry.item (linked clause.entry).clause.variable)
        (option_to_list code)) }
{
    if let Some(code) = code {
        faults.push(LinkFault {
            item: clause.item,
            token: clause.clause.variable.token,
            code,
        })?;
    }
    Ok(())
}

// Adds what is found at the flag of a clause.
fn add_at_flag(
    clause: Resolved,
    is_wrong: bool,
    faults: &mut Vec<LinkFault>,
) -> Result<(), OutOfMemory>
    ensures { OnOk result (faults.new.items ≡ faults.old.items
        ++ (if is_wrong
        then map (λ m. at_name_ref clause.entry.item m Code.E14)
        (option_to_list (linked clause.entry).clause.flag)
        else [])) }
{
    match clause.clause.flag {
        Some(flag) if is_wrong => {
            faults.push(LinkFault {
                item: clause.item,
                token: flag.token,
                code: Code::E14,
            })?;
            Ok(())
        }
        _ => Ok(()),
    }
}

fn is_sound(code: Option<Code>, has_wrong_flag: bool) -> bool
    ensures { result ≡ (not (option_map_or is_error code false) && not has_wrong_flag) }
{
    match code {
        Some(code) => !code.is_error() && !has_wrong_flag,
        None => !has_wrong_flag,
    }
}

// Makes the claims of the clause with a number, if it is sound.
fn make_claims(
    claims: &mut ClauseIndex,
    clause: Resolved,
    number: usize,
    is_sound: bool,
) -> Result<(), OutOfMemory>
    ensures { OnOk result ((judged : List (LinkedClause × Bool))
        → number ≡ length judged → Claimed claims.old judged
        → Claimed claims.new (judged ++ (linked clause.entry, is_sound) ∷ [])) }
{
    if let Some(variable) = clause.variable {
        if is_sound {
            claims.make(
                purpose_of(clause.clause.kind),
                variable,
                clause.clause.coverage,
                number,
            )?;
        }
    }
    Ok(())
}

fn link_of(clause: Resolved, is_sound: bool) -> ClauseLink
    ensures { result ≡ clause_link (linked clause.entry) is_sound }
{
    ClauseLink {
        item: clause.item,
        token: clause.clause.variable.token,
        kind: clause.clause.kind,
        coverage: clause.clause.coverage,
        variable: clause.variable,
        flag: clause.flag,
        is_sound,
    }
}

/// Clauses of which it is known whether they are sound: their links, and the claims of the sound
/// ones, each with the number of the first that makes it.
#[derive(Drop)]
pub(crate) struct JudgedClauses {
    pub links: Vec<ClauseLink>,
    pub claims: ClauseIndex,
}

// Adds the links and the claims of all clauses, and what is found at them.
fn judge_all(
    scopes: &Scopes,
    assigned: &[Option<Assigned>],
    clauses: &[Resolved],
    links: &mut Vec<ClauseLink>,
    claims: &mut ClauseIndex,
    faults: &mut Vec<LinkFault>,
) -> Result<(), OutOfMemory>
    requires assigned { Assigns assigned.now (map linked clauses.now) }
    requires no_links { links.old.items ≡ [] }
    requires no_claims { Claimed claims.old [] }
    ensures links { OnOk result (links.new.items ≡ map (λ p. clause_link p.0 p.1)
        (with_soundness (entries scopes.now) (map linked clauses.now))) }
    ensures claims { OnOk result (Claimed claims.new
        (with_soundness (entries scopes.now) (map linked clauses.now))) }
    ensures found { OnOk result (faults.new.items ≡ faults.old.items
        ++ found_after (entries scopes.now) (map linked clauses.now) [] (map linked clauses.now)) }
{
    for clause in clauses {
        let code = variable_code(scopes, assigned, claims, *clause);
        let is_flag_wrong = has_wrong_flag(scopes, *clause);
        let is_sound = is_sound(code, is_flag_wrong);
        add_at_variable(*clause, code, faults)?;
        add_at_flag(*clause, is_flag_wrong, faults)?;
        make_claims(claims, *clause, links.len(), is_sound)?;
        links.push(link_of(*clause, is_sound))?;
    }
    Ok(())
}

// How many variables are assigned. A sound clause claims one of them.
fn assigned_count(assigned: &[Option<Assigned>]) -> usize {
    assigned.iter().flatten().count()
}

/// Judges all clauses; what is found at them is added.
pub(crate) fn judged_clauses(
    alloc: Global,
    scopes: &Scopes,
    assigned: &[Option<Assigned>],
    clauses: &[Resolved],
    faults: &mut Vec<LinkFault>,
) -> Result<JudgedClauses, OutOfMemory>
    requires { Assigns assigned.now (map linked clauses.now) }
    ensures links { IfOk result (λ judged. judged.links.items ≡ map (λ p. clause_link p.0 p.1)
        (with_soundness (entries scopes.now) (map linked clauses.now))) }
    ensures claims { IfOk result (λ judged. Claimed judged.claims
        (with_soundness (entries scopes.now) (map linked clauses.now))) }
    ensures found { OnOk result (faults.new.items ≡ faults.old.items
        ++ found_after (entries scopes.now) (map linked clauses.now) [] (map linked clauses.now)) }
{
    let claimed = assigned_count(assigned);
    let mut judged = JudgedClauses {
        links: Vec::with_capacity(alloc, clauses.len())?,
        claims: ClauseIndex::with_room(alloc, claimed, assigned.len())?,
    };
    judge_all(
        scopes,
        assigned,
        clauses,
        &mut judged.links,
        &mut judged.claims,
        faults,
    )?;
    Ok(judged)
}
