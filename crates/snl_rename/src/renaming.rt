//! Another name for a name of a text. In: what is kept of the text, an offset, and the new name.
//! Out: the edits, or why there are none. What is offered was compared (`first_difference`); what
//! proposes it owes nothing but to be that.

ghost use Rattle.std.specs.Prelude.{◌≡◌, IfOk, length, map};
ghost use Rattle.snl_kept.specs.Kept.{IsKept, IsListed};
ghost use Rattle.snl_questions.specs.Mentions.{references_near};
ghost use Rattle.snl_alike.specs.Edits.{edits_of};
ghost use Rattle.snl_alike.specs.Same.{SaysTheSame};
ghost use Rattle.snl_rename.specs.Names.{IsFreeName};
ghost use Rattle.snl_rename.specs.Renaming.{IsRenaming, MatchOffered, edit_to};

use crate::faulty::Names;
use crate::names::is_free_name;
use crate::objections::objection;
use crate::places::{line_at, span_at};
use crate::proposed::proposed;
use crate::refusal::Refusal;
use snl_alike::{Difference, FindingChange, Replacement, first_difference};
use snl_cut::OutOfMemory;
use snl_kept::{Kept, Lists};
use snl_questions::{Reference, TokenPlace, references, span_bytes};
use std::alloc::Global;

/// The largest text in which a name is changed: 1 MiB.
const LARGEST: usize = 1 << 20;

/// The most references that are edited.
const MOST: usize = 100_000;

/// What is answered to a rename: edits in rising order, or why there are none.
#[derive(Drop)]
pub enum Renaming<'a> {
    Offered(Vec<Replacement<'a>>),
    Refused(Refusal<'a>),
}

// That a name would mean something else.
fn refused_meaning<'a>(
    alloc: Global,
    text: &'a [u8],
    lists: &Lists,
    place: Option<TokenPlace>,
) -> Result<Refusal<'a>, OutOfMemory>
    requires { IsListed text.now lists.now }
{
    let Some(place) = place else {
        return Ok(Refusal::Pieces);
    };
    let Some(span) = span_at(alloc, text, lists, place)? else {
        return Ok(Refusal::Pieces);
    };
    Ok(Refusal::Meaning {
        name: span_bytes(text, span),
        line: line_at(text, lists, span.start),
    })
}

// That a finding would go or come.
fn refused_finding<'a>(change: Option<FindingChange>) -> Refusal<'a> {
    match change {
        Some(FindingChange::Gone(finding)) => Refusal::Gone {
            code: finding.code,
            line: finding.line,
        },
        Some(FindingChange::Come(finding)) => Refusal::Come {
            code: finding.code,
            line: finding.line,
        },
        None => Refusal::Pieces,
    }
}

// What differs, as the reason of a refusal.
fn refused_as<'a>(
    alloc: Global,
    text: &'a [u8],
    lists: &Lists,
    difference: Difference,
) -> Result<Refusal<'a>, OutOfMemory>
    requires { IsListed text.now lists.now }
{
    match difference {
        Difference::Order | Difference::Pieces => Ok(Refusal::Pieces),
        Difference::Large => Ok(Refusal::Large),
        Difference::Meaning(place) => refused_meaning(alloc, text, lists, place),
        Difference::Finding(change) => Ok(refused_finding(change)),
        Difference::Table(part) => Ok(Refusal::Table { part }),
    }
}

// The edits, if the text says after them what it said.
fn offered<'a>(
    alloc: Global,
    text: &'a [u8],
    kept: &Kept,
    edits: Vec<Replacement<'a>>,
) -> Result<Renaming<'a>, OutOfMemory>
    requires { IsKept text.now kept.now }
    ensures { IfOk result (λ r. MatchOffered r (λ es. (es ≡ edits_of edits.entry.items)
        × SaysTheSame text.now es)) }
{
    match first_difference(alloc, text, kept, &edits)? {
        None => Ok(Renaming::Offered(edits)),
        Some(difference) => {
            let refusal = refused_as(alloc, text, &kept.lists, difference)?;
            Ok(Renaming::Refused(refusal))
        }
    }
}

// The same for the edits of these references, if nothing that is not compared speaks against them.
fn offered_for<'a>(
    alloc: Global,
    text: &'a [u8],
    kept: &Kept,
    offset: usize,
    name: &'a [u8],
    references: &[Reference],
) -> Result<Renaming<'a>, OutOfMemory>
    requires { IsKept text.now kept.now }
    ensures { IfOk result (λ r. MatchOffered r (λ es. (es ≡ map (edit_to name.now) references.now)
        × SaysTheSame text.now es)) }
{
    let Some(first) = references.first() else {
        return Ok(Renaming::Refused(Refusal::NoName));
    };
    if references.len() > MOST {
        return Ok(Renaming::Refused(Refusal::Many));
    }
    let names = Names {
        old: span_bytes(text, first.span),
        new: name,
    };
    if let Some(refusal) = objection(alloc, text, &kept.lists, offset, names)? {
        return Ok(Renaming::Refused(refusal));
    }
    match proposed(alloc, references, name)? {
        Some(edits) => offered(alloc, text, kept, edits),
        None => Ok(Renaming::Refused(Refusal::Many)),
    }
}

/// The edits that put another name in the place of each reference of the name near an offset, or
/// why they are not offered. The text is compiled with them on the side: after edits that are
/// offered it says what it said. Nothing that is kept is changed. The only error is want of memory;
/// the time is that of a text that is opened.
pub fn rename<'a>(
    alloc: Global,
    text: &'a [u8],
    kept: &'a Kept,
    offset: usize,
    name: &'a [u8],
) -> Result<Renaming<'a>, OutOfMemory>
    requires { IsKept text.now kept.now }
    ensures { IfOk result (λ r. MatchOffered r (IsRenaming text.now offset name.now)) }
{
    if text.len() > LARGEST {
        return Ok(Renaming::Refused(Refusal::Large));
    }
    if !is_free_name(alloc, name)? {
        return Ok(Renaming::Refused(Refusal::NotFree));
    }
    let references = references(alloc, text, &kept.lists, offset)?;
    offered_for(alloc, text, kept, offset, name, &references)
}
