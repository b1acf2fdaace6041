//! What links are made of that goes by the outlines alone: names first, then clauses.

ghost use Rattle.std.specs.Prelude.{◌≡◌, [], IfOk};
ghost use Rattle.snl_scope.specs.Flags.{flags_of};
ghost use Rattle.snl_scope.specs.Names.{entries, repetitions};
ghost use Rattle.snl_scope.specs.Said.{TellsClauses};

use crate::clauses::assigned::assigned_in;
use crate::clauses::clause_index::ClauseIndex;
use crate::clauses::flags::flags_of;
use crate::clauses::resolved::resolved_clauses;
use crate::clauses::soundness::{JudgedClauses, judged_clauses};
use crate::facts::{Assigned, ClauseLink, LinkFault};
use crate::items::places::{ItemPlaces, places_of};
use crate::names::name_tables::{NameTables, tables_of};
use crate::names::scopes::Scopes;
use crate::outlines::outline_list::OutlineList;
use snl_cut::OutOfMemory;
use std::alloc::Global;

/// The finished tables of names, the event flags among them, and the names that came again.
#[derive(Drop)]
pub(crate) struct LinkedNames {
    pub scopes: Scopes,
    pub flags: Vec<usize>,
    pub repeated: Vec<LinkFault>,
}

/// The clauses of all items, what they claim and assign, and what is found at them.
#[derive(Drop)]
pub(crate) struct LinkedClauses {
    pub clauses: Vec<ClauseLink>,
    pub claims: ClauseIndex,
    pub assigned: Vec<Option<Assigned>>,
    pub faults: Vec<LinkFault>,
}

/// What the names of all items mean.
pub(crate) fn linked_names(alloc: Global, outlines: OutlineList) -> Result<LinkedNames, OutOfMemory>
    ensures scopes { IfOk result (λ names. names.scopes ≡ outlines.outlines) }
    ensures flags { IfOk result (λ names. names.flags.items ≡ flags_of outlines.outlines) }
    ensures repeated { IfOk result
        (λ names. names.repeated.items ≡ repetitions [] (entries outlines.outlines)) }
{
    let ItemPlaces { places, heads } = places_of(alloc, &outlines)?;
    let tables = tables_of(alloc, &outlines, &places)?;
    let flags = flags_of(alloc, &tables)?;
    let NameTables {
        first,
        symbols,
        faults: repeated,
    } = tables;
    let scopes = Scopes {
        places,
        heads,
        outlines,
        first,
        symbols,
    };
    Ok(LinkedNames {
        scopes,
        flags,
        repeated,
    })
}

/// What the clauses of all items say.
pub(crate) fn linked_clauses(alloc: Global, scopes: &Scopes) -> Result<LinkedClauses, OutOfMemory>
    ensures { IfOk result (λ made. TellsClauses made scopes.now) }
{
    let resolved = resolved_clauses(alloc, scopes)?;
    let assigned = assigned_in(alloc, &resolved)?;
    let mut faults = Vec::new(alloc);
    let JudgedClauses { links, claims } = judged_clauses(
        alloc,
        scopes,
        &assigned,
        &resolved,
        &mut faults,
    )?;
    Ok(LinkedClauses {
        clauses: links,
        claims,
        assigned,
        faults,
    })
}
