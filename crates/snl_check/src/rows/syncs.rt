//! How channels are synced: a channel comes in, the number of its flag and its queue go out.

ghost use Rattle.std.specs.Prelude.{◌≡◌, option_and_then};
ghost use Rattle.snl_scope.specs.Flags.{flag_number};
ghost use Rattle.snl_walk.specs.Tokens.{IsSource};
ghost use Rattle.snl_check.specs.ItemTokens.{own_tokens};
ghost use Rattle.snl_check.specs.Collected.{IsRowSource, over, resolved};
ghost use Rattle.snl_check.specs.Tables as tables;

use crate::rows::item_clauses::ResolvedClause;
use crate::rows::item_source::ItemSource;
use crate::rows::row_source::RowSource;
use snl_grammar::tree::clause::Clause;
use snl_scope::Links;
use snl_tables::{Queue, Synced};

// The queue of a `syncq`.
fn queue_of(source: &ItemSource, length: Option<usize>) -> Queue
    requires { IsSource source.now.text.now (own_tokens source.now) }
    ensures { result ≡ tables.queue_of source.now.text.now (own_tokens source.now) length }
{
    match length {
        None => Queue::Default,
        Some(number) => Queue::Length(source.value(number).unwrap_or(0)),
    }
}

// The number of a flag that a clause names.
fn flag_number(links: &Links, flag: Option<usize>) -> Option<usize>
    ensures { result ≡ option_and_then (flag_number links.now.outlines) flag }
{
    links.flag_number(flag?)
}

// How a clause syncs what it speaks of.
fn synced(row_source: &RowSource, clause: ResolvedClause) -> Option<Synced>
    requires { IsRowSource row_source.now }
    ensures { result ≡ over row_source.now tables.synced (resolved clause.entry) }
{
    let flag = flag_number(row_source.links, clause.link.flag);
    match clause.clause {
        Clause::Sync {
            name: _,
            subscript: _,
            flag: _,
        } => Some(Synced {
            flag,
            queue: Queue::Unqueued,
        }),
        Clause::Syncq {
            capital: _,
            name: _,
            subscript: _,
            flag: _,
            queue,
        } => {
            let source = row_source.program.source(clause.item);
            Some(Synced {
                flag,
                queue: queue_of(&source, *queue),
            })
        }
        _ => None,
    }
}

/// How a channel of a variable is synced: by the first sound clause that speaks of it.
pub(crate) fn sync_of(
    row_source: &RowSource,
    variable: usize,
    element: Option<u64>,
) -> Option<Synced>
    requires { IsRowSource row_source.now }
    ensures { result ≡ over row_source.now tables.sync_of variable element }
{
    let number = row_source.links.sync_number(variable, element)?;
    let clause = row_source.clauses.get(number)?;
    synced(row_source, *clause)
}
