//! What an edit makes of the parts of a text: what is kept of the old text and the edit come in,
//! the changes of the pieces, the tokens and the items go out.
#![tactic(auto)]

ghost use Rattle.std.specs.Prelude.{◌≡◌, IfOk, vec_len};
ghost use Rattle.snl_cut.specs.Cut.{after_ticks};
ghost use Rattle.snl_lex.specs.Edit.{edit_of};
ghost use Rattle.snl_kept.specs.Kept.{IsListed};
ghost use Rattle.snl_kept.specs.Planned.{IsChanged};

use crate::lists::Lists;
use crate::plan::Changes;
use snl_cut::{Count, OutOfMemory};
use snl_items::TokenChange;
use snl_lex::TextEdit;
use std::alloc::Global;

/// What an edit makes of the pieces, the tokens and the items. Each made piece is one tick.
pub fn changes_of(
    alloc: Global,
    lists: &Lists,
    edit: &TextEdit,
    work: &mut Count,
) -> Result<Changes, OutOfMemory>
    requires lists { IsListed edit.now.old.now lists.now }
    ensures changes { IfOk result (IsChanged (edit_of edit.now)) }
    ensures ticks { IfOk result (λ c. work.new ≡ after_ticks work.old (vec_len c.pieces.list.ends)) }
{
    let pieces = lists.pieces.change(alloc, edit, work)?;
    let tokens = TokenChange::of(alloc, &lists.pieces, edit, &pieces)?;
    let items = lists.items.change(alloc, edit, &tokens)?;
    Ok(Changes {
        pieces,
        tokens,
        items,
    })
}
